//! Frames of cells: locals and stack of all frames of a running root call, in one row.
//!
//! All memory is taken by `Cells::new`. Each call does to the frames what its equation says, and to the frames below
//! the running one nothing at all. The arguments of a call become the first locals of its frame where they lie. The
//! machine stands on this crate.
#![tactic(auto)]

mod cell;
mod cells;
mod extent;
mod laws;
mod row;

pub use cell::Cell;
pub use cells::Cells;
pub use laws::{calls_leave_their_caller, what_is_pushed_is_popped, what_is_stored_is_loaded};
