//! Blocks of bytes for the objects of an image: one for each live object, and the static one.
//!
//! All memory is taken by `Pool::new`. Blocks lie in one row of bytes, and move to its front where an `add` finds no
//! room behind the part in use, which no removal makes shorter; so `DataFull` comes by the sizes of live blocks alone.
//! What is written is read, and all other bytes and blocks stay, as they do where a block comes or goes. The machine
//! stands on this crate.
#![tactic(auto)]

mod block;
mod entry;
mod laws;
mod moves;
mod number;
mod pool;
mod start;

pub use block::Block;
pub use laws::{
    all_else_stays, new_blocks_leave_the_others, removed_blocks_leave_the_others,
    what_is_written_is_read,
};
pub use pool::Pool;
