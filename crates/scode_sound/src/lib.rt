//! No verified image goes wrong.
//!
//! Wherever a shape stands, an instruction finds cells of the kinds that it needs, and leaves cells of the kinds of the
//! shape that it leads to; and each step leaves less to do. So a root call that may be asked is over within the bound,
//! by a value or a trap, with contents that fit: the code that a verified image means is whole. There are laws alone.
#![tactic(auto)]

mod asked;
mod laws;

pub use asked::has_root;
pub use laws::{
    fine_machines_go_on, verified_calls_are_over, verified_calls_end, verified_images_are_whole,
};
