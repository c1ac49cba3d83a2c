//! What a code means, and what an engine is.
//!
//! The definitions say what expressions, statements and root calls of a program do. A code is one
//! record of definitions: its schema, the fields of its classes and of their slots, the contents of
//! new objects and of the statics, data sizes, and its root call, which answers what it may be asked
//! and no more; so codes that are alike in that are one. `Engine` keeps objects of such a code and
//! runs root calls on them; everything above speaks of a code through this trait alone.
#![tactic(auto)]

pub mod call;
pub mod engine;
pub mod laws;
pub mod strs;
pub mod trap;

pub use call::{AddRefusal, CallEnd, Callback, Place, Root};
pub use engine::Engine;
pub use laws::{
    carried_codes_are_one, masked_codes_answer, masked_codes_are_whole, more_turns_end_alike,
    paths_stay, turns_do_not_grow, typed_programs_are_whole, typed_programs_never_go_wrong,
    what_is_kept_fits, what_is_left_fits, what_may_be_asked,
};
pub use strs::{characters, filled};
pub use trap::Trap;
