//! The machine: instructions done on frames of cells.
//!
//! An instruction may be done where the definition's own effect ends by a value or a trap in some root call. Then, in
//! each root call in which it does, it leads to where that effect leads, which by the laws is the next step of the
//! machine. So nothing here is ever stuck. No call takes memory. There are the instructions on constants, locals,
//! numbers, truth values and references, jumps, turns, calls and returns: all that look at no block. The rest of the
//! machine stands on these.
#![tactic(auto)]

mod calls;
mod comparisons;
mod conversions;
mod course;
mod ints;
mod jumps;
mod laws;
mod locals;
mod longs;
mod tops;
mod turns;

pub use calls::{call, call_instruction, return_nothing, return_value, virtual_call};
pub use comparisons::{
    compare_ints, compare_longs, comparison_instruction, other_bools, other_references, same_bools,
    same_references,
};
pub use conversions::{
    conversion_instruction, int_to_byte, int_to_long, int_to_short, long_to_int, not,
};
pub use course::Course;
pub use ints::{flip_int, int_arithmetic, int_instruction, negate_int};
pub use jumps::{jump, jump_if_false, jump_if_true, jump_instruction};
pub use laws::{fine_frames_may_go_on, instructions_are_steps};
pub use locals::{
    dup, load, local_instruction, pop, push_bool, push_int, push_long, push_null, push_statics,
    push_text, store,
};
pub use longs::{
    flip_long, long_arithmetic, long_instruction, negate_long, shift_long_left, shift_long_right,
};
pub use turns::{take_turn, ticks, turn, turn_instruction};
