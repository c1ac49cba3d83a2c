//! What stands beside a method's code in an image: its entries, its locals and its greatest stack; and whole methods.
//!
//! An entry stands where code goes on whichever way it is reached. The entries of a method, by the definition
//! `entries_of`, recurse over its tree as its code does, so their places are those of the code. `emit_method` gives a
//! method as it stands in an image, and refuses it exactly where its code is too long. By laws the entries ascend and
//! stand where instructions start, no method says more cells than its code has bytes, and each instruction of a typed
//! method is one that there is. A compiler of whole programs, and the proof that what it makes breaks no rule, stand on
//! this crate.
#![tactic(auto)]

mod cases;
mod cells;
mod entries;
mod expression_marks;
mod laws;
mod locals;
mod marks;
mod method;
mod refusal;
mod stack;
mod statement_marks;

pub use cases::cases_have_32_bits;
pub use cells::Below;
pub use laws::{code_exists, entries_ascend, stacks_are_no_longer_than_code};
pub use marks::Mark;
pub use method::emit_method;
pub use refusal::EmitRefusal;
