//! The rules on code, each at one instruction.
//!
//! What an instruction takes off the stack and puts on it, and each rule from the second to the tenth, asked at an
//! instruction where kinds stand: the kinds of the locals, and those on the stack with the lowest first. Each call's
//! answer is the rule's definition; what an instruction leaves alone may want memory. Beside an image stands an index,
//! so that no question goes up through bases or over fields but one whose answer breaks a rule. The verifier asks them
//! along the code.
#![tactic(auto)]

mod arriving;
mod cells;
mod effects;
mod fields;
mod indexed;
mod kinds;
mod leaving;
mod numbers;
mod places;
mod stack;

pub use arriving::goes_to_entry;
pub use fields::field_missing;
pub use indexed::Indexed;
pub use kinds::{all_go, goes_to};
pub use leaving::leave;
pub use numbers::{number_missing, result_differs};
pub use places::{goes_back, is_end, jumps_to, op_at, runs_past};
pub use stack::{kind_differs, stack_breaks};
