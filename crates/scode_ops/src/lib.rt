//! The instructions of compiled code, and their bytes.
//!
//! `Op` has one variant for each instruction. The table of instructions is the definition `code_of`, by the number and
//! the operands of each; `encode` writes it, and `decode` finds the instruction that stands at a place, and none
//! exactly where none stands there. Each instruction has one spelling, and none is a front of another. Images, the
//! verifier, the machine and the compiler stand on this crate.
#![tactic(auto)]

mod codes;
mod instruction;
mod laws;
mod number;
mod op;
mod operands;

pub use codes::{decode, encode};
pub use laws::{instructions_are_found, one_instruction_stands, spellings_differ};
pub use op::Op;
pub use operands::LONGEST_CODE;
