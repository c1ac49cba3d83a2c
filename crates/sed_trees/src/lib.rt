//! Trees of units, made of their parts, each in a place of its own.
//!
//! For each form of an expression, a statement, a member and a class one call makes it of its parts, in a `Boxed`,
//! which contracts see as the item in it. What a call makes is the tree that its contract names, which only want of
//! memory prevents (`Makes`). An item by value is dear to check, so what the parser (sed_parser) reads goes from call
//! to call in these.
#![tactic(auto)]

mod boxed;
pub mod classes;
pub mod expressions;
pub mod statements;

pub use boxed::{Boxed, push, with_first};
pub use sed_value::Halt;
