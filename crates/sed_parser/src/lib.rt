//! Units of the language, read from their tokens.
//!
//! `parse` gives the unit that the tokens derive by the grammar of `specs/Derives`, and a fault where they derive none.
#![tactic(auto)]

mod parser;
mod parsing;

pub use parsing::{ParseRefusal, fault_is_one, parse, unit_is_one};
