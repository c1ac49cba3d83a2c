//! Compiled code means what its source means.
//!
//! Where an image is made of a typed program, the machine's steps reach what the source's root call comes to: the same
//! result or trap, the same contents and statics, and as many turns left. The machine's frame has each local of the
//! source as it is once it is begun, and four of the compiler's behind them, whose values mean nothing; a place of the
//! code stands for a place in the tree, and what is on the stack for the operands that were evaluated. No byte of data
//! occurs: on both sides values are known by path. What is wanted of an image is one record, `IsMade`.
#![tactic(auto)]

mod laws;

pub use laws::{compiled_roots_are_the_same, compiled_roots_reach_what_they_mean};
