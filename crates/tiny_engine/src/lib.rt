//! The least engine: it runs the code that has the types of `sys` alone, and keeps one object.
//!
//! It shows that the trait `Engine` can be met, and by `Meter` that its clauses are enough for
//! what stands above it. Nothing of the product stands on it.
#![tactic(auto)]

pub mod caller;
pub mod sys;
pub mod tiny;
