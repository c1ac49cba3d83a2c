//! The walker: the engine that runs typed programs by walking their trees.
//!
//! Its code is the program, and its root call is the language's. Each component is kept in cells that are found by
//! numbers, so a read or a store costs a step for each field on the way to it, however large the component. Only `new`
//! and `add` take memory: a root call has its frames on the native stack.
//!
//! A code names a property by the slot of its class. A `SlotPlan` is a plan that knows the cell behind each slot, so
//! that a property is read and stored without a search.
#![tactic(auto)]

mod calls;
mod component;
pub mod slot_plan;
pub mod table;
mod walker;

pub use slot_plan::SlotPlan;
pub use walker::Walker;
