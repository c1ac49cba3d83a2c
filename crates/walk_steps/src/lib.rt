//! The steps of a walker: what it does between two branches of the typed tree.
//!
//! A walker's values are words, and a reference is a number of a place of a `sed_cells::Plan`. Each
//! function here is one step of the definitions in sed_engine, whatever it is given: an operator, a
//! read or a store of a local, of a field, of an element or of a static, a call of a Str, a turn, the
//! look-up of a method. `seen` says what a word stands for, and `state_of` what a store and locals do;
//! a step that no typed program takes ends by `Stop::Untyped`, as the definition's does. The walk
//! itself, through expressions, statements and calls, stands on these.
#![tactic(auto)]

pub mod bufs;
pub mod locals;
pub mod operators;
pub mod places;
pub mod reach;
pub mod store;
pub mod targets;
pub mod texts;
pub mod word;

pub use store::Store;
pub use targets::Target;
pub use word::{Base, Stop, Word};
