//! What the expressions of bodies come to.
//!
//! `judge` gives for an expression of a source the typed tree that it spells, or says that it is unknown, with the
//! faults inside: one definition, read with all faults or with the least. `expression` is that judgement with the least
//! fault.
//!
//! What names, literals, members and calls come to has a definition and a function of its own each, with what stands
//! inside of an expression judged before. What names mean is asked of a `Lookup`, and of the locals in scope.
#![tactic(auto)]

pub mod before;
mod behind;
mod calls;
mod chains;
pub mod context;
mod environment;
pub mod expressions;
pub mod laws;
pub mod literals;
pub mod member_calls;
pub mod members;
pub mod places;
mod steps;

pub use before::before_link;
pub use context::{Before, Body, Callee, Owner};
pub use expressions::expression;
pub use laws::{
    judged_expressions_are_typed, least_fault_is_found, placed_goes, truth_right, wants_right,
};
pub use literals::literal;
pub use member_calls::{
    CheckedArguments, argument, called, class_call, kind_at, no_method, own_call, params_behind,
    super_called, super_missing, system_call, with_argument,
};
pub use members::{class_member, member_of, named, owner_of, receiver, spelled, spelled_head};
pub use places::{may_name, place_of};
