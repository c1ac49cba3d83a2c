//! Faults in a text: a broken rule and the place at which it is broken.
//!
//! A definition lists all faults of what it speaks of; code keeps the least alone. `joined` is how two parts are put
//! together, and `least_of_two_lists` says that nothing is lost by it. Whatever checks a program stands on this crate.
#![tactic(auto)]

mod fault;
mod laws;

pub use fault::{Fault, broken_if, joined};
pub use laws::least_of_two_lists;
