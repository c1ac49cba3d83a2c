//! Laws of the members that units spell, where no class breaks a rule on what it declares.
//!
//! Each rule on a member is a test that fails, each name stands once in a class, and types that are known have forms
//! and kinds (`faultless_laws`). Initial values come to values of the types that they are given to, and chains of
//! defines come to an end (`constants_laws`). A field, a static or a method has the number of its place behind those of
//! the classes before its own, and what is found by a name in a class of the program is what the name stands for in the
//! units (`placed_laws`). A method and the nearest member of its name above its class have one signature, and both are
//! virtual (`overrides_laws`). The members of the program are typed: fields with their forms and what they begin with,
//! methods but for their bodies, names, what overrides, and the limits on methods (`membered_laws`). Each law is the
//! contract of a function that does nothing.
#![tactic(auto)]

mod constants_laws;
mod faultless_laws;
mod membered_laws;
mod overrides_laws;
mod placed_laws;

pub use constants_laws::kept_values_are_typed;
pub use faultless_laws::{members_keep_the_rules, names_stand_once};
pub use membered_laws::{
    concrete_classes_have_bodies, fields_are_typed, members_are_typed, methods_are_typed,
    statics_are_no_properties, statics_are_typed,
};
pub use overrides_laws::what_overrides_is_alike;
pub use placed_laws::{no_class_breaks_a_rule, the_nearest_method_is_found};
