//! The tables of an image: what stands behind their numbers, names and kinds, kits and types, classes and their bases,
//! slots and methods.
//!
//! Each part of the rule on tables is a call of its own, whose answer is the part's definition. Nothing here takes
//! memory. Those on fields, and whether all tables agree, stand above; so do the rules on code.
#![tactic(auto)]

mod bases;
mod kinds;
mod known;
mod lookup;
mod methods;
mod names;
mod slots;
mod sys;
mod types;

pub use bases::{
    base_stands_before, grows, grows_from_base, is_abstract_class, is_component, is_marked,
    is_same_signature, keeps_signatures, table_keeps_signatures,
};
pub use kinds::{are_same_kinds, has_class, is_same_kind, kinds_are_there};
pub use known::{class_is_known, method_is_known, parts_are_known};
pub use lookup::{class_at, fields_of, is_at_or_above, method_at, table_method, type_at};
pub use methods::{
    abstract_is_empty, is_abstract, is_instance, locals_begin, method_agrees, methods_agree,
};
pub use names::names_have_form;
pub use slots::{
    action_has_method, class_numbers_are_there, field_number, may_stand_in_table,
    property_has_field, slots_have_parts, table_methods_fit,
};
pub use sys::{component_has_table, has_signature, sys_is_there};
pub use types::{count_in_kit, types_are_numbered};
