//! The rules on classes and members, and on initial values: at which places the units of a program break them.
//!
//! Each call answers with the least fault of what a definition of sed_classes lists, and of two that are put together
//! with the lesser one. So no list of faults is ever kept. What checks a program goes over its classes with these
//! calls, and judges the bodies of methods beside them.
//!
//! A define may name another one. What each comes to is found once for all of them, by going from define to define and
//! back, so nothing goes deeper on the stack than a call, however long the row of defines is. Where a define leads into
//! a circle, it is followed anew whenever it is asked for.
#![tactic(auto)]

mod all_defines;
mod apart;
mod class;
mod constants;
mod define_places;
mod defines;
mod fields;
mod limits;
mod literals;
mod members;
mod names;
mod plain;
mod settled;
mod settling;
mod values;

pub use all_defines::Defines;
pub use class::form_fault;
pub use constants::read_value;
pub use fields::{member_not_fit, param_not_fit};
pub use limits::{
    too_long_in_class, too_long_in_member, too_long_in_param, too_long_in_type, too_long_name,
    too_many_params, too_many_types,
};
pub use members::{
    class_not_runnable, inherited_name_taken, is_wrong_action, is_wrong_property,
    method_not_runnable, overrides_nothing, slot_not_fit,
};
pub use names::{base_not_fit, base_without_class, class_name_not_free, type_without_class};
pub use plain::Plain;
pub use values::values_fault;
