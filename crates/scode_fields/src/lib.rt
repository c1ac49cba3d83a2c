//! The fields of an image, their first bytes and the limits; and with them whether all tables agree: the first of the
//! rules that an image keeps.
//!
//! Each part of the rule is asked by a call whose answer is the part's definition, and `tables_agree` asks them all.
//! Nothing here goes over pairs of fields, or into one object twice. Fields overlap where one takes a byte that another
//! has. A walk over the classes puts each behind those that it leads to, or finds one that leads back to itself; and in
//! that order each class gets a row that tells how great each of its bytes may be. The verifier stands on this crate.
#![tactic(auto)]

mod bytes;
mod fields;
mod holders;
mod limits;
mod tables;

pub use fields::{
    field_width, fields_are_laid, may_be_inline, n_is_of_form, object_fields_are_there,
    objects_may_be_inline,
};
pub use limits::{class_keeps_limits, keeps_limits, method_keeps_limits};
pub use tables::tables_agree;
