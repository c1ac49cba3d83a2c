//! Where things stand in a program: the offsets of fields and statics, and the tables of virtual methods.
//!
//! The definitions say what is exact for each: a field stands behind those before it, inherited ones first, without
//! padding, and a table has for each virtual method of a class the nearest one of that name. `layout` gives these of a
//! whole program. The laws say what follows: nothing overlaps, what is inherited stays where it was, and a name has one
//! place in the tables of a class and of all below it. The compiler stands on this crate, since an image says both in
//! its tables.
#![tactic(auto)]

mod field_laws;
mod offset_laws;
mod offsets;
mod places;
mod rows;
mod table_laws;
mod tables;
mod whole;
mod widths;

pub use field_laws::fields_go_by_bases;
pub use offset_laws::{
    data_is_the_sum_of_fields, fields_do_not_overlap, fields_lie_within, fields_take_bytes,
    inherited_fields_keep_their_offsets, numbers_are_small, statics_do_not_overlap,
    statics_lie_within,
};
pub use places::Layout;
pub use rows::row_at;
pub use table_laws::{
    names_keep_their_places, places_hold_the_nearest_method, system_methods_have_the_first_places,
    tables_have_each_virtual_method, tables_hold_virtual_methods, virtual_methods_have_places,
};
pub use whole::layout;
pub use widths::base_of;
