//! The classes of a program's kits: what the units of its texts say of names, bases, members, fields and slots.
//!
//! The definitions of specs/ go from the units alone: kit `sys` and its five types stand before the classes of the
//! units, a class is found by its name in its own kit, in those that the kit depends on, and in `sys`; what a class
//! inherits follows its bases. Each rule on classes and their members is a definition of its own, which gives the
//! places at which units break it. The schema of units that break none is a function of them.
//!
//! The definitions search lists. The code doesn't: the first class of each name in a kit and the first member of each
//! name in a class are put into ordered maps when the classes are gathered, and each name is found there. The base of
//! each class, and how many bases it has, are found once: where they come to an end, a lineage is climbed with no look
//! at what came before.
//!
//! Two parties whose kits have the same checksums have the same slots: the canonical text of a kit names its classes
//! with their bases and the slots that each adds, and the checksum is taken of that text. `canonical_text` and
//! `checksum` are exactly their definitions.
#![tactic(auto)]

mod base_counts;
mod bases;
mod digest;
mod entry;
mod index;
mod inherited;
mod kit_units;
mod members;
mod name_places;
mod source_type;
mod sys;
mod table;
mod text;
mod types;

pub use bases::Based;
pub use digest::checksum;
pub use entry::Entry;
pub use inherited::{Found, behind_first, is_declared};
pub use kit_units::KitUnits;
pub use members::{
    has_body, has_name, has_word, is_abstract_class, is_action, is_config, is_define, is_inline,
    is_instance_field, is_method, is_open, is_property, is_static, is_static_field, overrides,
    params_of, says_abstract, says_virtual,
};
pub use source_type::{Constant, PlacedFault, SourceType};
pub use sys::sys_classes;
pub use table::{Classes, is_buffer_name, is_text_name};
pub use text::canonical_text;
pub use types::{
    is_argument_type, is_field_type, is_property_type, is_same_type, is_storable, is_unknown,
    is_void,
};
