//! Laws of the classes that units spell, where these break no rule on what they declare.
//!
//! No object stands in itself, so the size of an object is a sum that ends, and the program's data size of a class is
//! the units' (`depth_laws`). The kits, the classes, the statics and the texts of the program that they spell are
//! typed; of the names of kits and of the bytes in texts, of which no rule on declarations speaks, the laws take what
//! the readers of manifests and of texts leave (`outlined_laws`). No two slots of a class have one name, and only
//! components have any (`slotted_laws`). Each slot has its one field or its method, and the types of `sys` declare what
//! they declare and no more (`actions_laws`). Each law is the contract of a function that does nothing.
#![tactic(auto)]

mod actions_laws;
mod depth_laws;
mod outlined_laws;
mod slotted_laws;

pub use actions_laws::{slots_are_typed, types_of_sys_are_typed};
pub use depth_laws::{data_sizes_are_kept, no_object_stands_in_itself, objects_lie_deeper};
pub use outlined_laws::{classes_are_typed, kits_are_typed, statics_are_few, texts_are_typed};
pub use slotted_laws::slots_have_names_of_their_own;
