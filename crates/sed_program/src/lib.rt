//! The program that units spell, but for the bodies of its methods.
//!
//! `Tables` are made once, and show to the bodies in a text of a kit what names mean there: classes by their numbers in
//! the schema, fields, static fields and methods by their numbers in the program. Units with faults have them too, so
//! that each body can be judged. Of units that break no rule on what they declare, the fields, the texts and the heads
//! of methods are made here as the program has them.
//!
//! The schema has each class once, each base before the classes based on it. So a class has two names: its place among
//! all that are declared, and its number in the schema. The laws say that the one leads to the other and back, and that
//! what a typed program says of a class by its number is what the units say by its place. Each is the contract of a
//! function that does nothing.
#![tactic(auto)]

mod declared_member;
mod fields;
mod laws;
mod name_places;
mod numbers;
mod ordered;
mod parts;
mod spelled;
mod tables;
mod types;
mod view;

pub use declared_member::DeclaredMember;
pub use laws::{bases_stand_first, classes_stand_in_order, fields_stand_by_class};
pub use ordered::Ordered;
pub use parts::Part;
pub use spelled::{Spelled, note_bodies};
pub use tables::Tables;
pub use view::View;
