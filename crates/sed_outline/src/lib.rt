//! The schema of units.
//!
//! `classes` gives the kits and classes of a program whose units break no rule on classes and members: each class with
//! its number, its base, its slots and its size, each base before the classes based on it, and each kit with its
//! checksum. Which slot a member adds, and which slots a class has, those that it inherits before its own, has calls of
//! its own.
//!
//! Which inline objects would stand in themselves, of which classes there are none, and how many bytes an object of a
//! class takes, is asked of all classes at once, in rounds: each goes one object deeper, until nothing changes or there
//! are as many rounds as classes. So nothing goes deeper on the stack than a call, however objects stand in one
//! another. Before, each class is gone into once, behind those whose objects stand in it: that settles each that holds,
//! however deep, no object that would stand in itself, and only of the others it is asked in rounds.
#![tactic(auto)]

mod class_slots;
mod fields;
mod holding;
mod info;
mod kits;
mod measured;
mod objects;
mod order;
mod rows;
mod schema;
mod settled;
mod sizes;

pub use class_slots::{shape_of, slots};
pub use measured::Measured;
pub use objects::objects_fault;
pub use order::{class_order, type_number};
pub use schema::classes;
