//! The image of a program.
//!
//! By the definition `image_of` the image of a typed program has its kits, its classes with their fields, slots,
//! tables and first bytes, its statics, its texts, and each method as it is compiled for the layout that these say.
//! `generate` gives exactly that image, and refuses the first method whose code is too long. That such an image breaks
//! no rule, has a text and carries the program are the laws of scode_agree, scode_fine, scode_text and scode_made.
#![tactic(auto)]

mod class_fields;
mod copies;
mod first_bytes;
mod image_classes;
mod image_fields;
mod image_kits;
mod image_slots;
mod methods;
mod parts;
mod refusal;
mod whole;

pub use refusal::GenRefusal;
pub use whole::generate;
