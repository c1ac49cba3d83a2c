//! Images of compiled code in bytes, both ways.
//!
//! An image is what the compiler makes and the machine runs: kits, classes with their fields, slots, tables and first
//! contents, the static block, texts, and methods. `read_image` gives the image that the bytes are, and else the place
//! of the first field that is cut or not allowed; `write_image` gives the one text of an image. Whether the parts of an
//! image agree, and its code may run, is the verifier's to say.
#![tactic(auto)]

mod classes;
mod fields;
mod image;
mod items;
mod laws;
mod methods;
mod put;
mod reading;
mod whole;
mod writing;

pub use image::{
    Image, ImageClass, ImageEntry, ImageField, ImageKind, ImageKit, ImageMethod, ImageSlot,
};
pub use laws::{bytes_are_an_image_or_fault, images_have_one_text};
pub use reading::{ImageRefusal, read_image};
pub use writing::write_image;
