//! The image of a typed program has a text.
//!
//! What the writer of images asks of an image, the image of a typed program with short methods has, if the program's
//! names and numbers are of their forms, as those of a program that is held as a value are: each count and number fits
//! its bytes, names are characters of ASCII, forms and kinds are those of the grammar, and the entries of each method
//! ascend. So what the compiler makes can be written. There is a law alone.
//!
//! Its proof says of each way to put forms of bytes together, and of each part of an image, when something is spelled
//! by some bytes, and then of each part that the compiler makes that it is.
#![tactic(auto)]

mod laws;

pub use laws::images_have_a_text;
