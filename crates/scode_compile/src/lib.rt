//! The compiler: from a typed program to a verified image, and the engine that runs it.
//!
//! `verified_image` gives the image of a program, already verified. The image has a text, so it can be written; it
//! carries the program; and it means what the program means. Where the code of a method is too long the first such
//! method is named, and there is no other refusal but for want of memory: that the verifier finds no fault in the image
//! of a typed program is proved, so none is ever answered. `compile` keeps the image with its program: a `Compiled` is
//! seen as the program, `Compiled::machine` is the engine that runs the image, and so one of the program,
//! `Compiled::into_verified` gives the image alone, and `Compiled::write` puts its text. Laws say that whatever image
//! such a text is read as means what the program means, and that programs which are the same, but for where their
//! bodies lie in memory, are refused alike. Every command that loads kits or a source stands on this crate.
#![tactic(auto)]

mod compiled;
mod compiler;
mod laws;
mod refusal;
mod right;

pub use compiled::{Compiled, compile};
pub use compiler::verified_image;
pub use laws::{images_are_read_as_their_programs, programs_alike_are_refused_alike};
pub use refusal::CompileRefusal;
