//! What an image that breaks no rule is as a code.
//!
//! The rules on tables are tests of an image; what everything above a code relies on is said of its meaning. Here is
//! that the one gives the other: the tables of a verified image are those of a whole code, and what it may not be asked
//! it answers as such. It is whole once it answers well what it may be asked, which the machine is to show. There are
//! laws alone.
#![tactic(auto)]

mod laws;

pub use laws::{verified_images_are_whole_but_for_roots, verified_images_that_answer_are_whole};
