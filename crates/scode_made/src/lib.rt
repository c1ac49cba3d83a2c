//! The image that `generate` makes of a program is one that the compiler's law speaks of.
//!
//! For a typed program with short methods, the image has its methods, its texts, its fields and statics, and its
//! virtual methods at their places, so its code means what the source means. What the laws of layouts say of a program
//! is one law, on which its image's stand. The image tells the program's own schema and data, and its root calls run
//! the same methods: so where the machine of a root call is over within its bound, the image's root call is the
//! program's, and a verified image carries its program and means the same. There are laws alone.
#![tactic(auto)]

mod laws;

pub use laws::{
    compiled_roots_are_the_programs, images_are_made, images_mean_their_programs,
    images_tell_the_data, images_tell_the_schema, roots_run_the_same_methods,
    typed_programs_are_laid, verified_images_carry_their_programs,
};
