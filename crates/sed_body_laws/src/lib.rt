//! Laws of method bodies: a body without a fault is a body of a typed program, and not too deep, nor its term too high.
//!
//! In a program in which names mean what they say, what a body comes to is typed and its locals are numbered on, and it
//! is unknown only with a fault. `specs/Nesting` counts the constructs that are open at a place of a source, and
//! `specs/Levels` how high its term may be. What the grammar derives nests at most 64 deep, and so its term is at most
//! 2,080 levels high, which isn't said of the tree that is made of it; the judgement of bodies makes no construct of
//! its own, so a sound body nests at most as deep as its source.
//!
//! A body in which no rule is broken has a tree, as far as a memory holds it: what it comes to is known and typed,
//! nothing stands in it beside the parts of its nodes, and such a term is that of a flat tree. Each law is the contract
//! of a function that does nothing.
#![tactic(auto)]

mod depth_laws;
pub mod laws;
mod nesting_laws;
mod tree_laws;

pub use depth_laws::{judged_bodies_are_shallow, sound_bodies_are_shallow};
pub use laws::{judged_methods_are_typed, sound_bodies_are_bodies};
pub use nesting_laws::derived_bodies_are_shallow;
pub use tree_laws::{faultless_bodies_have_trees, judged_bodies_are_neat, typed_terms_have_trees};
