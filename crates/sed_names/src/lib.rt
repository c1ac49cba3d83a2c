//! What the names and the literals of a program mean to the bodies in it.
//!
//! `Lookup` is what stands between the classes of a program and the judgement of its bodies: the one is made from
//! tables of classes and members, the other is written over any `Lookup`. A member that is declared with a fault has a
//! meaning too, which is not known; so a body that uses it is judged, and no rule speaks of that use.
#![tactic(auto)]

pub mod literals;
pub mod lookup;
pub mod member;
pub mod signature;

pub use literals::{character_of, integer_of};
pub use lookup::Lookup;
pub use member::{Constant, Member};
pub use signature::Signature;
