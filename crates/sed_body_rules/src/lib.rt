//! The rules that the parts of a method's body keep: what is in scope, what goes where, and what is wanted of operands.
//!
//! `Locals` is the scope at a place of a body. A method's locals are numbered in the order of its text, behind its
//! receiver and its parameters, and no two have one number, also where the block of the one has ended before the other
//! begins. A name is in scope from behind its declaration to the end of its block. A declaration changes the scope in
//! one way, whether or not it breaks a rule.
//!
//! The other rules are on conversions to the place that a value goes to, on operands, an index, casts and `? :`, and on
//! stores: `=`, `op=`, `++` and `--`. Each is a definition in specs/ that is read with all faults or with the least,
//! and each function here is that rule with the least fault. What is found and sound is a typed tree in the making: an
//! int that goes to a long by itself, and `null` in the kind that its place wants, are already in it.
#![tactic(auto)]

pub mod choices;
pub mod conversions;
pub mod local;
pub mod local_types;
pub mod locals;
pub mod operands;
pub mod stores;
pub mod wants;

pub use choices::chosen;
pub use conversions::{
    Checked, beside, has_kind, in_width, is_bool, is_int, is_long, is_number, is_operand,
    is_reference, meeting, placed, same_kind, width_of,
};
pub use local::{Entry, Local, TypeMeaning};
pub use local_types::{local_kind, type_meaning};
pub use locals::Locals;
pub use operands::{cast, element, flipped, negated, operated, opposite};
pub use stores::{arithmetic_of, assigned, compound, counted, counted_first, going};
pub use wants::{both_values, truth, wants_int, wants_number, wants_operand};
