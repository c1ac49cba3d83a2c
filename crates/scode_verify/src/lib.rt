//! The verifier: which images may run.
//!
//! `verify` gives the image back as a verified one where it breaks no rule, and else the first rule that it breaks,
//! with the method and the place. Each method's code is gone over twice at most, for the starts of instructions and
//! then for the rules, without recursion; beside it go its entries. What memory it takes is a few bytes for each byte
//! of first contents, the statics' among them, a truth for each two classes and a few numbers a class; then a truth and
//! a few numbers for each byte of a method's code, and the kinds at one place.
#![tactic(auto)]

mod changes;
mod entries;
mod first;
mod kinds;
mod starts;
mod verified;
mod walk;

pub use verified::{Verified, VerifyRefusal, verify};
