//! The record that is generated for a code.
//!
//! `generated` makes a record of two sessions that build and edit an application of a code, as a user of a node. What
//! `replay_log` generates it of is fixed by the code and by what is asked: the types of which components are added are
//! the code's, with the values that their properties begin with, and the digests are those that a node with the secret
//! and the users wants of the first two sessions that it makes. So a record is one, which is a law here. The values are
//! read off new objects of an engine, whichever that is. What writes such a record into a file stands on this crate.
#![tactic(auto)]

mod class;
mod config;
mod laws;
mod making;
mod refusal;
mod types;

pub use laws::{digests_are_proofs, generated_records_of_codes_are_one};
pub use making::generated;
pub use refusal::RecordRefusal;
