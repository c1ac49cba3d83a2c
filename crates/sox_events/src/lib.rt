//! What a session is told without asking.
//!
//! `Subs` keeps who has subscribed which parts of which components, and the bytes of the last event that was posted
//! of each. A part is due where no event of it was posted yet, or where it is marked as such that may have changed
//! and its bytes differ from those of the last event; `Subs::next_event` gives the first that is. `laws` says that the
//! marks go on to agree with the subscriptions through every call of an application and of `Subs`, that where they
//! agree, what is due is what differs, and that no part without a mark is counted as compared. All memory is taken by
//! `Subs::new`, by the schema. The definitions of a node (node_events) stand on it.
#![tactic(auto)]

pub mod laws;
mod next;
mod subs;

pub use subs::Subs;
