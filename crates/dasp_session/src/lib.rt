//! Sessions of clients: who is there, what each message does, and what is sent to whom.
//!
//! `Sessions` has sixteen places. A hello makes a session in one, an authenticate opens it for a user, and from then on
//! its datagram messages are taken once each, acknowledged, and answered by what is posted, which is sent until it is
//! acknowledged. The meaning of the sessions is a list of them with all that was ever taken and posted (`State` in
//! specs/Session); each call is one step of that meaning (specs/Receive), and puts the texts of the step's messages
//! into an `Outbox`. A datagram that is no message, or is of no session, changes nothing.
//!
//! `Users::read` takes a users file exactly where it is one, and `Users::credential` gives the credential of a user. A
//! text is the users file of one list of users at most, as a law says. A session's `nonce`, a user's `credential` and
//! a client's `digest` are made of the node's secret, the user's password and the credential by SHA-1. Nothing but
//! `Users::read`, `Outbox::new` and `Sessions::new` takes memory. The node stands on this crate.
#![tactic(auto)]

mod handed;
mod hashes;
mod hearing;
mod laws;
mod letters;
mod line;
mod looking;
mod outbox;
mod place;
mod refusal;
mod sessions;
mod ticking;
mod user;
mod user_laws;
mod users;

pub use handed::Handed;
pub use hashes::{credential, digest, is_same_digest, nonce};
pub use laws::{
    ids_differ, letters_can_go, strangers_change_nothing, what_is_malformed_changes_nothing,
};
pub use outbox::{MOST_DATAGRAMS, Outbox};
pub use refusal::UsersRefusal;
pub use sessions::Sessions;
pub use user::User;
pub use user_laws::users_files_are_one;
pub use users::{MOST_USERS, Users};
