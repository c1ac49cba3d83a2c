//! The files that a command reads beside its kits.
//!
//! `read_users` reads the users file, `read_secret` the node's secret, `read_record` the record of what reached a
//! node, and `read_code` an image, which is verified. Each reads one file and ends with its value, or with the refusal
//! of that file; `UsersRead`, `SecretRead`, `RecordRead` and `CodeRead` say which, as steps that a command puts
//! together. What the same reads give is one. The commands that run a node, replay a record or write one stand on this
//! crate.
#![tactic(auto)]

mod codes;
mod laws;
mod records;
mod refusal;
mod secrets;
mod texts;
mod users;

pub use codes::read_code;
pub use laws::{failed_inputs_are_told, inputs_agree};
pub use records::read_record;
pub use refusal::InputRefusal;
pub use secrets::read_secret;
pub use users::read_users;
