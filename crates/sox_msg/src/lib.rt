//! Requests, replies and events of the Sox protocol in bytes.
//!
//! A datagram message of a session carries one of them. `read_request` gives the request that a payload is, and
//! refuses exactly where it is none, with why; `write_reply` and `write_event` give the one text of a reply and of an
//! event, and `write_refusal` that of a refusal whose cause stands above. The laws say that a payload is one request
//! and a text one reply or event at most, that a request has one payload, and that each text whose parts keep the
//! platform's limits fits a message. Nothing here takes memory.
#![tactic(auto)]

mod command;
mod event;
mod forms;
mod laws;
mod reading;
mod reply;
mod text;
mod writing;

pub use command::{Command, Request};
pub use event::Event;
pub use laws::{payloads_are_one_request, texts_are_one_answer, texts_fit_a_message};
pub use reading::{number_of, read_request};
pub use reply::{Reply, ReplyBody};
pub use writing::{write_event, write_refusal, write_reply};
