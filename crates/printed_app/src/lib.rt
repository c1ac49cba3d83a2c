//! The printed form of values, components and applications, of a datagram that is sent, and of what a run came to.
//!
//! A component prints as a line `NAME=VALUE` for each of its properties and then, for the commands that show a
//! component alone, a line `fault=N`. `put_application` puts the components of an application, depth first, each with
//! its properties, and then its links into a sink. `datagram_line` gives the line of a datagram. `put_summary` puts the
//! counts of a run into a sink. None takes memory of its own, so that each may be printed while events are handled and
//! behind what the disk was told. What each comes to is one relation, `Puts` of specs/Puts, and each text is exactly
//! what its definition says. `Collected` is a sink for who wants the text in memory.
#![tactic(auto)]

mod application;
mod collected;
mod component;
mod datagram;
pub mod laws;
mod lines;
mod links;
mod path;
mod pieces;
mod properties;
mod summary;
mod values;

pub use application::put_application;
pub use collected::Collected;
pub use datagram::{DatagramLine, datagram_line};
pub use laws::paths_lead_down;
pub use lines::{put_fault_line, put_property_line};
pub use pieces::{put_bytes, put_number, put_word};
pub use summary::{Summary, put_summary};
pub use values::put_value;
