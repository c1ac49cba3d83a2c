//! What is written of a component, and the kits of a schema, in bytes.
//!
//! Messages, events and the application file write the same bytes of a component: its class, its name, its values, its
//! links. Each call here puts one of them behind what a writer has written; `write_part` puts a whole part, and
//! `write_schema` the kits; `longest_part` says how long a part may be under a schema, so that each fits a message, as
//! a law says. What they write is exactly what the definitions of the tree's crate say. Nothing here takes memory.
//! Served requests (sox_serve), events (sox_events) and the writing of the application file (app_writer) stand on it.
#![tactic(auto)]

mod kits;
mod laws;
mod links;
mod longest;
mod part;
mod put;
mod tree;
mod values;

pub use kits::{put_kits, write_schema};
pub use laws::parts_fit_a_message;
pub use links::put_link;
pub use longest::longest_part;
pub use part::write_part;
pub use put::{put_class, put_id, put_text, put_value, write_value};
pub use values::{Values, put_values};
