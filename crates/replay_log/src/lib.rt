//! Records of what reached a node: datagrams with their senders, and ticks.
//!
//! A record is its entries and an end mark, after which nothing stands. `Records::open` takes the bytes of a record and
//! refuses, with the place, whatever is none; `Records::next` gives the entries in their order. The laws say that bytes
//! are the record of one list of entries at most, and are refused at one place at most, and only where they are none.
//! Reading takes no memory. `generate_record` writes the record of two sessions that build and edit an application, as
//! a specification has it. What replays a record stands on this crate.
#![tactic(auto)]

mod asked;
mod body;
pub mod bounds;
mod event;
mod gen_spec;
mod generate;
mod laws;
mod making;
mod places;
mod reading;
mod records;
mod session;
mod steps;

pub use asked::GenAsked;
pub use event::Event;
pub use gen_spec::{GenSpec, GenType};
pub use generate::generate_record;
pub use laws::{generated_records_are_one, records_are_one, refusals_are_one};
pub use records::{NotARecord, Records};
