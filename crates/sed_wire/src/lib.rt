//! Values as bytes, both ways.
//!
//! All that goes over the network, into a store or into an image is spelled by this crate: numbers with the highest
//! byte first, texts that end with a 0, and the values of slots. A `Reader` gives what the front of its bytes spells,
//! and keeps the bytes behind it; a `Writer` puts spellings into a slice that it is lent. The definitions say which
//! bytes spell what. The laws say that nothing is spelled in two ways and that no spelling is the front of another, so
//! what was written is read again whatever follows. Nothing here takes memory.
//!
//! A form of bytes says which bytes spell a thing and at which field bytes fault it, with a reading from left to right
//! that finds just what is spelled; grammars are put together of forms. `fields` reads those that they are made of, and
//! `Halt` says why such a reading stops.
#![tactic(auto)]

mod conditions;
mod fault;
pub mod fields;
mod laws;
mod number;
mod reader;
mod writer;

pub use conditions::{can_be_held, has_spelling, is_text};
pub use fault::{Full, Short, StrFault, ValueFault};
pub use laws::{
    appends_add_up, numbers_are_read_one_way, signed_numbers_are_read_one_way,
    texts_are_read_one_way, values_are_read_one_way,
};
pub use reader::Reader;
pub use sed_value::Halt;
pub use writer::Writer;
