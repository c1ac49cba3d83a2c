//! The values of the language, the names that its texts and applications use, and its arithmetic.
//!
//! This is the bottom crate: it knows no file, message or machine, and nothing here but `zeros` takes memory.
//! Each operation's contract is its definition on whole numbers, and each reader of a name accepts
//! exactly the names of its form. Every other crate of the repository stands on this one.
#![tactic(auto)]

mod characters;
mod conversion;
mod decimal;
mod halt;
mod id;
mod in_place;
mod int;
mod items;
mod kit;
pub mod limits;
mod long;
mod memory;
mod name;
mod refusal;
mod shown;
mod slices;
mod slot_buf;
mod slot_type;
mod value;
mod word;
mod wrap;

pub use characters::{is_digit, is_letter, is_word_byte};
pub use conversion::{int_to_byte, int_to_long, int_to_short, long_to_int, low_byte, low_short};
pub use decimal::read_decimal;
pub use halt::Halt;
pub use id::Id;
pub use in_place::InPlace;
pub use int::{add_int, div_int, mul_int, rem_int, shl_int, shr_int, sub_int};
pub use items::Items;
pub use kit::{KitName, KitRef, LONGEST_KIT_NAME};
pub use long::{add_long, div_long, mul_long, rem_long, shl_long, shr_long, sub_long};
pub use memory::Memory;
pub use name::{LONGEST_NAME, Name};
pub use refusal::{Refusal, refusals_are_numbered};
pub use slices::{front_of, is_among, put_at, zeros};
pub use slot_buf::SlotBuf;
// The prover has a module `Prim` of its own, so specifications know the type as `Primitive`.
pub use slot_type::{Primitive as Prim, SlotType};
pub use value::{Bytes, LONGEST_BUFFER, Value};
pub use word::{LONGEST_WORD, Word};
pub use wrap::{low_bits_are_exact, wrap_is_exact};
