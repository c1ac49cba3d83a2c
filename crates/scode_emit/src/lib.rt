//! Code as functions of trees, and as a program that finds it.
//!
//! A method of a typed program has its instructions by the definition `code_of`, which recurses over the method's tree
//! as the language's meaning does. Sizes come first, so each jump's place is a number where the jump stands, however
//! long the method is; by a law the code of any tree has as many bytes as its size says. `code_of_body` gives the
//! instructions of a method whose size is at most 65,535, and nothing else; `bytes_of` encodes them. The entries and
//! the stack that stand beside the code are in `scode_entries`.
#![tactic(auto)]

mod bodies;
mod bytes;
mod expressions;
mod instructions;
mod kinds;
mod laws;
mod parts;
mod put;
mod site;
mod sizes;
mod statements;
mod storage;

pub use bodies::code_of_body;
pub use bytes::bytes_of;
pub use instructions::pop_size;
pub use kinds::{kind_of, link_kind, place_kind};
pub use laws::{
    code_has_its_size, instructions_stand_where_they_start, small_methods_are_not_too_long,
};
pub use site::Site;
pub use sizes::{
    TOO_LONG, body_size, expr_size, last_size, link_size, over_size, place_size, stmt_size,
    test_size, tests_size,
};
pub use storage::{Storage, before_size, fetch_size, storage_of};
