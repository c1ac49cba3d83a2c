//! The walker of typed programs.
//!
//! It walks the tree of a program: one function for each form of expression, link, place and
//! statement, and each ends exactly as the language's meaning in sed_engine does, whatever the tree,
//! in the same state. A reference is the number of a place, and a virtual call is looked up in a table.
//! A frame is an array on the native stack, so no call takes memory; the stack grows by at most 32 frames, and
//! in each by the height of a body's tree.
#![tactic(auto)]

mod array;
pub mod bodies;
pub mod calls;
pub mod ends;
pub mod expressions;
pub mod links;
pub mod loops;
pub mod root;
pub mod site;
pub mod statements;

pub use ends::{Flow, Round};
pub use site::Site;
