//! Typed trees in the making, and what is found of a part of a text.
//!
//! Contracts see a typed tree as a `Term`: its nodes without their places in memory, and what follows an operand around
//! it. A typed term gives a typed tree: that is the contract of `typed_terms_give_typed_trees`. A term has at most one
//! flat tree: `terms_have_one_tree`. `Found` is a typed expression in the making and `FoundStmt` a typed statement;
//! each of their functions makes one form, and its contract is one equation.
//!
//! What is found of a part of a text is `Judged`: sound, or unknown because of faults. The rules of the check are
//! written once with the words of `specs/Faults` and read twice, with all faults and with the least;
//! `rules_keep_the_least` says that both find the same.
#![tactic(auto)]

pub mod arguments;
pub mod boxes;
pub mod found;
mod found_stmt;
pub mod judged;
mod kinds;
pub mod laws;
mod links;
pub mod open;
pub mod sign;
pub mod sort;

pub use arguments::Arguments;
pub use found::Found;
pub use found_stmt::{FoundCases, FoundStmt, FoundStmts};
pub use judged::{Judged, broken, paired};
pub use laws::{
    rules_keep_the_least, terms_have_one_tree, trees_nest_as_their_terms,
    typed_terms_give_typed_trees, typed_trees_have_typed_terms,
};
pub use sign::Sign;
pub use sort::Sort;
