//! The tokens of a source text.
//!
//! A text is cut, from its start on, into the longest pieces that begin there: tokens, and what lies between them.
//! `lex` gives the tokens of a text exactly where it has any, and else the place where nothing begins. The parser
//! stands on it.
#![tactic(auto)]

mod fronts;
mod gaps;
mod integers;
mod kind;
mod laws;
mod lexing;
mod numbers;
mod piece;
mod spellings;
mod tokens;
mod words;

pub use kind::TokenKind;
pub use laws::{
    fault_is_one, no_tokens_where_it_faults, tokens_are_in_order, tokens_are_one, tokens_are_pieces,
};
pub use lexing::{LexRefusal, lex};
pub use numbers::{Number, integer_value};
pub use spellings::{character_value, text_value};
pub use tokens::Tokens;
