//! What an expression of a text comes to.

use sed_typed::Kind;
use sed_value::Prim;

/// What an expression of a text comes to: a value of a kind, or what only a place or a link behind it makes a value.
#[derive(Clone, Copy, Debug, PartialEq, Eq)]
pub enum Sort {
    Of(Kind),
    /// `null`, whose kind its place gives.
    Nothing,
    /// An array of these.
    Array(Prim),
    Buf,
    /// `bytes` of a Buf.
    Bytes,
}
