//! Kinds of expressions.

use crate::number::TypeNo;

/// What an expression comes to.
///
/// These are the kinds of results, and all of them but `Void` are those of parameters and locals.
/// An array or a Buf is no value: what reads or stores an element names its field.
#[derive(Clone, Copy, Debug, PartialEq, Eq)]
pub enum Kind {
    Void,
    Bool,
    Int,
    Long,
    /// A Str or a text literal, or null.
    Text,
    /// An object of this class or one below it, or null.
    Object(TypeNo),
}
