//! An expression whose last access is held back.

use sed_typed::{Expr, Kind};
use sed_value::Prim;

/// An expression whose last access is not yet put behind it, so that it may become a place or be indexed.
#[derive(Drop)]
pub enum Open {
    Value(Box<Expr>),
    /// `null`, whose kind its place gives.
    Nothing,
    Local(Kind, u8),
    Static(Prim, u16),
    /// An element of a static array: elements, their number, the static, and the index.
    StaticElement(Prim, u16, u16, Box<Expr>),
    Field(Prim, Box<Expr>, u16),
    /// An element of an object's array: elements, their number, the object, the field, and the index.
    Element(Prim, u16, Box<Expr>, u16, Box<Expr>),
    /// An array of an object: elements, their number, the object, and the field.
    Array(Prim, u16, Box<Expr>, u16),
    StaticArray(Prim, u16, u16),
    /// A Buf of an object.
    Buf(Box<Expr>, u16),
    /// `bytes` of a Buf of an object.
    Bytes(Box<Expr>, u16),
}
