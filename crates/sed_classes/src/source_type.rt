//! What a type, an initial value and a broken rule come to.

use sed_value::{Prim, Value};

/// What a type in a source stands for.
#[derive(Clone, Copy, Debug, PartialEq, Eq)]
pub enum SourceType {
    Void,
    Prim(Prim),
    /// `Str`, a reference to one of any size.
    Text,
    /// `Str(n)`, n from 1 to 255.
    SizedText(u8),
    /// `Buf(n)`, n from 1 to 128.
    Buf(u8),
    /// So many primitives, 1 to 65,535.
    Array(Prim, u16),
    /// The class at this place among all classes.
    Object(usize),
    /// A name that has no class. No rule but that on names speaks of it.
    Unknown,
    /// A form that no member, parameter or local has.
    Outside,
}

/// What an initial value comes to.
#[derive(Clone, Copy)]
pub enum Constant {
    /// An int, a long or a bool.
    Number(Value),
    /// `null`, which its place makes a bool.
    Null,
    /// A text literal of so many characters.
    Text(usize),
    /// Neither a literal nor a define.
    Nothing,
    /// A literal above its bound, or a define that has itself no value: no rule on values speaks of it.
    Unknown,
}

/// A broken rule, by its number, with the number of the kit, that of the text in the kit, and the byte place in the
/// text.
#[derive(Clone, Copy, Debug, PartialEq, Eq)]
pub struct PlacedFault {
    pub kit: usize,
    pub text: usize,
    pub at: usize,
    pub rule: u8,
}
