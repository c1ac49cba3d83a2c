//! What a node of a term is.

use sed_typed::{Binary, Kind, Label, TextCall, TypeNo, Unary, Update};
use sed_value::Prim;

/// What a node of a term is: its form, with what stands in the node itself. Its parts stand beside it.
#[derive(Clone, Copy)]
pub enum Sign {
    /// An item of a row, and the items behind it.
    More,
    /// Two parts that stand together.
    Pair,

    // expressions
    Int(i32),
    Long(i64),
    Bool(u8),
    /// `null` in a place of this kind.
    Null(Kind),
    Text(u16),
    This(TypeNo),
    Local(Kind, u8),
    Static(Prim, u16),
    StaticPart(Kind, u16),
    /// The index.
    StaticElement(Prim, u16, u16),
    Ticks,
    Unary(Unary),
    /// The test, and the pair of the branches.
    Choose,
    /// The target as it is read, and the value.
    Set,
    /// The target as it is read, and the operand.
    Update(Update),
    /// The arguments.
    Call(Kind, u16),
    /// The arguments.
    Super(Kind, u16),

    // what follows an operand: the operand, and what else the form has
    Binary(Binary),
    And,
    Or,
    Field(Prim, u16),
    Part(Kind, u16),
    Element(Prim, u16, u16),
    Size(u16),
    Byte(u16),
    Invoke(Kind, u16),
    TextCall(TextCall),
    After,

    // what an expression names that is no value
    /// `null`, before its place gives it a kind.
    Nothing,
    /// An array of an object: elements, their number, and the field.
    Array(Prim, u16, u16),
    StaticArray(Prim, u16, u16),
    /// A Buf of an object.
    Buf(u16),
    /// `bytes` of a Buf of an object.
    Bytes(u16),

    // statements
    Empty,
    Do,
    /// A local with its number, and its initial value.
    Begin(Kind, u8),
    Block,
    /// The condition, and the pair of the branches.
    If,
    While,
    DoWhile,
    /// The pair of the first part and the pair of condition and last part, and the body.
    For,
    /// The value, and its labels.
    Switch,
    /// The block behind a label, and the labels behind it.
    Label(Label),
    Break,
    Continue,
    Return,
}
