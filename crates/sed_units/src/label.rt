// What a node of a tree is.

use crate::leaves::{Ident, Literal, TypeRef};
use crate::operators::{AssignOp, BinaryOp, PrefixOp, UpdateOp};
use sed_value::Prim;

/// What a node of an expression or a statement is, as contracts see it: its form, with what stands in the node itself.
/// Each `usize` is the place of its first byte.
#[derive(Drop)]
pub enum Label {
    /// An item of a row, with the items behind it.
    More,
    Literal(Literal),
    This(usize),
    Super(usize, Ident),
    Name(Ident),
    Of(Ident, Ident),
    Call(Ident),
    Paren(usize),
    Prefix(usize, PrefixOp),
    Cast(usize, Prim),
    Chain(usize),
    Update(usize, UpdateOp),
    Conditional(usize),
    Assign(usize, AssignOp),
    /// Two parts that one node has beside another one.
    Both,
    Member(usize, Ident),
    Method(usize, Ident),
    Index(usize),
    Operand(usize, BinaryOp),
    Block(usize),
    Empty(usize),
    If(usize),
    While(usize),
    Do(usize),
    For(usize),
    Switch(usize),
    Case(usize),
    Default(usize),
    Break(usize),
    Continue(usize),
    Return(usize),
    Local(usize, TypeRef, Ident),
    Evaluate(usize),
}
