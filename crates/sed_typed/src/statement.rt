//! Statements.

use crate::kind::Kind;
use crate::tree::Expr;

/// A label of a `switch`.
#[derive(Clone, Copy, Debug, PartialEq, Eq)]
pub enum Label {
    Case(i32),
    Default,
}

/// A statement. An absent branch, or an absent first part of a `for`, is `Empty`.
#[derive(Drop)]
pub enum Stmt {
    Empty,
    Do(Expr),
    /// A local with its number in the frame and its initial value; without one it begins as 0, false
    /// or null.
    Local(Kind, u8, Option<Expr>),
    Block(Vec<Stmt>),
    If(Expr, Box<Stmt>, Box<Stmt>),
    While(Expr, Box<Stmt>),
    DoWhile(Box<Stmt>, Expr),
    /// First part, condition, last part, body. A missing condition is true.
    For(Box<Stmt>, Option<Expr>, Option<Expr>, Box<Stmt>),
    /// Each label with the block of statements behind it.
    Switch(Expr, Vec<Label>, Vec<Stmt>),
    Break,
    Continue,
    Return(Option<Expr>),
}
