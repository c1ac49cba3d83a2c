//! Units of the language, as trees: classes, members, statements and expressions, and the words and marks that name
//! their leaves.
//!
//! The trees hold what a text says and where, and nothing of what it means. `specs/` sees each as a tree of labels,
//! which the grammar and the checker speak of alike, and has the tables of words and operators.
#![tactic(auto)]

mod classes;
mod expressions;
mod label;
mod leaves;
mod operators;
mod statements;
mod words;

pub use classes::{Class, Member, MemberForm, Unit};
pub use expressions::{Expr, Link, Node, Step};
pub use label::Label;
pub use leaves::{
    Base, Facet, Ident, Init, InitValue, Literal, LiteralKind, Modifier, ModifierWord, Param, Size,
    TypeName, TypeRef,
};
pub use operators::{AssignOp, BinaryOp, PrefixOp, UpdateOp};
pub use statements::{Case, ForFirst, ForHead, Form, Local, Stmt};
pub use words::{OfToken, leads_on};
