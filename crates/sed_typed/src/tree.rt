//! Expressions, with every name in them resolved.
//!
//! A method's frame has its receiver in local 0, where it is not static, then its parameters and
//! then its other locals in the order of their declarations. A field is named by its number among
//! the class's fields, inherited ones first; statics, methods and texts by their places in the
//! program's lists.

use crate::kind::Kind;
use crate::number::TypeNo;
use crate::operators::{Binary, TextCall, Unary, Update};
use sed_value::Prim;

/// An expression.
///
/// What follows an operand one after another (`a + b - c`, `a.f.g(x)[i]`) is a chain, so that a long
/// one makes no tree high, and is evaluated and dropped by a loop. Arrays and Bufs are no values: a
/// form that reads or stores an element, or reads a Buf, carries the object and names the field.
#[derive(Drop)]
#[cycle(tree)]
pub enum Expr {
    /// An int: a literal, a character or a define.
    Int(i32),
    Long(i64),
    /// 0 false, 1 true, 2 null.
    Bool(u8),
    /// No reference, of the kind that its place wants.
    Null(Kind),
    /// The text literal of this number.
    Text(u16),
    /// The receiver, as an object of the class in which it is written.
    This(TypeNo),
    Local(Kind, u8),
    /// A primitive static field.
    Static(Prim, u16),
    /// A static inline object or Str.
    StaticPart(Kind, u16),
    /// An element of a static array of so many primitives: the static, and the index.
    StaticElement(Prim, u16, u16, Box<Expr>),
    /// `Sys.ticks()`.
    Ticks,
    Unary(Unary, Box<Expr>),
    /// `? :`.
    Choose(Box<Expr>, Box<Expr>, Box<Expr>),
    /// `=`.
    Set(Place, Box<Expr>),
    /// `op=`, `++` and `--`.
    Update(Update, Place, Box<Expr>),
    /// A call of a static method.
    Call(Kind, u16, Vec<Expr>),
    /// `super.m(..)`, of the method that is nearest above the class in which it is written.
    Super(Kind, u16, Vec<Expr>),
    /// An operand, and what is done with it, from left to right.
    Chain(Box<Expr>, Vec<Link>),
}

/// What is done with the value on its left.
#[derive(Drop)]
#[cycle(tree)]
pub enum Link {
    Binary(Binary, Expr),
    /// `&&`.
    And(Expr),
    /// `||`.
    Or(Expr),
    /// A primitive field of an object.
    Field(Prim, u16),
    /// An inline object or Str of an object.
    Part(Kind, u16),
    /// An element of an object's array of so many primitives: the field, and the index.
    Element(Prim, u16, u16, Expr),
    /// `size` of the Buf in this field of an object.
    Size(u16),
    /// `bytes[i]` of the Buf in this field of an object.
    Byte(u16, Expr),
    /// A call of the method of this name that is nearest at or above the object's class.
    Invoke(Kind, u16, Vec<Expr>),
    TextCall(TextCall, Vec<Expr>),
    /// A static member through an instance: the value on the left is not used.
    After(Expr),
}

/// What may be assigned to.
#[derive(Drop)]
#[cycle(tree)]
pub enum Place {
    Local(Kind, u8),
    Static(Prim, u16),
    Field(Prim, Box<Expr>, u16),
    /// An element of an object's array of so many primitives: the object, the field, and the index.
    Element(Prim, u16, Box<Expr>, u16, Box<Expr>),
    /// An element of a static array of so many primitives: the static, and the index.
    StaticElement(Prim, u16, u16, Box<Expr>),
}

#[cfg(test)]
mod tests {
    use super::*;
    use crate::operators::{Arithmetic, Width};
    use std::alloc::AllocError;

    // 1 + 1 + .. with 200,000 operands
    #[test]
    fn a_long_chain_is_dropped(rt: HostRuntime) -> Result<(), AllocError> {
        let alloc = rt.alloc();
        let mut links = Vec::new(alloc);
        for _ in 0..200_000 {
            links.push(Link::Binary(
                Binary::Arithmetic(Arithmetic::Add, Width::Int),
                Expr::Int(1),
            ))?;
        }
        let sum = Expr::Chain(Box::new(alloc, Expr::Int(1))?, links);
        if let Expr::Chain(_, links) = &sum {
            assert_eq!(rt; links.len(), 200_000);
        }
        Ok(())
    }
}
