//! What a body stands in, and what its names and calls lead to.

use sed_typed::{Kind, TypeNo};

/// What a body stands in: its class, and whether its method is static, so that it has no receiver.
#[derive(Clone, Copy)]
pub struct Body {
    pub class: TypeNo,
    pub is_static: bool,
}

/// A method that a call has found.
#[derive(Clone, Copy)]
pub struct Callee {
    pub number: u16,
    pub is_static: bool,
    pub is_abstract: bool,
    /// None where it is declared with a fault.
    pub result: Option<Kind>,
}

/// What a member or a method behind a value is sought in.
#[derive(Clone, Copy)]
pub enum Owner {
    /// The class of an object.
    Object(TypeNo),
    Text,
    Buf,
    /// There is nothing to seek in.
    Nothing,
}

/// What stands before a `.`: a value, the name of a class, or `Sys`, behind which the system's calls stand.
#[derive(Clone, Copy)]
pub enum Before {
    Value,
    Class(TypeNo),
    System,
}
