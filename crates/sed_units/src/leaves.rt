// The smallest parts of a unit: names, literals, types, facets, modifiers, parameters and initial values.

use sed_value::{Items, Prim};

/// An identifier: the place of its first byte in the text, and its bytes. It may be of any length.
#[derive(Drop)]
pub struct Ident {
    pub at: usize,
    pub bytes: Items<u8>,
}

/// What a literal is.
#[derive(Clone, Copy, Debug, PartialEq, Eq)]
pub enum LiteralKind {
    Integer,
    Character,
    Text,
    True,
    False,
    Null,
}

/// A literal, with its bytes as they stand in the text.
#[derive(Drop)]
pub struct Literal {
    pub at: usize,
    pub kind: LiteralKind,
    pub bytes: Items<u8>,
}

/// `ID`, or `KIT::ID`.
#[derive(Drop)]
pub struct TypeName {
    pub at: usize,
    pub kit: Option<Ident>,
    pub id: Ident,
}

/// What a type is without its size.
#[derive(Drop)]
pub enum Base {
    Primitive(Prim),
    Void,
    Named(TypeName),
}

/// `(N)` or `[N]` behind a type, with the integer.
#[derive(Drop)]
pub enum Size {
    Parens(Literal),
    Brackets(Literal),
}

/// A type as it stands in the text.
#[derive(Drop)]
pub struct TypeRef {
    pub at: usize,
    pub base: Base,
    pub size: Option<Size>,
}

/// `@ID`, or `@ID = VALUE`.
#[derive(Drop)]
pub struct Facet {
    pub at: usize,
    pub name: Ident,
    pub value: Option<Literal>,
}

/// The word of a modifier.
#[derive(Clone, Copy, Debug, PartialEq, Eq)]
pub enum ModifierWord {
    Public,
    Private,
    Protected,
    Internal,
    Abstract,
    Final,
    Static,
    Virtual,
    Override,
    Inline,
    Define,
    Property,
    Action,
}

/// A modifier of a class or a member.
#[derive(Clone, Copy, Debug, PartialEq, Eq)]
pub struct Modifier {
    pub at: usize,
    pub word: ModifierWord,
}

/// A parameter of a method.
#[derive(Drop)]
pub struct Param {
    pub at: usize,
    pub kind: TypeRef,
    pub name: Ident,
}

/// What a member begins as.
#[derive(Drop)]
pub enum InitValue {
    Literal(Literal),
    /// `-` before a literal.
    Minus(Literal),
    Name(Ident),
}

/// An initial value of a member.
#[derive(Drop)]
pub struct Init {
    pub at: usize,
    pub value: InitValue,
}
