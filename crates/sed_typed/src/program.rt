//! Programs.

use crate::kind::Kind;
use crate::number::{SlotNo, TypeNo};
use crate::schema::Schema;
use crate::statement::Stmt;
use crate::text::Bytes255;
use sed_value::{Items, Prim, Value, Word};

/// What a field holds.
#[derive(Clone, Copy, Debug, PartialEq, Eq)]
pub enum FieldForm {
    Prim(Prim),
    /// A Str of so many bytes, the ending 0 among them.
    Str(u8),
    /// A Buf of so many bytes at most.
    Buf(u8),
    /// So many elements.
    Array(Prim, u16),
    /// An inline object.
    Object(TypeNo),
}

/// A field that a class declares: an instance field or a static.
///
/// `slot` is none for a field that is no property. `initial` is `Nothing` for a Str, which begins
/// empty, an array, which begins with zeros, and an object, which begins with the initial values of
/// its own fields.
#[derive(Clone, Copy)]
pub struct Field {
    pub class: TypeNo,
    pub name: Word,
    pub form: FieldForm,
    pub slot: Option<SlotNo>,
    pub initial: Value,
}

/// A method that a class declares. An abstract one has no body. Virtual are those that are
/// declared virtual or abstract, actions, and those that override one.
#[derive(Drop)]
pub struct Method {
    pub class: TypeNo,
    pub name: Word,
    pub is_static: bool,
    pub is_virtual: bool,
    pub params: Items<Kind>,
    pub result: Kind,
    pub body: Option<Stmt>,
}

/// A program. `fields` are the instance fields that each class declares, by class and then in
/// their order.
#[derive(Drop)]
pub struct Program {
    pub schema: Schema,
    pub methods: Items<Method>,
    pub fields: Items<Field>,
    pub statics: Items<Field>,
    pub texts: Items<Bytes255>,
}
