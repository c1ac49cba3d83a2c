//! Members of classes, as a name finds them.

use sed_typed::FieldForm;

/// What a define stands for.
#[derive(Clone, Copy, Debug, PartialEq, Eq)]
pub enum Constant {
    /// 0 false, 1 true, 2 null.
    Bool(u8),
    /// A define of byte or short, too.
    Int(i32),
    Long(i64),
}

/// What a member's name stands for. What has no form or no value is declared with a fault.
#[derive(Clone, Copy, Debug, PartialEq, Eq)]
pub enum Member {
    /// A field of objects, with its number among the fields of its class, inherited ones first.
    Field(Option<FieldForm>, u16),
    /// A static field, with its number among the program's statics.
    Static(Option<FieldForm>, u16),
    Define(Option<Constant>),
    /// A method, which is no value.
    Method,
}
