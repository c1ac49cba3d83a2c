//! Arrays of primitives, in fields and in statics.
use sed_value::Prim;

/// An array: its elements' type, how many they are, and the number of the field or static that it is.
#[derive(Clone, Copy)]
pub(crate) struct Array {
    pub(crate) prim: Prim,
    pub(crate) count: u16,
    pub(crate) number: u16,
}
