//! Numbers of classes and slots.

/// The number of a class: its place in the schema's list of classes.
#[derive(Clone, Copy, Debug, PartialEq, Eq)]
pub struct TypeNo(pub u16);

/// The number of a slot of a class, inherited slots first.
#[derive(Clone, Copy, Debug, PartialEq, Eq)]
pub struct SlotNo(pub u8);
