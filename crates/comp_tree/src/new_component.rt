//! What is asked for a new component.
use sed_value::Id;

/// A component that is asked for: of the type with this number in this kit, named so, as the last child of a parent.
/// Its config properties get the values that are given, in the order of the slots.
#[derive(Clone, Copy)]
pub struct NewComponent<'a> {
    /// The component that it is a child of.
    pub parent: Id,
    /// The number of the kit.
    pub kit: u8,
    /// The number of the type in it.
    pub number: u8,
    /// Its name.
    pub name: &'a [u8],
    /// The bytes of its config properties' values.
    pub config: &'a [u8],
}
