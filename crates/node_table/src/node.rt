//! What the tree keeps of a component.

use crate::children::Children;
use crate::marks::Marks;
use sed_engine::Place;
use sed_typed::TypeNo;
use sed_value::{Id, Name};

/// A component, but for its values, which the engine keeps at the place; and which of its parts may
/// have changed.
#[derive(Drop)]
pub struct Node {
    pub kind: TypeNo,
    pub name: Name,
    pub parent: Option<Id>,
    pub children: Children,
    pub fault: u8,
    pub place: Place,
    pub marks: Marks,
}
