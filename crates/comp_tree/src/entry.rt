//! What is told of a component.

use sed_engine::Place;
use sed_typed::TypeNo;
use sed_value::{Id, Name};

/// A component, as `Tree::find` tells of it: its class, its name, its parent, which the App alone
/// has not, the number of its children, its fault, 0 where it has none, and where the engine keeps
/// its values.
#[derive(Clone, Copy, Debug, PartialEq, Eq)]
pub struct Entry {
    pub kind: TypeNo,
    pub name: Name,
    pub parent: Option<Id>,
    pub children: u8,
    pub fault: u8,
    pub place: Place,
}
