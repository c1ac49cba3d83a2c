//! A component to be loaded.

use sed_typed::TypeNo;
use sed_value::{Id, Items, Name, Value};

/// A component as it is loaded: its id, its class, its name, its parent, which the App alone has
/// not, its children in their order, and its config values in the order of the slots.
#[derive(Drop)]
pub struct Loaded {
    pub id: Id,
    pub kind: TypeNo,
    pub name: Name,
    pub parent: Option<Id>,
    pub children: Items<Id>,
    pub config: Items<Value>,
}
