//! Components as a file tells of them.

use sed_typed::TypeNo;
use sed_value::{Id, Items, Name, Value};
use sub_table::LinkRec;

/// A component as a file tells of it: its id, its class, its name, its parent, its first child and the sibling behind
/// it, where there is one, and the values of its config properties in the order of the slots.
#[derive(Drop)]
pub struct FileRow {
    pub id: Id,
    pub kind: TypeNo,
    pub name: Name,
    pub parent: Option<Id>,
    pub first_child: Option<Id>,
    pub next_sibling: Option<Id>,
    pub config: Items<Value>,
}

/// What bytes tell behind a front with the kits of a code: the version in the front, the greatest id as it stands
/// there, the components and the links, each in the order of the file. Whether they are an application's isn't said.
#[derive(Drop)]
pub struct FileRows {
    pub version: u32,
    pub greatest: u16,
    pub rows: Items<FileRow>,
    pub links: Items<LinkRec>,
}
