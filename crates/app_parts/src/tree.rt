//! Part `t`: a component's class, name, parent and children.
ghost use Rattle.std.specs.Prelude.{◌≡◌, ◌≤◌, ◌*◌, length};
ghost use Rattle.std.specs.List.{flat_map};
ghost use Rattle.sed_wire.specs.Writing.{Appends, room};
ghost use Rattle.comp_tree.specs.Application.{children_of, most_children};
ghost use Rattle.comp_tree.specs.Held.{components_of};
ghost use Rattle.comp_tree.specs.Parts.{u2};
ghost use Rattle.app_parts.specs.Told.{tree_bytes};

use crate::put::{put_class, put_id, put_text};
use comp_tree::{Entry, Tree};
use sed_engine::Engine;
use sed_value::Id;
use sed_value::limits::LONGEST_PART;
use sed_wire::Writer;

/// Puts the class, the name, the parent, the permissions, which are always all, and the children of a component: at
/// most `LONGEST_PART` bytes.
pub fn put_tree_part<E: Engine>(writer: &mut Writer, tree: &Tree<E>, id: Id, entry: &Entry)
    requires children { entry.now.children ≡ length (children_of (components_of E.Engine tree.now).by_id id.0) }
    requires few { entry.now.children ≤ most_children }
    requires room { LONGEST_PART ≤ room writer.old }
    ensures bytes { Appends writer.old writer.new
        (tree_bytes (E.meaning tree.now.engine) (components_of E.Engine tree.now).by_id id.0 entry.now) }
    ensures short { length (tree_bytes (E.meaning tree.now.engine) (components_of E.Engine tree.now).by_id
        id.0 entry.now) ≤ LONGEST_PART }
{
    put_class(writer, tree.schema(), entry.kind);
    put_text(writer, entry.name.as_bytes());
    put_id(writer, entry.parent);
    writer.put_u1(255);
    writer.put_u1(entry.children);
    put_children(writer, tree, id, entry.children);
}

// Puts the children of a component, of which there are so many.
fn put_children<E: Engine>(writer: &mut Writer, tree: &Tree<E>, id: Id, count: u8)
    requires count { count ≡ length (children_of (components_of E.Engine tree.now).by_id id.0) }
    requires room { 2 * count ≤ room writer.old }
    ensures { Appends writer.old writer.new (flat_map u2 (children_of (components_of E.Engine tree.now).by_id id.0)) }
{
    for n in 0..count {
        match tree.child(id, n) {
            Some(child) => writer.put_u2(child.0),
            None => unreachable!(),
        }
    }
}
