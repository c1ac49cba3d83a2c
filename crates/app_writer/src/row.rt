//! What a file has of a component.
ghost use Rattle.std.specs.Prelude.{◌≡◌, ◌≤◌, IsSomeAnd, length};
ghost use Rattle.std.specs.FinMap as map;
ghost use Rattle.comp_tree.specs.Held.{components_of};
ghost use Rattle.comp_tree.specs.Told.{IsEntry};
ghost use Rattle.sed_wire.specs.Writing.{Appends, room};
ghost use Rattle.sox_msg.specs.Reply.{Puts};
ghost use Rattle.app_writer.specs.Written.{found_text, head_text, ids_text, row_at};

use crate::ids::sibling_of;
use app_parts::{Values, put_class, put_id, put_text, put_values};
use comp_tree::{Entry, Tree};
use sed_engine::Engine;
use sed_value::Id;
use sed_wire::Writer;

/// Puts what a file has of the component with an id in front of `into`, and says how many bytes these are; what stood
/// behind them stays. Of an id that is not live it has nothing.
pub fn write_row<E: Engine>(tree: &Tree<E>, id: Id, into: &mut [u8; 443]) -> usize
    ensures { Puts (row_at (E.meaning tree.now.engine) (components_of E.Engine tree.now).by_id id.0)
        result into.old into.new }
{
    let mut writer = Writer::new(into);
    put_row(&mut writer, tree, id);
    writer.done()
}

// Puts what a file has of the component with an id.
fn put_row<E: Engine>(writer: &mut Writer, tree: &Tree<E>, id: Id)
    requires { 443 ≤ room writer.old }
    ensures { Appends writer.old writer.new
        (row_at (E.meaning tree.now.engine) (components_of E.Engine tree.now).by_id id.0) }
{
    if let Some(entry) = tree.find(id) {
        put_entry(writer, tree, id, &entry);
    }
}

// Puts what a file has of a component of which this is told.
fn put_entry<E: Engine>(writer: &mut Writer, tree: &Tree<E>, id: Id, entry: &Entry)
    requires told { IsSomeAnd (map.get (components_of E.Engine tree.now).by_id id.0)
        (IsEntry (E.live tree.now.engine) entry.now) }
    requires room { 443 ≤ room writer.old }
    ensures { Appends writer.old writer.new
        (row_at (E.meaning tree.now.engine) (components_of E.Engine tree.now).by_id id.0) }
{
    let first_child = tree.child(id, 0);
    let next_sibling = sibling_of(tree, id, entry.parent);
    put_found(writer, tree, id, entry, first_child, next_sibling);
}

// Puts what is found of a component: its id, class and name, its parent, first child and next sibling, its config
// values, and `;`.
fn put_found<E: Engine>(
    writer: &mut Writer,
    tree: &Tree<E>,
    id: Id,
    entry: &Entry,
    first_child: Option<Id>,
    next_sibling: Option<Id>,
)
    requires class { IsSomeAnd (map.get (components_of E.Engine tree.now).by_id id.0)
        (λ c. c.class ≡ entry.now.kind.0) }
    requires room { 443 ≤ room writer.old }
    ensures { Appends writer.old writer.new
        (found_text (E.meaning tree.now.engine) (components_of E.Engine tree.now).by_id
        id.0 entry.now first_child next_sibling) }
{
    put_head(writer, tree, id, entry);
    put_ids(writer, entry.parent, first_child, next_sibling);
    put_values(writer, tree, id, entry.kind, Values::Config);
    writer.put_u1(0x3b);
}

// Puts an id, a class and a name: at most 36 bytes.
fn put_head<E: Engine>(writer: &mut Writer, tree: &Tree<E>, id: Id, entry: &Entry)
    requires { 36 ≤ room writer.old }
    ensures bytes { Appends writer.old writer.new (head_text (E.meaning tree.now.engine) id.0 entry.now) }
    ensures short { length (head_text (E.meaning tree.now.engine) id.0 entry.now) ≤ 36 }
{
    writer.put_u2(id.0);
    put_class(writer, tree.schema(), entry.kind);
    put_text(writer, entry.name.as_bytes());
}

// Puts a parent, a first child and a next sibling, in two bytes each.
fn put_ids(
    writer: &mut Writer,
    parent: Option<Id>,
    first_child: Option<Id>,
    next_sibling: Option<Id>,
)
    requires { 6 ≤ room writer.old }
    ensures { Appends writer.old writer.new (ids_text parent first_child next_sibling) }
{
    put_id(writer, parent);
    put_id(writer, first_child);
    put_id(writer, next_sibling);
}
