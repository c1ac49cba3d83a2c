//! A part of a component.
ghost use Rattle.std.specs.Prelude.{◌≡◌, ◌≤◌, IsSomeAnd, length};
ghost use Rattle.std.specs.FinMap as map;
ghost use Rattle.sed_wire.specs.Writing.{Appends, room};
ghost use Rattle.comp_tree.specs.Edit.{part_bytes};
ghost use Rattle.comp_tree.specs.Held.{components_of};
ghost use Rattle.comp_tree.specs.Told.{IsEntry};
ghost use Rattle.comp_tree.specs.Application.{most_children};
ghost use Rattle.link_prop.specs.Linked.{application_of};
ghost use Rattle.sox_msg.specs.Reply.{Puts};
ghost use Rattle.app_parts.specs.Longest.{longest_part};

use crate::links::put_link_part;
use crate::tree::put_tree_part;
use crate::values::{Values, put_values};
use comp_tree::Entry;
use link_prop::App;
use sed_engine::Engine;
use sed_value::Id;
use sed_value::limits::LONGEST_PART;
use sed_wire::Writer;

/// Puts the part of a component that a letter names in front of `into`, and says how many bytes it has, no more than
/// any component of the code's schema may have; what stood behind it stays. The letters are `t`, `c`, `r`, `l` and `f`.
/// For any other letter, and of an id that is not live, there is nothing to put.
pub fn write_part<E: Engine>(app: &App<E>, id: Id, part: u8, into: &mut [u8; LONGEST_PART]) -> usize
    ensures bytes { Puts (part_bytes (E.meaning app.now.tree.engine) (application_of E.Engine app.now) id.0 part)
        result into.old into.new }
    ensures short { result ≤ longest_part (E.meaning app.now.tree.engine).schema part }
{
    let mut writer = Writer::new(into);
    put_part(&mut writer, app, id, part);
    writer.done()
}

// Puts the part of a component that a letter names.
fn put_part<E: Engine>(writer: &mut Writer, app: &App<E>, id: Id, part: u8)
    requires { LONGEST_PART ≤ room writer.old }
    ensures bytes { Appends writer.old writer.new
        (part_bytes (E.meaning app.now.tree.engine) (application_of E.Engine app.now) id.0 part) }
    ensures short { length (part_bytes (E.meaning app.now.tree.engine) (application_of E.Engine app.now) id.0 part)
        ≤ longest_part (E.meaning app.now.tree.engine).schema part }
{
    if let Some(entry) = app.tree().find(id) {
        put_part_told(writer, app, id, &entry, part);
    }
}

// Puts the part of a component of which this is told.
fn put_part_told<E: Engine>(writer: &mut Writer, app: &App<E>, id: Id, entry: &Entry, part: u8)
    requires told { IsSomeAnd (map.get (components_of E.Engine app.now.tree).by_id id.0)
        (IsEntry (E.live app.now.tree.engine) entry.now) }
    requires few { entry.now.children ≤ most_children }
    requires room { LONGEST_PART ≤ room writer.old }
    ensures bytes { Appends writer.old writer.new
        (part_bytes (E.meaning app.now.tree.engine) (application_of E.Engine app.now) id.0 part) }
    ensures short { length (part_bytes (E.meaning app.now.tree.engine) (application_of E.Engine app.now) id.0 part)
        ≤ longest_part (E.meaning app.now.tree.engine).schema part }
{
    match part {
        b't' => put_tree_part(writer, app.tree(), id, entry),
        b'c' => put_values(writer, app.tree(), id, entry.kind, Values::Config),
        b'r' => put_values(writer, app.tree(), id, entry.kind, Values::Runtime),
        b'l' => put_link_part(writer, app, id),
        b'f' => writer.put_u1(entry.fault),
        _ => {}
    }
}
