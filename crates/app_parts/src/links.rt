//! Links in bytes.
ghost use Rattle.std.specs.Prelude.{◌≤◌, length};
ghost use Rattle.sed_wire.specs.Writing.{Appends, room};
ghost use Rattle.std.specs.List.{flat_map};
ghost use Rattle.comp_tree.specs.Parts.{link_bytes, link_part, links_at};

use link_prop::App;
use sed_engine::Engine;
use sed_value::Id;
use sed_value::limits::MOST_LINKS_AT_COMPONENT;
use sed_wire::Writer;
use sub_table::LinkRec;

// How many links there may be at a component.
const MOST_AT_COMPONENT: u8 = MOST_LINKS_AT_COMPONENT as u8;

/// Puts a link in six bytes: the id and the slot that it leads from, and those that it leads to.
pub fn put_link(writer: &mut Writer, link: LinkRec)
    requires { 6 ≤ room writer.old }
    ensures { Appends writer.old writer.new (link_bytes link) }
{
    writer.put_u2(link.from.0);
    writer.put_u1(link.from_slot);
    writer.put_u2(link.to.0);
    writer.put_u1(link.to_slot);
}

/// Puts the links at a component, in the order of their targets, and the number that no component has: at most 362
/// bytes.
pub fn put_link_part<E: Engine>(writer: &mut Writer, app: &App<E>, id: Id)
    requires { 362 ≤ room writer.old }
    ensures bytes { Appends writer.old writer.new (link_part id.0 app.now.links) }
    ensures short { length (link_part id.0 app.now.links) ≤ 362 }
{
    put_links_at(writer, app, id);
    writer.put_u2(0xffff);
}

// Puts the links at a component.
fn put_links_at<E: Engine>(writer: &mut Writer, app: &App<E>, id: Id)
    requires { 360 ≤ room writer.old }
    ensures bytes { Appends writer.old writer.new (flat_map link_bytes (links_at id.0 app.now.links)) }
    ensures short { length (flat_map link_bytes (links_at id.0 app.now.links)) ≤ 360 }
{
    let _few = app.link_of(id, 0);
    for n in 0..MOST_AT_COMPONENT {
        match app.link_of(id, n) {
            Some(link) => put_link(writer, link),
            None => return,
        }
    }
}
