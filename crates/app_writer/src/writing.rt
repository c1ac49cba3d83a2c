//! Writing an application.
ghost use Rattle.std.specs.Prelude.{◌≡◌, ◌<◌, ◌≤◌, ◌↔◌, ◌*◌, length, IfOk, IfErr, IsErr, OnErr};
ghost use Rattle.app_file.specs.Text.{app_text, front_text, version};
ghost use Rattle.app_parts.specs.Told.{most_kits};
ghost use Rattle.comp_tree.specs.Held.{components_of};
ghost use Rattle.link_prop.specs.Linked.{application_of};
ghost use Rattle.sed_wire.specs.Writing.{Appends, room};
ghost use Rattle.sox_msg.specs.Reply.{Puts};
ghost use Rattle.app_writer.specs.Written.{components_text, links_text, row_at, rows_text, tree_text};

use crate::front::write_front;
use crate::full::AppFull;
use crate::ids::end_of_ids;
use crate::measure::text_length;
use crate::row::write_row;
use app_parts::put_link;
use comp_tree::Tree;
use link_prop::App;
use sed_engine::Engine;
use sed_typed::Schema;
use sed_value::Id;
use sed_wire::Writer;

/// Puts the text of an application in front of `into`, and says how many bytes it has; what stood behind it stays.
///
/// `AppFull` comes exactly where `into` has fewer bytes than the text, with the number of bytes that it needs, and then
/// `into` is as it was.
///
/// The application is gone through twice, once for the length. Each id up to the greatest is looked up, and each
/// component is sought among its siblings, of which there are at most 200.
pub fn write_app<E: Engine>(app: &App<E>, into: &mut [u8]) -> Result<usize, AppFull>
    ensures full { IsErr result ↔ (length into.old
        < length (app_text (E.meaning app.now.tree.engine) (application_of E.Engine app.now))) }
    ensures needs { IfErr result (λ full. full.needs
        ≡ length (app_text (E.meaning app.now.tree.engine) (application_of E.Engine app.now))) }
    ensures stays { OnErr result (into.new ≡ into.old) }
    ensures written { IfOk result (λ count.
        Puts (app_text (E.meaning app.now.tree.engine) (application_of E.Engine app.now)) count into.old into.new) }
{
    let needs = text_length(app);
    if into.len() < needs {
        return Err(AppFull { needs });
    }
    Ok(put_app(app, into))
}

// Puts the text of an application in front of `into`, which has room for it.
fn put_app<E: Engine>(app: &App<E>, into: &mut [u8]) -> usize
    requires { length (app_text (E.meaning app.now.tree.engine) (application_of E.Engine app.now)) ≤ length into.old }
    ensures { Puts (app_text (E.meaning app.now.tree.engine) (application_of E.Engine app.now))
        result into.old into.new }
{
    let mut writer = Writer::new(into);
    put_file(&mut writer, app);
    writer.done()
}

// Puts the text of an application.
fn put_file<E: Engine>(writer: &mut Writer, app: &App<E>)
    requires { length (app_text (E.meaning app.now.tree.engine) (application_of E.Engine app.now)) ≤ room writer.old }
    ensures { Appends writer.old writer.new
        (app_text (E.meaning app.now.tree.engine) (application_of E.Engine app.now)) }
{
    put_tree(writer, app.tree());
    put_links(writer, app);
    writer.put_u2(0xffff);
    writer.put_u1(0x2e);
}

// Puts the front, and the components.
fn put_tree<E: Engine>(writer: &mut Writer, tree: &Tree<E>)
    requires { length (tree_text (E.meaning tree.now.engine) (components_of E.Engine tree.now).by_id)
        ≤ room writer.old }
    ensures { Appends writer.old writer.new
        (tree_text (E.meaning tree.now.engine) (components_of E.Engine tree.now).by_id) }
{
    put_front(writer, tree.schema());
    put_components(writer, tree);
}

// Puts the front.
fn put_front(writer: &mut Writer, schema: &Schema)
    requires few { length schema.now.kits ≤ most_kits }
    requires room { length (front_text version schema.now.kits) ≤ room writer.old }
    ensures { Appends writer.old writer.new (front_text version schema.now.kits) }
{
    let mut bytes = [0; 473];
    let count = write_front(schema, &mut bytes);
    writer.put_bytes(&bytes[..count]);
}

// Puts the greatest id, the components, and the number that ends them.
fn put_components<E: Engine>(writer: &mut Writer, tree: &Tree<E>)
    requires { length (components_text (E.meaning tree.now.engine) (components_of E.Engine tree.now).by_id)
        ≤ room writer.old }
    ensures { Appends writer.old writer.new
        (components_text (E.meaning tree.now.engine) (components_of E.Engine tree.now).by_id) }
{
    writer.put_u2(tree.greatest().0);
    put_rows(writer, tree);
    writer.put_u2(0xffff);
}

// Puts the rows of all components, in ascending order of their ids.
fn put_rows<E: Engine>(writer: &mut Writer, tree: &Tree<E>)
    requires { length (rows_text (E.meaning tree.now.engine) (components_of E.Engine tree.now).by_id)
        ≤ room writer.old }
    ensures { Appends writer.old writer.new
        (rows_text (E.meaning tree.now.engine) (components_of E.Engine tree.now).by_id) }
{
    for id in 0..end_of_ids(tree) {
        put_row_at(writer, tree, Id(id));
    }
}

// Puts the row of the component with an id; nothing where it is not live.
fn put_row_at<E: Engine>(writer: &mut Writer, tree: &Tree<E>, id: Id)
    requires { length (row_at (E.meaning tree.now.engine) (components_of E.Engine tree.now).by_id id.0)
        ≤ room writer.old }
    ensures { Appends writer.old writer.new
        (row_at (E.meaning tree.now.engine) (components_of E.Engine tree.now).by_id id.0) }
{
    let mut bytes = [0; 443];
    let count = write_row(tree, id, &mut bytes);
    writer.put_bytes(&bytes[..count]);
}

// Puts the links.
fn put_links<E: Engine>(writer: &mut Writer, app: &App<E>)
    requires { 6 * length app.now.links ≤ room writer.old }
    ensures { Appends writer.old writer.new (links_text app.now.links) }
{
    for n in 0..app.links() {
        match app.link_at(n) {
            Some(link) => put_link(writer, link),
            None => unreachable!(),
        }
    }
}
