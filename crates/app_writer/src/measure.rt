//! How many bytes the text of an application has.
ghost use Rattle.std.specs.Prelude.{◌≡◌, ◌≤◌, ◌+◌, ◌*◌, length};
ghost use Rattle.app_file.specs.Text.{app_text, front_text, version};
ghost use Rattle.app_parts.specs.Told.{most_kits};
ghost use Rattle.comp_tree.specs.Application.{most_components};
ghost use Rattle.comp_tree.specs.Held.{components_of};
ghost use Rattle.link_prop.specs.Linked.{application_of};
ghost use Rattle.app_writer.specs.Written.{row_at, rows_text, tree_text};

use crate::front::write_front;
use crate::ids::end_of_ids;
use crate::row::write_row;
use comp_tree::Tree;
use link_prop::App;
use sed_engine::Engine;
use sed_typed::Schema;
use sed_value::Id;

/// How many bytes the text of an application has.
pub fn text_length<E: Engine>(app: &App<E>) -> usize
    ensures { result ≡ length (app_text (E.meaning app.now.tree.engine) (application_of E.Engine app.now)) }
{
    tree_length(app.tree()) + 6 * app.links() + 3
}

// How many bytes the front and the components have.
fn tree_length<E: Engine>(tree: &Tree<E>) -> usize
    ensures length { result ≡ length (tree_text (E.meaning tree.now.engine) (components_of E.Engine tree.now).by_id) }
    ensures short { result ≤ 443 * most_components + 477 }
{
    front_length(tree.schema()) + rows_length(tree) + 4
}

// How many bytes the front has.
fn front_length(schema: &Schema) -> usize
    requires { length schema.now.kits ≤ most_kits }
    ensures length { result ≡ length (front_text version schema.now.kits) }
    ensures short { result ≤ 473 }
{
    let mut bytes = [0; 473];
    write_front(schema, &mut bytes)
}

// How many bytes the rows have.
fn rows_length<E: Engine>(tree: &Tree<E>) -> usize
    ensures length { result ≡ length (rows_text (E.meaning tree.now.engine) (components_of E.Engine tree.now).by_id) }
    ensures short { result ≤ 443 * most_components }
{
    let mut total = 0;
    for id in 0..end_of_ids(tree) {
        total += row_length(tree, Id(id));
    }
    total
}

// How many bytes the row of the component with an id has.
fn row_length<E: Engine>(tree: &Tree<E>, id: Id) -> usize
    ensures length { result ≡ length (row_at (E.meaning tree.now.engine) (components_of E.Engine tree.now).by_id id.0) }
    ensures short { result ≤ 443 }
{
    let mut bytes = [0; 443];
    write_row(tree, id, &mut bytes)
}
