//! The text of an application.
ghost use Rattle.std.specs.List.{flat_map};
ghost use Rattle.comp_tree.specs.Held.{components_of};
ghost use Rattle.comp_tree.specs.Order.{depth_first};
ghost use Rattle.link_prop.specs.Linked.{application_of};
ghost use Rattle.printed_app.specs.Puts.{Puts};
ghost use Rattle.printed_app.specs.Application.{application_text, component_text};

use crate::component::put_component;
use crate::links::put_links;
use comp_tree::Tree;
use link_prop::App;
use sed_engine::Engine;
use sed_outside::{Sink, SinkFault};
use sed_value::Id;

/// Puts the text of an application into a sink: its components, depth first, each as the line `PATH KIT::TYPE id=ID
/// fault=N` and its properties in the order of the slots, indented by two spaces; and then each link as `link ID.SLOT
/// -> ID.SLOT`, in ascending order of their targets. The path of the App is `/`, that of another component is like
/// `/a/b`.
///
/// Takes no memory of its own. Where the sink fails, a front of the text was put.
pub fn put_application<E: Engine, O: Sink>(app: &App<E>, out: &mut O) -> Result<(), SinkFault>
    ensures { Puts O.Sink out.old out.new
        (application_text (E.meaning app.now.tree.engine) (application_of E.Engine app.now)) result }
{
    put_components(app, out)?;
    put_links(app, out)
}

// Puts the components, depth first.
fn put_components<E: Engine, O: Sink>(app: &App<E>, out: &mut O) -> Result<(), SinkFault>
    ensures { Puts O.Sink out.old out.new
        (flat_map (component_text (E.meaning app.now.tree.engine) (components_of E.Engine app.now.tree).by_id)
        (depth_first (components_of E.Engine app.now.tree).by_id)) result }
{
    let tree = app.tree();
    let ids = tree.depth_first();
    put_each(tree, ids.as_slice(), out)
}

// Puts components, one after another.
fn put_each<E: Engine, O: Sink>(tree: &Tree<E>, ids: &[u16], out: &mut O) -> Result<(), SinkFault>
    ensures { Puts O.Sink out.old out.new
        (flat_map (component_text (E.meaning tree.now.engine) (components_of E.Engine tree.now).by_id) ids.now) result }
{
    for id in ids {
        put_component(tree, Id(*id), out)?;
    }
    Ok(())
}
