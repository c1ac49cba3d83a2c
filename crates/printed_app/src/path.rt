//! The path of a component.
ghost use Rattle.std.specs.Prelude.{◌≡◌, reverse};
ghost use Rattle.std.specs.List.{flat_map};
ghost use Rattle.std.specs.Option.{option_map};
ghost use Rattle.comp_tree.specs.Application.{name_of, parent_of};
ghost use Rattle.comp_tree.specs.Held.{components_of};
ghost use Rattle.sed_typed.specs.Classes.{reached};
ghost use Rattle.printed_app.specs.Puts.{Puts};
ghost use Rattle.printed_app.specs.Application.{path_text, step_text};

use crate::put_bytes;
use comp_tree::Tree;
use sed_engine::Engine;
use sed_outside::{Sink, SinkFault};
use sed_value::Id;

// A component, and as many above it as a tree has levels at most.
const MOST_STEPS: u8 = 18;

/// Puts the path of a component into a sink: `/` for the App, like `/a/b` for another. Takes no memory of its own.
pub fn put_path<E: Engine, O: Sink>(tree: &Tree<E>, id: Id, out: &mut O) -> Result<(), SinkFault>
    ensures { Puts O.Sink out.old out.new (path_text (components_of E.Engine tree.now).by_id id.0) result }
{
    if id.0 == 0 {
        return put_bytes(b"/", out);
    }
    put_steps(tree, Some(id), MOST_STEPS, out)
}

// Puts what the path has of the components on the way down to one, of which this and at most so many in all are told.
fn put_steps<E: Engine, O: Sink>(
    tree: &Tree<E>,
    at: Option<Id>,
    steps: u8,
    out: &mut O,
) -> Result<(), SinkFault>
    ensures { Puts O.Sink out.old out.new
        (flat_map (step_text (components_of E.Engine tree.now).by_id)
        (reverse (reached (parent_of (components_of E.Engine tree.now).by_id) steps
        (option_map (λ (i : _). i.0) at)))) result }
{
    if steps == 0 {
        return Ok(());
    }
    let Some(id) = at else {
        return Ok(());
    };
    put_steps(tree, parent(tree, id), steps - 1, out)?;
    put_step(tree, id, out)
}

// The parent of a component, which the App alone has not.
fn parent<E: Engine>(tree: &Tree<E>, id: Id) -> Option<Id>
    ensures { option_map (λ (i : _). i.0) result ≡ parent_of (components_of E.Engine tree.now).by_id id.0 }
{
    match tree.find(id) {
        Some(entry) => entry.parent,
        None => None,
    }
}

// Puts what the path has of one component on the way.
fn put_step<E: Engine, O: Sink>(tree: &Tree<E>, id: Id, out: &mut O) -> Result<(), SinkFault>
    ensures { Puts O.Sink out.old out.new (step_text (components_of E.Engine tree.now).by_id id.0) result }
{
    if id.0 == 0 {
        return Ok(());
    }
    put_bytes(b"/", out)?;
    put_name(tree, id, out)
}

// Puts the name of a component.
fn put_name<E: Engine, O: Sink>(tree: &Tree<E>, id: Id, out: &mut O) -> Result<(), SinkFault>
    ensures { Puts O.Sink out.old out.new (name_of (components_of E.Engine tree.now).by_id id.0) result }
{
    match tree.find(id) {
        Some(entry) => put_bytes(entry.name.as_bytes(), out),
        None => Ok(()),
    }
}
