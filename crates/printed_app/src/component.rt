//! The text of a component.
ghost use Rattle.std.specs.Prelude.{◌++◌, codes};
ghost use Rattle.std.specs.Fmt.{decimal};
ghost use Rattle.comp_tree.specs.Held.{components_of};
ghost use Rattle.printed_app.specs.Printed.{fault_line};
ghost use Rattle.printed_app.specs.Puts.{Puts};
ghost use Rattle.printed_app.specs.Application.{class_text, component_line, component_text, kit_name};

use crate::path::put_path;
use crate::properties::put_properties;
use crate::{put_bytes, put_fault_line, put_number, put_word};
use comp_tree::Tree;
use sed_engine::Engine;
use sed_outside::{Sink, SinkFault};
use sed_typed::{ClassInfo, TypeNo};
use sed_value::Id;

/// Puts the line of a component and those of its properties into a sink; nothing of an id that is not live. Takes no
/// memory of its own.
pub fn put_component<E: Engine, O: Sink>(
    tree: &Tree<E>,
    id: Id,
    out: &mut O,
) -> Result<(), SinkFault>
    ensures { Puts O.Sink out.old out.new
        (component_text (E.meaning tree.now.engine) (components_of E.Engine tree.now).by_id id.0) result }
{
    let Some(entry) = tree.find(id) else {
        return Ok(());
    };
    put_component_line(tree, id, entry.kind, entry.fault, out)?;
    put_properties(tree, id, entry.kind, out)
}

// Puts the line of a component of this class and fault.
fn put_component_line<E: Engine, O: Sink>(
    tree: &Tree<E>,
    id: Id,
    kind: TypeNo,
    fault: u8,
    out: &mut O,
) -> Result<(), SinkFault>
    ensures { Puts O.Sink out.old out.new
        (component_line (E.meaning tree.now.engine) (components_of E.Engine tree.now).by_id id.0 kind.0 fault) result }
{
    put_path(tree, id, out)?;
    put_bytes(b" ", out)?;
    put_class(tree, kind, out)?;
    put_id_and_fault(id, fault, out)
}

// Puts ` id=ID fault=N`.
fn put_id_and_fault<O: Sink>(id: Id, fault: u8, out: &mut O) -> Result<(), SinkFault>
    ensures { Puts O.Sink out.old out.new (codes " id=" ++ (decimal id.0 ++ (codes " " ++ fault_line fault))) result }
{
    put_bytes(b" id=", out)?;
    put_number(id.0, out)?;
    put_bytes(b" ", out)?;
    put_fault_line(fault, out)
}

// Puts the name of a class behind that of its kit; nothing where there is no such class.
fn put_class<E: Engine, O: Sink>(tree: &Tree<E>, kind: TypeNo, out: &mut O) -> Result<(), SinkFault>
    ensures { Puts O.Sink out.old out.new (class_text (E.meaning tree.now.engine) kind.0) result }
{
    match tree.schema().class(kind) {
        Some(class) => put_class_name(tree, class, out),
        None => Ok(()),
    }
}

// Puts the name of a class behind that of its kit.
fn put_class_name<E: Engine, O: Sink>(
    tree: &Tree<E>,
    class: &ClassInfo,
    out: &mut O,
) -> Result<(), SinkFault>
    ensures { Puts O.Sink out.old out.new
        (kit_name (E.meaning tree.now.engine) class.now.kit ++ (codes "::" ++ class.now.name)) result }
{
    put_kit(tree, class.kit, out)?;
    put_bytes(b"::", out)?;
    put_word(&class.name, out)
}

// Puts the name of a kit; nothing where there is no such kit.
fn put_kit<E: Engine, O: Sink>(tree: &Tree<E>, kit: u8, out: &mut O) -> Result<(), SinkFault>
    ensures { Puts O.Sink out.old out.new (kit_name (E.meaning tree.now.engine) kit) result }
{
    match tree.schema().kits.as_slice().get(usize::from(kit)) {
        Some(kit) => put_bytes(kit.name.as_bytes(), out),
        None => Ok(()),
    }
}
