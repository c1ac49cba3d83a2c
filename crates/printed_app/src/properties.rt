//! The properties of a component.
ghost use Rattle.std.specs.Prelude.{◌≡◌, ◌≤◌, ◌++◌, length, IsSomeAnd, Some, slice_get, codes};
ghost use Rattle.std.specs.FinMap as map;
ghost use Rattle.std.specs.List.{enumerate_from, flat_map};
ghost use Rattle.sed_typed.specs.Classes as classes;
ghost use Rattle.comp_tree.specs.Held.{components_of};
ghost use Rattle.printed_app.specs.Printed.{property_line};
ghost use Rattle.printed_app.specs.Puts.{Puts};
ghost use Rattle.printed_app.specs.Application.{property_lines, slot_line};

use crate::{put_bytes, put_property_line};
use comp_tree::Tree;
use sed_engine::Engine;
use sed_outside::{Sink, SinkFault};
use sed_typed::{SlotForm, SlotInfo, TypeNo};
use sed_value::{Id, SlotBuf, Value, Word};

/// Puts the properties of a component of this class into a sink, in the order of the slots. Takes no memory of its
/// own.
pub fn put_properties<E: Engine, O: Sink>(
    tree: &Tree<E>,
    id: Id,
    kind: TypeNo,
    out: &mut O,
) -> Result<(), SinkFault>
    requires class { IsSomeAnd (map.get (components_of E.Engine tree.now).by_id id.0) (λ c. c.class ≡ kind.0) }
    ensures { Puts O.Sink out.old out.new
        (property_lines (E.meaning tree.now.engine) (components_of E.Engine tree.now).by_id id.0 kind.0) result }
{
    let slots = tree.schema().slots_of(kind);
    put_slots(tree, id, slots, out)
}

// Puts the lines of slots, one after another.
fn put_slots<E: Engine, O: Sink>(
    tree: &Tree<E>,
    id: Id,
    slots: &[SlotInfo],
    out: &mut O,
) -> Result<(), SinkFault>
    requires slots { IsSomeAnd (map.get (components_of E.Engine tree.now).by_id id.0)
        (λ c. slots.now ≡ classes.slots (E.meaning tree.now.engine).schema.classes c.class) }
    requires few { length slots.now ≤ 64 }
    ensures { Puts O.Sink out.old out.new
        (flat_map (slot_line (E.meaning tree.now.engine) (components_of E.Engine tree.now).by_id id.0)
        (enumerate_from 0 slots.now)) result }
{
    for (number, slot) in slots.iter().enumerate() {
        put_slot(tree, id, number as u8, slot, out)?;
    }
    Ok(())
}

// Puts the line of a slot, if it is a property.
fn put_slot<E: Engine, O: Sink>(
    tree: &Tree<E>,
    id: Id,
    number: u8,
    slot: &SlotInfo,
    out: &mut O,
) -> Result<(), SinkFault>
    requires slot { IsSomeAnd (map.get (components_of E.Engine tree.now).by_id id.0)
        (λ c. slice_get (classes.slots (E.meaning tree.now.engine).schema.classes c.class) number ≡ Some slot.now) }
    ensures { Puts O.Sink out.old out.new
        (slot_line (E.meaning tree.now.engine) (components_of E.Engine tree.now).by_id id.0 (number, slot.now)) result }
{
    let SlotForm::Prop(_) = slot.form else {
        return Ok(());
    };
    let mut value = SlotBuf::new();
    match tree.get(id, number, &mut value) {
        Ok(()) => put_property(&slot.name, value.value(), out),
        Err(_) => unreachable!(),
    }
}

// Puts the line of a property, indented.
fn put_property<O: Sink>(name: &Word, value: &Value, out: &mut O) -> Result<(), SinkFault>
    ensures { Puts O.Sink out.old out.new (codes "  " ++ property_line name.now value.now) result }
{
    put_bytes(b"  ", out)?;
    put_property_line(name, value, out)
}
