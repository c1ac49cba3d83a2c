//! The printed form of a component.
ghost use Rattle.std.specs.Prelude.{◌≡◌, ◌≤◌, length, IfOk, IsSomeAnd, Some, slice_get};
ghost use Rattle.std.specs.FinMap as map;
ghost use Rattle.std.specs.List.{enumerate_from, flat_map};
ghost use Rattle.sed_typed.specs.Classes as classes;
ghost use Rattle.sed_engine.specs.Code.{Object};
ghost use Rattle.printed_app.specs.Puts.{Puts};
ghost use Rattle.sed_cycles.specs.Alone as alone;

use crate::component::Component;
use printed_app::{Collected, put_fault_line, put_property_line};
use sed_engine::Engine;
use sed_outside::{Sink, SinkFault};
use sed_typed::{SlotForm, SlotInfo, SlotNo};
use sed_value::SlotBuf;
use std::alloc::{AllocError, Global};

// Puts the line of a slot, if it is a property.
fn put_slot_line<E: Engine, O: Sink>(
    engine: &E,
    component: &Component,
    number: u8,
    slot: &SlotInfo,
    out: &mut O,
) -> Result<(), SinkFault>
    requires live { IsSomeAnd (map.get (E.live engine.now) component.now.place.0)
        (λ o. o.class ≡ component.now.class.0) }
    requires slot { slice_get (classes.slots (E.meaning engine.now).schema.classes component.now.class.0) number
        ≡ Some slot.now }
    ensures { (o : Object) → map.get (E.live engine.now) component.now.place.0 ≡ Some o →
        Puts O.Sink out.old out.new (alone.slot_line (E.meaning engine.now) o (number, slot.now)) result }
{
    match slot.form {
        SlotForm::Prop(_) => {
            let mut value = SlotBuf::new();
            engine.get(component.place, SlotNo(number), &mut value);
            put_property_line(&slot.name, value.value(), out)
        }
        SlotForm::Action(_) => Ok(()),
    }
}

// Puts the lines of the slots.
fn put_slot_lines<E: Engine, O: Sink>(
    engine: &E,
    component: &Component,
    slots: &[SlotInfo],
    out: &mut O,
) -> Result<(), SinkFault>
    requires live { IsSomeAnd (map.get (E.live engine.now) component.now.place.0)
        (λ o. o.class ≡ component.now.class.0) }
    requires slots { slots.now ≡ classes.slots (E.meaning engine.now).schema.classes component.now.class.0 }
    requires few { length slots.now ≤ 64 }
    ensures { (o : Object) → map.get (E.live engine.now) component.now.place.0 ≡ Some o →
        Puts O.Sink out.old out.new
        (flat_map (alone.slot_line (E.meaning engine.now) o) (enumerate_from 0 slots.now)) result }
{
    for (number, slot) in slots.iter().enumerate() {
        put_slot_line(engine, component, number as u8, slot, out)?;
    }
    Ok(())
}

// Puts the printed form of a component that is there.
fn put_component<E: Engine, O: Sink>(
    engine: &E,
    component: &Component,
    out: &mut O,
) -> Result<(), SinkFault>
    requires live { IsSomeAnd (map.get (E.live engine.now) component.now.place.0)
        (λ o. o.class ≡ component.now.class.0) }
    ensures { (o : Object) → map.get (E.live engine.now) component.now.place.0 ≡ Some o
        → o.class ≡ component.now.class.0 →
        Puts O.Sink out.old out.new (alone.component_text (E.meaning engine.now) o component.now.fault) result }
{
    let slots = engine.schema().slots_of(component.class);
    put_slot_lines(engine, component, slots, out)?;
    put_fault_line(component.fault, out)
}

/// The printed form of a component that is there: its properties in the order of the slots, and its fault.
///
/// Want of memory is the only refusal.
pub fn component_text<E: Engine>(
    alloc: Global,
    engine: &E,
    component: &Component,
) -> Result<Vec<u8>, AllocError>
    requires live { IsSomeAnd (map.get (E.live engine.now) component.now.place.0)
        (λ o. o.class ≡ component.now.class.0) }
    ensures { (o : Object) → map.get (E.live engine.now) component.now.place.0 ≡ Some o
        → o.class ≡ component.now.class.0 →
        IfOk result (λ text. text.items ≡ alone.component_text (E.meaning engine.now) o component.now.fault) }
{
    let mut text = Collected::new(alloc);
    match put_component(engine, component, &mut text) {
        Ok(()) => Ok(text.into_bytes()),
        Err(_) => Err(AllocError),
    }
}
