//! Reading the config values of a component.
ghost use Rattle.std.specs.Prelude.{◌≡◌, ◌<◌, IfSome, IsTrue, length, slice_get};
ghost use Rattle.std.specs.Option.{option_and_then};
ghost use Rattle.sed_wire.specs.Spelling.{can_be_held};
ghost use Rattle.node_table.specs.Read.{CanBeHeld, config_type_of, types_in};
ghost use Rattle.sed_wire.specs.Gives.{Gives};
ghost use Rattle.app_front.specs.ValueForm as form;

use sed_typed::{SlotForm, SlotInfo};
use sed_value::{Items, SlotType, Value};
use sed_wire::{Halt, Reader};
use std::alloc::Global;

// The values of the config properties among these slots, in their order.
pub(crate) fn values(
    alloc: Global,
    slots: &[SlotInfo],
    reader: &mut Reader,
) -> Result<Items<Value>, Halt>
    requires { CanBeHeld slots.now }
    ensures { Gives result reader.new ((form.values (types_in slots.now)).reads reader.old) }
{
    let mut items = Vec::new(alloc);
    for place in 0..slots.len() {
        match config_type(slots, place) {
            Some(wanted) => {
                let next = value(reader, wanted)?;
                items.push(next)?;
            }
            None => {}
        }
    }
    Ok(Items::new(items))
}

// A value of the type.
fn value(reader: &mut Reader, wanted: SlotType) -> Result<Value, Halt>
    requires { IsTrue (can_be_held wanted) }
    ensures { Gives result reader.new ((form.value wanted).reads reader.old) }
{
    let start = reader.rest();
    match reader.value(wanted) {
        Ok(value) => Ok(value),
        Err(_) => {
            *reader = Reader::new(start);
            Err(Halt::Fault)
        }
    }
}

// The type of the slot at a place, where it is a config property.
fn config_type(slots: &[SlotInfo], place: usize) -> Option<SlotType>
    ensures { result ≡ option_and_then config_type_of (slice_get slots.now place) }
{
    match slots.get(place) {
        Some(info) => type_if_config(info),
        None => None,
    }
}

// The type of a slot, where it is a config property.
fn type_if_config(info: &SlotInfo) -> Option<SlotType>
    ensures { result ≡ config_type_of info.now }
{
    match info.form {
        SlotForm::Prop(kind) if info.config => Some(kind),
        _ => None,
    }
}
