//! The config slots of a class.
ghost use Rattle.std.specs.Prelude.{◌≡◌, ◌≤◌, ◌<◌, ◌++◌, OnOk, false, IfOk, length, slice_get};
ghost use Rattle.std.specs.Option.{option_map_or};
ghost use Rattle.sed_engine.specs.Code.{Meaning};
ghost use Rattle.sed_engine.specs.Whole.{KeepsLimits};
ghost use Rattle.sed_typed.specs.Classes.{slots};
ghost use Rattle.node_table.specs.Properties.{config_slots, is_config as is_config_slot};
ghost use Rattle.node_table.specs.Read.{numbers_in};
ghost use Rattle.app_reader.specs.Numbers.{number_if_config};

use sed_typed::{Schema, SlotForm, SlotInfo, TypeNo};
use std::alloc::{AllocError, Global};

/// The numbers of the config slots of a class, in their order.
pub(crate) fn config_numbers(
    alloc: Global,
    schema: &Schema,
    kind: TypeNo,
) -> Result<Vec<u8>, AllocError>
    requires { KeepsLimits schema.now }
    ensures { (m : Meaning) → m.schema ≡ schema.now → IfOk result (λ numbers. numbers.items ≡ config_slots m kind.0) }
{
    numbers_of(alloc, slots_of(schema, kind))
}

// The slots of a class: at most 64.
fn slots_of(schema: &Schema, kind: TypeNo) -> &[SlotInfo]
    requires { KeepsLimits schema.now }
    ensures slots { result.now ≡ slots schema.now.classes kind.0 }
    ensures few { length result.now ≤ 64 }
{
    schema.slots_of(kind)
}

// The numbers of the config slots among these.
fn numbers_of(alloc: Global, slots: &[SlotInfo]) -> Result<Vec<u8>, AllocError>
    requires { length slots.now ≤ 64 }
    ensures { IfOk result (λ numbers. numbers.items ≡ numbers_in 0 slots.now) }
{
    let mut numbers = Vec::new(alloc);
    for place in 0..slots.len() {
        add_number(&mut numbers, slots, place)?;
    }
    Ok(numbers)
}

// Adds the number of the slot at a place, where it is a config property.
fn add_number(numbers: &mut Vec<u8>, slots: &[SlotInfo], place: usize) -> Result<(), AllocError>
    requires { place < 64 }
    ensures { OnOk result (numbers.new.items ≡ numbers.old.items ++ number_if_config slots.now place) }
{
    if is_config(slots, place) {
        numbers.push(place as u8)?;
    }
    Ok(())
}

// Whether the slot at a place is a config property.
fn is_config(slots: &[SlotInfo], place: usize) -> bool
    ensures { result ≡ option_map_or is_config_slot (slice_get slots.now place) false }
{
    match slots.get(place) {
        Some(info) => is_config_info(info),
        None => false,
    }
}

fn is_config_info(info: &SlotInfo) -> bool
    ensures { result ≡ is_config_slot info.now }
{
    match info.form {
        SlotForm::Prop(_) => info.config,
        SlotForm::Action(_) => false,
    }
}
