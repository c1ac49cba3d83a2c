//! Slots as they stand in an image.
ghost use Rattle.std.specs.Prelude.{◌≡◌, IfOk, position};
ghost use Rattle.std.specs.Str.{bytes_eq};
ghost use Rattle.sed_typed.specs.Classes.{method_name};
ghost use Rattle.sed_typed.specs.TypedSchema.{in_slot};
ghost use Rattle.scode_gen.specs.ClassParts.{AreOfClass};
ghost use Rattle.scode_gen.specs.ImageSlots as slots;
ghost use Rattle.scode_gen.specs.ImageSlots.{image_slots};

use crate::copies::copied;
use crate::image_fields::primitive_number;
use scode_image::ImageSlot;
use sed_layout::tables_have_each_virtual_method;
use sed_typed::{ActionArg, Field, Program, SlotForm, SlotInfo};
use sed_value::{Items, Memory, SlotType};
use std::alloc::Global;

// The number of an action's form.
fn action_number(argument: ActionArg) -> u8
    ensures { result ≡ slots.action_number argument }
{
    match argument {
        ActionArg::Void => 0x10,
        ActionArg::Bool => 0x11,
        ActionArg::Int => 0x12,
        ActionArg::Long => 0x13,
    }
}

fn slot_number(form: SlotForm) -> u8
    ensures { result ≡ slots.slot_number form }
{
    match form {
        SlotForm::Prop(SlotType::Prim(prim)) => primitive_number(prim),
        SlotForm::Prop(SlotType::Buf(_)) => 7,
        SlotForm::Action(argument) => action_number(argument),
    }
}

// How many bytes a Buf has at most.
fn slot_room(form: SlotForm) -> u16
    ensures { result ≡ slots.slot_room form }
{
    match form {
        SlotForm::Prop(SlotType::Buf(room)) => u16::from(room),
        SlotForm::Prop(SlotType::Prim(_)) | SlotForm::Action(_) => 0,
    }
}

// 1 where the application file keeps the slot, which is no action.
fn config_number(kept: bool, form: SlotForm) -> u8
    ensures { result ≡ slots.config_number kept form }
{
    match form {
        SlotForm::Prop(_) => u8::from(kept),
        SlotForm::Action(_) => 0,
    }
}

// Whether a field is the property in a slot.
fn is_in_slot(field: &Field, number: usize) -> bool
    ensures { result ≡ in_slot number field.now }
{
    match field.slot {
        Some(slot) => usize::from(slot.0) == number,
        None => false,
    }
}

// The number of the field that is the property in a slot.
fn field_in_slot(all: &[Field], number: usize) -> Option<usize>
    ensures { result ≡ position (in_slot number) all.now }
{
    all.iter().position(|field| is_in_slot(field, number))
}

/// A class of a program with its number, its fields and their offsets, inherited ones first, and its table of methods.
#[derive(Clone, Copy)]
pub(crate) struct ClassParts<'a> {
    pub(crate) program: &'a Program,
    pub(crate) class: usize,
    pub(crate) all: &'a [Field],
    pub(crate) offsets: &'a [u16],
    pub(crate) table: &'a [u16],
}

// The offset of the field that is the property in a slot.
fn property_offset(parts: &ClassParts<'_>, number: usize) -> u16
    requires { AreOfClass parts.now }
    ensures { result ≡ slots.property_offset parts.now.program.now parts.now.class number }
{
    match field_in_slot(parts.all, number) {
        Some(field) => parts.offsets[field],
        None => 0,
    }
}

// The place of an action in the table of the class.
fn action_place(parts: &ClassParts<'_>, name: &[u8]) -> u16
    requires { AreOfClass parts.now }
    ensures { result ≡ slots.action_place parts.now.program.now parts.now.class name.now }
{
    tables_have_each_virtual_method();
    match place_of_name(parts.program, parts.table, name) {
        Some(place) => place as u16,
        None => 0,
    }
}

// The first place of a table with a method of this name.
fn place_of_name(program: &Program, table: &[u16], name: &[u8]) -> Option<usize>
    ensures { result ≡ position (λ number. bytes_eq (method_name program.now number) name.now) table.now }
{
    table
        .iter()
        .position(|number| name_of(program, *number) == name)
}

// The name of a method.
fn name_of(program: &Program, number: u16) -> &[u8]
    ensures { result.now ≡ method_name program.now number }
{
    match program.methods.as_slice().get(usize::from(number)) {
        Some(method) => method.name.as_bytes(),
        None => &[],
    }
}

fn slot_place(parts: &ClassParts<'_>, number: usize, slot: &SlotInfo) -> u16
    requires { AreOfClass parts.now }
    ensures { result
        ≡ slots.slot_place parts.now.program.now parts.now.class number slot.now.name slot.now.form }
{
    match slot.form {
        SlotForm::Prop(_) => property_offset(parts, number),
        SlotForm::Action(_) => action_place(parts, slot.name.as_bytes()),
    }
}

fn image_slot(
    alloc: Global,
    parts: &ClassParts<'_>,
    number: usize,
    slot: &SlotInfo,
) -> Result<ImageSlot, Memory>
    requires { AreOfClass parts.now }
    ensures { IfOk result (λ made.
        made ≡ slots.image_slot parts.now.program.now parts.now.class number slot.now) }
{
    Ok(ImageSlot {
        name: copied(alloc, slot.name.as_bytes())?,
        form: slot_number(slot.form),
        place: slot_place(parts, number, slot),
        n: slot_room(slot.form),
        config: config_number(slot.config, slot.form),
    })
}

/// The slots of a class, inherited ones first.
pub(crate) fn slots_of_class(
    alloc: Global,
    parts: &ClassParts<'_>,
    slots: &[SlotInfo],
) -> Result<Items<ImageSlot>, Memory>
    requires { AreOfClass parts.now }
    ensures { IfOk result (λ made. made ≡ image_slots parts.now.program.now parts.now.class slots.now) }
{
    let mut made = Vec::new(alloc);
    for (number, slot) in slots.iter().enumerate() {
        made.push(image_slot(alloc, parts, number, slot)?)?;
    }
    Ok(Items::new(made))
}
