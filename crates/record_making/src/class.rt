//! The slots of a class, and the classes that are drawn.
ghost use Rattle.std.specs.Prelude.{◌≡◌, ◌≤◌, ◌++◌, ◌∷◌, [], length, filter, if◌then◌else◌, nat_lt, IfOk, OnOk};
ghost use Rattle.std.specs.Option.{option_map};
ghost use Rattle.sed_typed.specs.Classes.{slots};
ghost use Rattle.sed_typed.specs.TypedSchema as typed;
ghost use Rattle.record_making.specs.Slots.{is_of, numbers_that};
ghost use Rattle.record_making.specs.Types as meaning;

use sed_typed::{ClassInfo, Schema, SlotForm, SlotInfo, TypeNo};
use sed_value::{Memory, Prim, SlotType};
use std::alloc::Global;

// The numbers of `App` and `Folder` in kit `sys`.
const APP: u8 = 3;

pub(crate) const FOLDER: u8 = 4;

/// Which slots of a class are meant: its config properties, or its properties of type int.
#[derive(Clone, Copy, Debug, PartialEq, Eq)]
pub(crate) enum Sort {
    Config,
    Int,
}

/// The slots of a class that are of a sort, by their numbers. A class has at most 64 slots.
pub(crate) fn slots_that(alloc: Global, slots: &[SlotInfo], sort: Sort) -> Result<Vec<u8>, Memory>
    requires { length slots.now ≤ 64 }
    ensures { IfOk result (λ found. found.items ≡ numbers_that (is_of sort) slots.now) }
{
    let mut found = Vec::new(alloc);
    for slot in 0..slots.len() {
        push_if(&mut found, slot as u8, &slots[slot], sort)?;
    }
    Ok(found)
}

// Puts the number of a slot behind the others, where it is of a sort.
fn push_if(found: &mut Vec<u8>, number: u8, slot: &SlotInfo, sort: Sort) -> Result<(), Memory>
    ensures { OnOk result (found.new.items ≡ found.old.items ++ (if is_of sort slot.now then number ∷ [] else [])) }
{
    if is_of(slot, sort) {
        found.push(number)?;
        return Ok(());
    }
    Ok(())
}

// Whether a slot is of a sort.
fn is_of(slot: &SlotInfo, sort: Sort) -> bool
    ensures { result ≡ is_of sort slot.now }
{
    match (slot.form, sort) {
        (SlotForm::Prop(_), Sort::Config) => slot.config,
        (SlotForm::Prop(SlotType::Prim(Prim::Int)), Sort::Int) => true,
        _ => false,
    }
}

/// The slots but for slot 0.
pub(crate) fn but_the_first(alloc: Global, slots: &[u8]) -> Result<Vec<u8>, Memory>
    ensures { IfOk result (λ others. others.items ≡ filter (λ slot. nat_lt 0 slot) slots.now) }
{
    let mut others = Vec::new(alloc);
    for slot in slots {
        if *slot > 0 {
            others.push(*slot)?;
        }
    }
    Ok(others)
}

/// How many types a kit has.
pub(crate) fn type_count(classes: &[ClassInfo], kit: u8) -> usize
    ensures { result ≡ typed.types_of classes.now kit }
{
    classes.iter().filter(|class| class.kit == kit).count()
}

/// The class that is the type of a kit with a number, where components of it may be drawn: a component type that is not
/// abstract, and neither the App nor `Folder`.
pub(crate) fn drawn_class(schema: &Schema, kit: u8, number: u8) -> Option<TypeNo>
    ensures { option_map (λ class. class.0) result ≡ meaning.drawn_class schema.now.classes kit number }
{
    if is_app_or_folder(kit, number) {
        return None;
    }
    match schema.type_of(kit, number) {
        Some(class) if is_concrete(schema, class) => Some(class),
        _ => None,
    }
}

fn is_app_or_folder(kit: u8, number: u8) -> bool
    ensures { result ≡ meaning.is_app_or_folder kit number }
{
    kit == 0 && (number == APP || number == FOLDER)
}

// Whether components of a class are made.
fn is_concrete(schema: &Schema, class: TypeNo) -> bool
    ensures { result ≡ meaning.is_concrete schema.now.classes class.0 }
{
    match schema.class(class) {
        Some(info) => info.is_component && !info.is_abstract,
        None => false,
    }
}

/// The properties of a class that are of type int, but for slot 0, by their slots.
pub(crate) fn int_slots(alloc: Global, schema: &Schema, class: TypeNo) -> Result<Vec<u8>, Memory>
    requires { length (slots schema.now.classes class.0) ≤ 64 }
    ensures { IfOk result (λ found. found.items
        ≡ filter (λ slot. nat_lt 0 slot) (numbers_that meaning.is_int (slots schema.now.classes class.0))) }
{
    let all = slots_that(alloc, schema.slots_of(class), Sort::Int)?;
    but_the_first(alloc, &all)
}
