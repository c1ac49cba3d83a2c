//! The schema of an image.
ghost use Rattle.std.specs.Prelude.{◌≡◌, IfOk, IsTrue, map, true};
ghost use Rattle.std.specs.List.{list_all};
ghost use Rattle.sed_value.specs.Names as names;
ghost use Rattle.scode_code.specs.Faults.{IsVerified};
ghost use Rattle.scode_code.specs.Tables as tables;
ghost use Rattle.scode_engine.specs.Slots as words;

use crate::forms::form_of;
use scode_image::{Image, ImageClass, ImageKit, ImageSlot};
use sed_typed::{ClassInfo, Schema, SlotInfo, TypeNo};
use sed_value::{Items, KitName, KitRef, Memory, Word};
use std::alloc::Global;

// The number of no base.
const NO_BASE: u16 = 0xffff;

/// The schema of a verified image.
pub fn schema_of(alloc: Global, image: &Image) -> Result<Schema, Memory>
    requires { IsVerified image.now }
    ensures { IfOk result (λ s. s ≡ tables.schema_of image.now) }
{
    let kits = kits_of(alloc, image.kits.as_slice())?;
    let classes = classes_of(alloc, image.classes.as_slice())?;
    Ok(Schema {
        kits: Items::new(kits),
        classes: Items::new(classes),
    })
}

fn kits_of(alloc: Global, kits: &[ImageKit]) -> Result<Vec<KitRef>, Memory>
    requires { list_all words.may_be_kit kits.now ≡ true }
    ensures { IfOk result (λ all. all.items ≡ map tables.kit_of kits.now) }
{
    let mut all = Vec::with_capacity(alloc, kits.len())?;
    for kit in kits {
        all.push(kit_of(kit))?;
    }
    Ok(all)
}

fn kit_of(kit: &ImageKit) -> KitRef
    requires { words.may_be_kit kit.now ≡ true }
    ensures { result ≡ tables.kit_of kit.now }
{
    KitRef {
        name: KitName::read(kit.name.as_slice()).unwrap(),
        checksum: kit.checksum,
    }
}

fn classes_of(alloc: Global, classes: &[ImageClass]) -> Result<Vec<ClassInfo>, Memory>
    requires { list_all words.may_be_class classes.now ≡ true }
    ensures { IfOk result (λ all. all.items ≡ map tables.class_of classes.now) }
{
    let mut all = Vec::with_capacity(alloc, classes.len())?;
    for class in classes {
        all.push(class_of(alloc, class)?)?;
    }
    Ok(all)
}

fn class_of(alloc: Global, class: &ImageClass) -> Result<ClassInfo, Memory>
    requires { words.may_be_class class.now ≡ true }
    ensures { IfOk result (λ info. info ≡ tables.class_of class.now) }
{
    let slots = slots_of(alloc, class.slots.as_slice())?;
    Ok(ClassInfo {
        kit: class.kit,
        number: class.number,
        name: word_of(class.name.as_slice()),
        base: base_of(class.base),
        is_abstract: class.flags % 2 == 1,
        is_component: class.flags >= 2,
        size: class.contents.len() as u32,
        slots: Items::new(slots),
    })
}

// The base of a class.
fn base_of(base: u16) -> Option<TypeNo>
    ensures { result ≡ tables.base_of base }
{
    if base == NO_BASE {
        None
    } else {
        Some(TypeNo(base))
    }
}

fn slots_of(alloc: Global, slots: &[ImageSlot]) -> Result<Vec<SlotInfo>, Memory>
    requires { list_all words.may_be_slot slots.now ≡ true }
    ensures { IfOk result (λ all. all.items ≡ map tables.slot_of slots.now) }
{
    let mut all = Vec::with_capacity(alloc, slots.len())?;
    for slot in slots {
        all.push(slot_of(slot))?;
    }
    Ok(all)
}

fn slot_of(slot: &ImageSlot) -> SlotInfo
    requires { words.may_be_slot slot.now ≡ true }
    ensures { result ≡ tables.slot_of slot.now }
{
    SlotInfo {
        name: word_of(slot.name.as_slice()),
        config: slot.form <= 7 && slot.config == 1,
        form: form_of(slot),
    }
}

// The word with these characters.
fn word_of(bytes: &[u8]) -> Word
    requires { IsTrue (names.is_word bytes.now) }
    ensures { result ≡ bytes.now }
{
    Word::read(bytes).unwrap()
}
