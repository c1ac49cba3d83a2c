//! The kit `sys` and its classes.
ghost use Rattle.std.specs.Prelude.{◌≡◌, [], ◌∷◌, IfOk, IsTrue};
ghost use Rattle.sed_value.specs.Names.{is_kit_name, is_word};
ghost use Rattle.tiny_engine.specs.Sys.{class_of, meta_slot, save_slot, sys_classes, sys_kits};

use sed_typed::{ActionArg, ClassInfo, SlotForm, SlotInfo, TypeNo};
use sed_value::{Items, KitName, KitRef, Prim, SlotType, Word};
use std::alloc::{AllocError, Global};

// A class of kit 0.
fn class(
    number: u8,
    name: Word,
    base: Option<TypeNo>,
    is_abstract: bool,
    slots: Vec<SlotInfo>,
) -> ClassInfo
    ensures { result ≡ class_of number name base is_abstract slots.items }
{
    let is_component = slots.len() > 0;
    ClassInfo {
        kit: 0,
        number,
        name,
        base,
        is_abstract,
        is_component,
        size: if is_component { 4 } else { 0 },
        slots: Items::new(slots),
    }
}

fn word(text: &[u8]) -> Word
    requires { IsTrue (is_word text.now) }
    ensures { result ≡ text.now }
{
    Word::read(text).unwrap()
}

fn meta() -> SlotInfo
    ensures { result ≡ meta_slot }
{
    SlotInfo {
        name: word(b"meta".as_slice()),
        config: true,
        form: SlotForm::Prop(SlotType::Prim(Prim::Int)),
    }
}

fn save() -> SlotInfo
    ensures { result ≡ save_slot }
{
    SlotInfo {
        name: word(b"save".as_slice()),
        config: false,
        form: SlotForm::Action(ActionArg::Void),
    }
}

fn kit_name(text: &[u8]) -> KitName
    requires { IsTrue (is_kit_name text.now) }
    ensures { result ≡ text.now }
{
    KitName::read(text).unwrap()
}

/// The kits: `sys` alone.
pub fn kits(alloc: Global) -> Result<Vec<KitRef>, AllocError>
    ensures { IfOk result (λ v. v.items ≡ sys_kits) }
{
    let sys = KitRef {
        name: kit_name(b"sys".as_slice()),
        checksum: 0,
    };
    Ok(vec![in alloc; sys]?)
}

/// The five classes of `sys` in their order.
pub fn classes(alloc: Global) -> Result<Vec<ClassInfo>, AllocError>
    ensures { IfOk result (λ v. v.items ≡ sys_classes) }
{
    let mut all = Vec::new(alloc);
    all.push(class(0, word(b"Obj".as_slice()), None, true, Vec::new(alloc)))?;
    all.push(class(
        1,
        word(b"Virtual".as_slice()),
        Some(TypeNo(0)),
        true,
        Vec::new(alloc),
    ))?;
    all.push(class(
        2,
        word(b"Component".as_slice()),
        Some(TypeNo(1)),
        true,
        vec![in alloc; meta()]?,
    ))?;
    all.push(class(
        3,
        word(b"App".as_slice()),
        Some(TypeNo(2)),
        false,
        vec![in alloc; meta(), save()]?,
    ))?;
    all.push(class(
        4,
        word(b"Folder".as_slice()),
        Some(TypeNo(2)),
        false,
        vec![in alloc; meta()]?,
    ))?;
    Ok(all)
}
