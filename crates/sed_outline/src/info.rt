//! The classes of a schema.
ghost use Rattle.std.specs.Prelude.{◌≡◌, ◌++◌, ◌≤◌, ◌^◌, ◌==◌, length, IfOk, OnOk};
ghost use Rattle.std.specs.List.{list_any};
ghost use Rattle.std.specs.Option.{option_map, option_to_list};
ghost use Rattle.sed_classes.specs.Declarations.{class_at};
ghost use Rattle.sed_classes.specs.Entries.{declaration_of};
ghost use Rattle.sed_classes.specs.Schema as schemas;
ghost use Rattle.sed_outline.specs.Fits.{Fits, Written, base_number};

use crate::order::type_number;
use crate::{Measured, slots};
use sed_classes::{Based, Entry, is_abstract_class};
use sed_typed::{ClassInfo, TypeNo};
use sed_value::{Items, Memory, Word};
use std::alloc::Global;

// The place of `Component`.
const COMPONENT: usize = 2;

// The number of the base of a class.
fn base_number(based: &Based<'_>, order: &[usize], class: usize) -> Option<TypeNo>
    requires order { order.now ≡ schemas.class_order based.now }
    requires len { length order.now ≤ 2 ^ 16 }
    ensures { result ≡ base_number based.now class }
{
    match based.base_of(class) {
        Some(base) => type_number(order, base),
        None => None,
    }
}

// The class at a place, whose name is this word.
fn class_info(
    alloc: Global,
    measured: &Measured<'_>,
    order: &[usize],
    class: usize,
    entry: &Entry<'_>,
    name: Word,
) -> Result<ClassInfo, Memory>
    requires fits { Fits measured.now }
    requires written { Written (length measured.now) (declaration_of entry.now) }
    requires order { order.now ≡ schemas.class_order measured.now }
    requires len { length order.now ≤ 2 ^ 16 }
    requires name { name ≡ entry.now.class.now.name.bytes }
    ensures { IfOk result (λ i. i ≡ schemas.class_info measured.now class (declaration_of entry.now)) }
{
    let based = measured.based();
    let slots = slots(alloc, based, class)?;
    Ok(ClassInfo {
        kit: entry.kit as u8,
        number: entry.number as u8,
        name,
        base: base_number(based, order, class),
        is_abstract: is_abstract_class(entry.class),
        is_component: based.is_below(COMPONENT, class),
        size: measured.size_of(class) as u32,
        slots: Items::new(slots),
    })
}

// The class at a place.
fn info_at(
    alloc: Global,
    measured: &Measured<'_>,
    order: &[usize],
    class: usize,
) -> Result<Option<ClassInfo>, Memory>
    requires fits { Fits measured.now }
    requires order { order.now ≡ schemas.class_order measured.now }
    requires len { length order.now ≤ 2 ^ 16 }
    ensures { IfOk result (λ i. i ≡ option_map (schemas.class_info measured.now class) (class_at measured.now class)) }
{
    let Some(entry) = measured.based().classes().entry_at(class) else {
        return Ok(None);
    };
    let Some(name) = Word::read(entry.class.name.bytes.as_slice()) else {
        return Ok(None);
    };
    let info = class_info(alloc, measured, order, class, entry, name)?;
    Ok(Some(info))
}

fn push_found(into: &mut Vec<ClassInfo>, found: Option<ClassInfo>) -> Result<(), Memory>
    ensures { OnOk result (into.new.items ≡ into.old.items ++ option_to_list found) }
{
    if let Some(info) = found {
        into.push(info)?;
    }
    Ok(())
}

/// The classes of a schema, in this order.
///
/// Want of memory is the only refusal.
pub fn class_infos(
    alloc: Global,
    measured: &Measured<'_>,
    order: &[usize],
) -> Result<Vec<ClassInfo>, Memory>
    requires fits { Fits measured.now }
    requires order { order.now ≡ schemas.class_order measured.now }
    requires len { length order.now ≤ 2 ^ 16 }
    ensures { IfOk result (λ v. v.items ≡ schemas.class_infos measured.now) }
{
    let mut all = Vec::new(alloc);
    for number in 0..order.len() {
        let found = info_at(alloc, measured, order, order[number])?;
        push_found(&mut all, found)?;
    }
    Ok(all)
}
