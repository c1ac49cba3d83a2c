//! Slots, tables, and the numbers that a class has.
ghost use Rattle.std.specs.Prelude.{◌≡◌, ◌||◌, is_some, length, nat_lt, not, Some};
ghost use Rattle.std.specs.List.{list_all};
ghost use Rattle.scode_code.specs.Kinds as kinds;
ghost use Rattle.scode_code.specs.TableRules as rules;
ghost use Rattle.scode_code.specs.Tables as tables;
ghost use Rattle.scode_tables.specs.Words as words;

use crate::bases::is_abstract_class;
use crate::kinds::{BOOL, INT, LONG, VOID, has_class};
use crate::lookup::{NO_BASE, is_at_or_above, method_at, number_at};
use crate::methods::{is_abstract, is_instance};
use crate::sys::has_signature;
use scode_image::{Image, ImageClass, ImageField, ImageMethod, ImageSlot};

fn is_action(slot: &ImageSlot) -> bool
    ensures { result ≡ rules.is_action slot.now }
{
    slot.form >= 0x10
}

fn has_method(image: &Image, number: u16) -> bool
    ensures { result ≡ rules.has_method image.now number }
{
    usize::from(number) < image.methods.len()
}

fn has_methods(image: &Image, table: &[u16]) -> bool
    ensures { result ≡ list_all (rules.has_method image.now) table.now }
{
    table.iter().all(|number| has_method(image, *number))
}

fn is_placed(slot: &ImageSlot, size: usize) -> bool
    ensures { result ≡ words.is_placed size slot.now }
{
    !is_action(slot) || usize::from(slot.place) < size
}

fn are_placed(slots: &[ImageSlot], size: usize) -> bool
    ensures { result ≡ list_all (words.is_placed size) slots.now }
{
    slots.iter().all(|slot| is_placed(slot, size))
}

/// Whether the kit, the base, the table methods and the table places of a class are there.
pub fn class_numbers_are_there(image: &Image, class: &ImageClass) -> bool
    ensures { result ≡ rules.class_numbers_are_there image.now class.now }
{
    usize::from(class.kit) < image.kits.len()
        && (class.base == NO_BASE || has_class(image, class.base))
        && has_methods(image, class.table.as_slice())
        && are_placed(class.slots.as_slice(), class.table.len())
}

/// The number of the field of a form, offset and n.
pub fn field_number(fields: &[ImageField], form: u8, offset: u16, n: u16) -> Option<usize>
    ensures { result ≡ tables.field_number fields.now form offset n }
{
    fields.iter().position(|field| field.form == form && field.offset == offset && field.n == n)
}

/// Whether a property has a field of its form, offset and n.
pub fn property_has_field(class: &ImageClass, slot: &ImageSlot) -> bool
    ensures { result ≡ rules.property_has_field class.now slot.now }
{
    is_action(slot)
        || field_number(class.fields.as_slice(), slot.form, slot.place, slot.n).is_some()
}

fn has_signature_of(image: &Image, form: u8, number: u16) -> bool
    ensures { result ≡ rules.has_signature image.now (rules.action_params form) kinds.void number }
{
    match form {
        0x10 => has_signature(image, &[], VOID, number),
        0x11 => has_signature(image, &[BOOL], VOID, number),
        0x12 => has_signature(image, &[INT], VOID, number),
        _ => has_signature(image, &[LONG], VOID, number),
    }
}

/// Whether the table method of an action has the signature that the slot says.
pub fn action_has_method(image: &Image, class: &ImageClass, slot: &ImageSlot) -> bool
    ensures { result ≡ rules.action_has_method image.now class.now slot.now }
{
    if !is_action(slot) {
        return true;
    }
    match number_at(class.table.as_slice(), usize::from(slot.place)) {
        Some(number) => has_signature_of(image, slot.form, number),
        None => false,
    }
}

fn slot_has_parts(image: &Image, class: &ImageClass, slot: &ImageSlot) -> bool
    ensures { result ≡ words.slot_has_parts image.now class.now slot.now }
{
    property_has_field(class, slot) && action_has_method(image, class, slot)
}

fn all_have_parts(image: &Image, class: &ImageClass, slots: &[ImageSlot]) -> bool
    ensures { result ≡ list_all (words.slot_has_parts image.now class.now) slots.now }
{
    slots.iter().all(|slot| slot_has_parts(image, class, slot))
}

/// Whether each property of a class has its field, and each action its method.
pub fn slots_have_parts(image: &Image, class: &ImageClass) -> bool
    ensures { result ≡ rules.slots_have_parts image.now class.now }
{
    all_have_parts(image, class, class.slots.as_slice())
}

/// Whether a method may stand in the table of a class: it is no static one, it is of this class or one above it, and an
/// abstract one is in an abstract class.
pub fn may_stand_in_table(
    image: &Image,
    class: usize,
    found: &ImageClass,
    method: &ImageMethod,
) -> bool
    ensures { result ≡ rules.may_stand_in_table image.now class found.now method.now }
{
    is_instance(method)
        && is_at_or_above(image, usize::from(method.class), class)
        && (!is_abstract(method) || is_abstract_class(found))
}

fn fits_in_table(image: &Image, class: usize, found: &ImageClass, number: u16) -> bool
    ensures { result ≡ words.fits_in_table image.now class found.now number }
{
    match method_at(image, number) {
        Some(method) => may_stand_in_table(image, class, found, method),
        None => true,
    }
}

fn all_fit_in_table(image: &Image, class: usize, found: &ImageClass, table: &[u16]) -> bool
    ensures { result ≡ list_all (words.fits_in_table image.now class found.now) table.now }
{
    table
        .iter()
        .all(|number| fits_in_table(image, class, found, *number))
}

/// Whether each method in the table of a class may stand there.
pub fn table_methods_fit(image: &Image, class: usize, found: &ImageClass) -> bool
    ensures { result ≡ rules.table_methods_fit image.now class found.now }
{
    all_fit_in_table(image, class, found, found.table.as_slice())
}
