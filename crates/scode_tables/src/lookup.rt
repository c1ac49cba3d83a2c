//! What stands behind the numbers of an image.
ghost use Rattle.std.specs.Prelude.{◌≡◌, option_copied, slice_get};
ghost use Rattle.std.specs.Option.{option_and_then};
ghost use Rattle.sed_typed.specs.Classes as typed;
ghost use Rattle.sed_typed.specs.Schemas as schemas;
ghost use Rattle.scode_code.specs.Calls as calls;
ghost use Rattle.scode_code.specs.Kinds as rules;
ghost use Rattle.scode_code.specs.Tables.{class_fields, schema_of};
ghost use Rattle.scode_tables.specs.Words as words;

use scode_image::{Image, ImageClass, ImageField, ImageMethod};

// What a class says where it has no base.
pub(crate) const NO_BASE: u16 = 0xffff;

/// The class of a number.
pub fn class_at(image: &Image, class: usize) -> Option<&ImageClass>
    ensures { option_copied result ≡ slice_get image.now.classes class }
{
    image.classes.as_slice().get(class)
}

/// The method of a number.
pub fn method_at(image: &Image, number: u16) -> Option<&ImageMethod>
    ensures { option_copied result ≡ slice_get image.now.methods number }
{
    image.methods.as_slice().get(usize::from(number))
}

/// The fields of a class, inherited ones first; none where there is no class of this number.
pub fn fields_of(image: &Image, class: usize) -> &[ImageField]
    ensures { result.now ≡ class_fields image.now class }
{
    match class_at(image, class) {
        Some(found) => found.fields.as_slice(),
        None => &[],
    }
}

// What stands at a place of a table.
pub(crate) fn number_at(table: &[u16], place: usize) -> Option<u16>
    ensures { result ≡ slice_get table.now place }
{
    table.get(place).copied()
}

/// The method at a place of a class's table, by its number.
pub fn table_method(image: &Image, class: u16, place: u8) -> Option<u16>
    ensures { result ≡ calls.table_method image.now class place }
{
    match class_at(image, usize::from(class)) {
        Some(found) => number_at(found.table.as_slice(), usize::from(place)),
        None => None,
    }
}

fn place_of(image: &Image, kit: u8, number: u8) -> Option<usize>
    ensures { result ≡ words.place_of_type image.now kit number }
{
    image
        .classes
        .as_slice()
        .iter()
        .position(|class| class.kit == kit && class.number == number)
}

// A place that is small enough to be a class's number.
fn numbered(place: Option<usize>) -> Option<usize>
    ensures { result ≡ option_and_then schemas.numbered place }
{
    match place {
        Some(place) => {
            if place < 65536 {
                return Some(place);
            }
            None
        }
        None => None,
    }
}

/// The class of a number in a kit.
pub fn type_at(image: &Image, kit: u8, number: u8) -> Option<usize>
    ensures { result ≡ schemas.type_at (schema_of image.now).classes kit number }
{
    numbered(place_of(image, kit, number))
}

// The base that a class says it has, by its number.
fn base_of(image: &Image, class: usize) -> Option<usize>
    ensures { result ≡ typed.base_of (schema_of image.now).classes class }
{
    match class_at(image, class) {
        Some(found) => {
            if found.base == NO_BASE {
                return None;
            }
            Some(usize::from(found.base))
        }
        None => None,
    }
}

/// Whether a class is the first one, or has it among its bases.
pub fn is_at_or_above(image: &Image, above: usize, class: usize) -> bool
    ensures { result ≡ rules.is_at_or_above image.now above class }
{
    let mut at = class;
    for _ in 0..image.classes.len() {
        if at == above {
            return true;
        }
        match base_of(image, at) {
            Some(base) => at = base,
            None => return false,
        }
    }
    false
}
