//! What no text of an image has, and an image that was not read may have.
ghost use Rattle.std.specs.Prelude.{◌≡◌, ◌==◌, length};
ghost use Rattle.std.specs.List.{list_all};
ghost use Rattle.sed_value.specs.Value.{are_bytes};
ghost use Rattle.scode_image.specs.Grammar as grammar;
ghost use Rattle.scode_code.specs.TableRules as rules;
ghost use Rattle.scode_tables.specs.Words as words;

use scode_image::{Image, ImageClass, ImageEntry, ImageField, ImageMethod, ImageSlot};
use sed_typed::Bytes255;

fn is_field_form(field: &ImageField) -> bool
    ensures { result ≡ grammar.is_field_form field.now.form }
{
    1 <= field.form && field.form <= 13
}

fn are_field_forms(fields: &[ImageField]) -> bool
    ensures { result ≡ list_all words.has_field_form fields.now }
{
    fields.iter().all(|field| is_field_form(field))
}

fn is_slot_form(form: u8) -> bool
    ensures { result ≡ grammar.is_slot_form form }
{
    1 <= form && form <= 5 || form == 7 || 0x10 <= form && form <= 0x13
}

fn slot_is_known(slot: &ImageSlot) -> bool
    ensures { result ≡ words.slot_is_known slot.now }
{
    is_slot_form(slot.form) && slot.config <= 1
}

fn slots_are_known(slots: &[ImageSlot]) -> bool
    ensures { result ≡ list_all words.slot_is_known slots.now }
{
    slots.iter().all(|slot| slot_is_known(slot))
}

// Bytes are bytes.
fn are_bytes(bytes: &[u8]) -> bool
    ensures { result ≡ are_bytes bytes.now }
{
    let _bytes = bytes;
    true
}

/// Whether the flags of a class, and the forms of its fields and slots, are in their lists.
pub fn class_is_known(class: &ImageClass) -> bool
    ensures { result ≡ rules.class_is_known class.now }
{
    class.flags <= 3
        && are_field_forms(class.fields.as_slice())
        && slots_are_known(class.slots.as_slice())
        && are_bytes(class.contents.as_slice())
}

fn places_ascend(entries: &[ImageEntry]) -> bool
    ensures { result ≡ rules.places_ascend 0 entries.now }
{
    let mut least: usize = 0;
    for entry in entries {
        if usize::from(entry.place) < least {
            return false;
        }
        least = usize::from(entry.place) + 1;
    }
    true
}

fn all_have_locals(entries: &[ImageEntry], count: usize) -> bool
    ensures { result ≡ list_all (λ e. length e.locals == count) entries.now }
{
    entries.iter().all(|entry| entry.locals.len() == count)
}

/// Whether the flags of a method are in their list, and its entries ascend and have as many locals as it has.
pub fn method_is_known(method: &ImageMethod) -> bool
    ensures { result ≡ rules.method_is_known method.now }
{
    method.flags <= 3
        && places_ascend(method.entries.as_slice())
        && all_have_locals(method.entries.as_slice(), method.locals.len())
        && are_bytes(method.code.as_slice())
}

fn text_is_known(text: &Bytes255) -> bool
    ensures { result ≡ rules.text_is_known text.now }
{
    are_bytes(text.as_bytes()) && text.as_bytes().len() <= 255
}

fn classes_are_known(classes: &[ImageClass]) -> bool
    ensures { result ≡ list_all rules.class_is_known classes.now }
{
    classes.iter().all(|class| class_is_known(class))
}

fn texts_are_known(texts: &[Bytes255]) -> bool
    ensures { result ≡ list_all rules.text_is_known texts.now }
{
    texts.iter().all(|text| text_is_known(text))
}

fn methods_are_known(methods: &[ImageMethod]) -> bool
    ensures { result ≡ list_all rules.method_is_known methods.now }
{
    methods.iter().all(|method| method_is_known(method))
}

/// Whether an image has nothing but what the text of one may have.
pub fn parts_are_known(image: &Image) -> bool
    ensures { result ≡ rules.parts_are_known image.now }
{
    classes_are_known(image.classes.as_slice())
        && are_field_forms(image.static_fields.as_slice())
        && are_bytes(image.static_bytes.as_slice())
        && texts_are_known(image.texts.as_slice())
        && methods_are_known(image.methods.as_slice())
}
