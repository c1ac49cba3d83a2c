//! Names of kits, classes and slots.
ghost use Rattle.std.specs.Prelude.{◌≡◌};
ghost use Rattle.std.specs.List.{list_all};
ghost use Rattle.sed_value.specs.Names as names;
ghost use Rattle.scode_code.specs.TableRules as rules;
ghost use Rattle.scode_tables.specs.Words as words;

use scode_image::{Image, ImageClass, ImageKit, ImageSlot};
use sed_value::{KitName, Word};

fn is_kit_name(bytes: &[u8]) -> bool
    ensures { result ≡ names.is_kit_name bytes.now }
{
    KitName::read(bytes).is_some()
}

fn is_word(bytes: &[u8]) -> bool
    ensures { result ≡ names.is_word bytes.now }
{
    Word::read(bytes).is_some()
}

fn kits_are_named(kits: &[ImageKit]) -> bool
    ensures { result ≡ list_all words.kit_is_named kits.now }
{
    kits.iter().all(|kit| is_kit_name(kit.name.as_slice()))
}

fn slots_are_named(slots: &[ImageSlot]) -> bool
    ensures { result ≡ list_all words.slot_is_named slots.now }
{
    slots.iter().all(|slot| is_word(slot.name.as_slice()))
}

fn class_is_named(class: &ImageClass) -> bool
    ensures { result ≡ words.class_is_named class.now }
{
    is_word(class.name.as_slice()) && slots_are_named(class.slots.as_slice())
}

fn classes_are_named(classes: &[ImageClass]) -> bool
    ensures { result ≡ list_all words.class_is_named classes.now }
{
    classes.iter().all(|class| class_is_named(class))
}

/// Whether each kit's name has a kit's form, and each name of a class or slot is an identifier of at most 31
/// characters.
pub fn names_have_form(image: &Image) -> bool
    ensures { result ≡ rules.names_have_form image.now }
{
    kits_are_named(image.kits.as_slice()) && classes_are_named(image.classes.as_slice())
}
