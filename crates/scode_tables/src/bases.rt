//! Classes and their bases.
ghost use Rattle.std.specs.Prelude.{◌≡◌};
ghost use Rattle.std.specs.List.{list_all, zip};
ghost use Rattle.scode_code.specs.TableRules as rules;
ghost use Rattle.scode_tables.specs.Words as words;

use crate::kinds::{are_same_kinds, has_class, is_same_kind};
use crate::lookup::{NO_BASE, class_at, is_at_or_above, method_at, type_at};
use scode_image::{Image, ImageClass, ImageField, ImageSlot};

/// Whether a class has no base, or one that stands before it.
pub fn base_stands_before(class: usize, found: &ImageClass) -> bool
    ensures { result ≡ rules.base_stands_before class found.now }
{
    found.base == NO_BASE || usize::from(found.base) < class
}

/// Whether a class is a component.
pub fn is_component(class: &ImageClass) -> bool
    ensures { result ≡ rules.is_component class.now }
{
    class.flags >= 2
}

/// Whether a class is abstract.
pub fn is_abstract_class(class: &ImageClass) -> bool
    ensures { result ≡ rules.is_abstract_class class.now }
{
    class.flags % 2 == 1
}

fn are_equal(a: bool, b: bool) -> bool
    ensures { result ≡ rules.are_equal a b }
{
    if a { b } else { !b }
}

/// Whether a class is a component exactly where it is `Component` or below it.
pub fn is_marked(image: &Image, class: usize, found: &ImageClass) -> bool
    ensures { result ≡ rules.is_marked image.now class found.now }
{
    match type_at(image, 0, 2) {
        Some(component) => are_equal(is_component(found), is_at_or_above(image, component, class)),
        None => false,
    }
}

fn is_same_field(a: &ImageField, b: &ImageField) -> bool
    ensures { result ≡ rules.same_field a.now b.now }
{
    a.offset == b.offset && a.form == b.form && a.n == b.n
}

fn is_same_slot(a: &ImageSlot, b: &ImageSlot) -> bool
    ensures { result ≡ rules.same_slot a.now b.now }
{
    a.name.as_slice() == b.name.as_slice()
        && a.form == b.form
        && a.place == b.place
        && a.n == b.n
        && a.config == b.config
}

fn are_fields_along(front: &[ImageField], all: &[ImageField]) -> bool
    ensures { result ≡ list_all (words.same_pair rules.same_field) (zip front.now all.now) }
{
    front
        .iter()
        .zip(all.iter())
        .all(|(a, b)| is_same_field(a, b))
}

#[tactic(auto, using(crate::proofs::Rows::begins_along))]
fn begins_with_fields(front: &[ImageField], all: &[ImageField]) -> bool
    ensures { result ≡ rules.begins rules.same_field front.now all.now }
{
    front.len() <= all.len() && are_fields_along(front, all)
}

fn are_slots_along(front: &[ImageSlot], all: &[ImageSlot]) -> bool
    ensures { result ≡ list_all (words.same_pair rules.same_slot) (zip front.now all.now) }
{
    front
        .iter()
        .zip(all.iter())
        .all(|(a, b)| is_same_slot(a, b))
}

#[tactic(auto, using(crate::proofs::Rows::begins_along))]
fn begins_with_slots(front: &[ImageSlot], all: &[ImageSlot]) -> bool
    ensures { result ≡ rules.begins rules.same_slot front.now all.now }
{
    front.len() <= all.len() && are_slots_along(front, all)
}

/// Whether the data and the table of a class are no smaller than those of its base, and its fields and slots begin with
/// the base's.
pub fn grows_from_base(class: &ImageClass, base: &ImageClass) -> bool
    ensures { result ≡ rules.grows_from_base class.now base.now }
{
    base.contents.len() <= class.contents.len()
        && base.table.len() <= class.table.len()
        && begins_with_fields(base.fields.as_slice(), class.fields.as_slice())
        && begins_with_slots(base.slots.as_slice(), class.slots.as_slice())
}

/// Whether two methods have one signature; of a number without a method nothing is said.
pub fn is_same_signature(image: &Image, a: u16, b: u16) -> bool
    ensures { result ≡ rules.same_signature image.now a b }
{
    match method_at(image, a) {
        Some(first) => match method_at(image, b) {
            Some(second) => {
                are_same_kinds(first.params.as_slice(), second.params.as_slice())
                    && is_same_kind(first.result, second.result)
            }
            None => true,
        },
        None => true,
    }
}

fn are_signatures_along(image: &Image, front: &[u16], all: &[u16]) -> bool
    ensures { result ≡ list_all (words.same_pair (words.keeps_signature image.now)) (zip front.now all.now) }
{
    front
        .iter()
        .zip(all.iter())
        .all(|(b, a)| is_same_signature(image, *a, *b))
}

/// Whether the methods of a class's table have the signatures that stand at the same places of its base's.
#[tactic(auto, using(crate::proofs::Rows::begins_along))]
pub fn table_keeps_signatures(image: &Image, class: &ImageClass, base: &ImageClass) -> bool
    ensures { result ≡ rules.table_keeps_signatures image.now class.now base.now }
{
    base.table.len() <= class.table.len()
        && are_signatures_along(image, base.table.as_slice(), class.table.as_slice())
}

/// Whether a class, where it has a base that is there, grows from it.
pub fn grows(image: &Image, class: &ImageClass) -> bool
    ensures { result ≡ rules.with_base image.now (rules.grows_from_base class.now) class.now }
{
    match class_at(image, usize::from(class.base)) {
        Some(base) => grows_from_base(class, base),
        None => true,
    }
}

/// Whether a class, where it has a base that is there, keeps its signatures.
pub fn keeps_signatures(image: &Image, class: &ImageClass) -> bool
    ensures { result ≡ rules.with_base image.now (rules.table_keeps_signatures image.now class.now) class.now }
{
    match class_at(image, usize::from(class.base)) {
        Some(base) => table_keeps_signatures(image, class, base),
        None => true,
    }
}
