//! Fields: their numbers, their widths, and that they lie apart.
ghost use Rattle.std.specs.Prelude.{◌≡◌, ◌≤◌, ◌+◌, ◌-◌, false, IfOk, length, not, replicate, slice_set, true};
ghost use Rattle.std.specs.Bool.{OnTrue};
ghost use Rattle.std.specs.List.{list_all};
ghost use Rattle.sed_value.specs.SlotType.{width_of};
ghost use Rattle.scode_code.specs.TableRules as rules;
ghost use Rattle.scode_code.specs.Tables as tables;
ghost use Rattle.scode_fields.specs.Words as words;

use scode_image::{Image, ImageClass, ImageField};
use scode_tables::{class_at, has_class, is_abstract_class, is_component};
use sed_value::Memory;
use std::alloc::{AllocError, Global};

// The form of an object.
pub(crate) const OBJECT: u8 = 8;

fn object_is_there(image: &Image, field: &ImageField) -> bool
    ensures { result ≡ words.object_is_there image.now field.now }
{
    field.form != OBJECT || has_class(image, field.n)
}

/// Whether the classes of all fields that are objects are there.
pub fn object_fields_are_there(image: &Image, fields: &[ImageField]) -> bool
    ensures { result ≡ rules.object_fields_are_there image.now fields.now }
{
    fields.iter().all(|field| object_is_there(image, field))
}

/// Whether a class may be that of an object within another: it is concrete, no component, and has data.
pub fn may_be_inline(class: &ImageClass) -> bool
    ensures { result ≡ rules.may_be_inline class.now }
{
    !is_abstract_class(class) && !is_component(class) && class.contents.len() > 0
}

fn object_may_be_inline(image: &Image, field: &ImageField) -> bool
    ensures { result ≡ words.object_may_be_inline image.now field.now }
{
    if field.form != OBJECT {
        return true;
    }
    match class_at(image, usize::from(field.n)) {
        Some(class) => may_be_inline(class),
        None => true,
    }
}

/// Whether the classes of all fields that are objects may be those of objects within others.
pub fn objects_may_be_inline(image: &Image, fields: &[ImageField]) -> bool
    ensures { result ≡ rules.objects_may_be_inline image.now fields.now }
{
    fields
        .iter()
        .all(|field| object_may_be_inline(image, field))
}

/// Whether the n of a field is of its form.
pub fn n_is_of_form(field: &ImageField) -> bool
    ensures { result ≡ rules.n_is_of_form field.now }
{
    match field.form {
        0..=5 => field.n == 0,
        6 => 1 <= field.n && field.n <= 255,
        7 => 1 <= field.n && field.n <= 128,
        OBJECT => true,
        _ => 1 <= field.n,
    }
}

fn all_are_of_form(fields: &[ImageField]) -> bool
    ensures { result ≡ list_all rules.n_is_of_form fields.now }
{
    fields.iter().all(|field| n_is_of_form(field))
}

// How many bytes a primitive takes, by the number of its form.
pub(crate) fn primitive_width(form: u8) -> usize
    ensures width { result ≡ width_of (tables.primitive_of form) }
    ensures most { result ≤ 8 }
{
    match form {
        1 | 2 => 1,
        3 => 2,
        4 => 4,
        _ => 8,
    }
}

fn array_width(form: u8, count: u16) -> usize
    requires { 8 ≤ form }
    ensures width { result ≡ words.array_width form count }
    ensures most { result ≤ 524280 }
{
    usize::from(count) * primitive_width(form - 8)
}

fn object_width(image: &Image, class: u16) -> usize
    ensures { result ≡ words.object_width image.now class }
{
    match class_at(image, usize::from(class)) {
        Some(found) => found.contents.len(),
        None => 0,
    }
}

/// How many bytes a field takes.
pub fn field_width(image: &Image, field: &ImageField) -> usize
    ensures { result ≡ rules.field_width image.now field.now }
{
    match field.form {
        0..=5 => primitive_width(field.form),
        6 => usize::from(field.n),
        7 => usize::from(field.n) + 2,
        OBJECT => object_width(image, field.n),
        _ => array_width(field.form, field.n),
    }
}

// Whether what begins at an offset ends before a place, without a sum that might not fit.
fn ends_by(offset: u16, width: usize, place: usize) -> bool
    ensures { result ≡ words.ends_by offset width place }
{
    usize::from(offset) <= place && width <= place - usize::from(offset)
}

fn lies_within(image: &Image, size: usize, field: &ImageField) -> bool
    ensures { result ≡ words.lies_within image.now size field.now }
{
    ends_by(field.offset, field_width(image, field), size)
}

fn are_of_class_and_count(image: &Image, fields: &[ImageField]) -> bool
    ensures { result ≡ words.are_of_class_and_count image.now fields.now }
{
    object_fields_are_there(image, fields)
        && objects_may_be_inline(image, fields)
        && all_are_of_form(fields)
}

// Where a field ends that lies in data of a size.
fn end_of(image: &Image, size: usize, field: &ImageField) -> usize
    requires { words.lies_within image.now size field.now ≡ true }
    ensures end { result ≡ field.now.offset + rules.field_width image.now field.now }
    ensures within { result ≤ size }
{
    usize::from(field.offset) + field_width(image, field)
}

fn all_lie_within(image: &Image, size: usize, fields: &[ImageField]) -> bool
    ensures { result ≡ list_all (words.lies_within image.now size) fields.now }
{
    fields.iter().all(|field| lies_within(image, size, field))
}

// Whether no field so far takes a byte.
fn is_free(taken: &[bool], at: usize) -> bool
    ensures { result ≡ not (words.is_taken taken.now at) }
{
    at >= taken.len() || !taken[at]
}

fn are_free(taken: &[bool], from: usize, to: usize) -> bool
    ensures { result ≡ words.are_free taken.now from (to - from) }
{
    (from..to).all(|at| is_free(taken, at))
}

fn take_byte(taken: &mut Vec<bool>, at: usize)
    ensures { taken.new.items ≡ slice_set taken.old.items at true }
{
    if at < taken.len() {
        taken[at] = true;
    }
}

fn take_bytes(taken: &mut Vec<bool>, from: usize, to: usize)
    requires order { from ≤ to }
    requires within { to ≤ length taken.old.items }
    ensures { words.AreTaken taken.old.items taken.new.items from to }
{
    for at in from..to {
        take_byte(taken, at);
    }
}

fn none_taken(alloc: Global, size: usize) -> Result<Vec<bool>, AllocError>
    ensures { IfOk result (λ taken. taken.items ≡ replicate size false) }
{
    vec![in alloc; false; size]
}

// Takes the bytes of a field, where all of them are free.
fn take_field(taken: &mut Vec<bool>, from: usize, to: usize) -> bool
    requires order { from ≤ to }
    requires within { to ≤ length taken.old.items }
    ensures free { result ≡ words.are_free taken.old.items from (to - from) }
    ensures taken { OnTrue result (words.AreTaken taken.old.items taken.new.items from to) }
{
    if !are_free(taken.as_slice(), from, to) {
        return false;
    }
    take_bytes(taken, from, to);
    true
}

// Whether no two fields overlap: each takes its bytes, of which no other has any. Takes a truth for each byte of data.
fn all_apart(
    alloc: Global,
    image: &Image,
    size: usize,
    fields: &[ImageField],
) -> Result<bool, Memory>
    requires within { list_all (words.lies_within image.now size) fields.now ≡ true }
    requires wide { list_all (words.has_width image.now) fields.now ≡ true }
    ensures { IfOk result (λ apart. apart ≡ rules.all_apart image.now fields.now) }
{
    let mut taken = none_taken(alloc, size)?;
    for field in fields {
        let from = usize::from(field.offset);
        let to = end_of(image, size, field);
        if !take_field(&mut taken, from, to) {
            return Ok(false);
        }
    }
    Ok(true)
}

/// Whether fields are of classes and counts that they may have, lie in data of a size, and no two of them overlap.
///
/// Takes a truth for each byte of data.
pub fn fields_are_laid(
    alloc: Global,
    image: &Image,
    size: usize,
    fields: &[ImageField],
) -> Result<bool, Memory>
    ensures { IfOk result (λ laid. laid ≡ words.fields_are_laid image.now size fields.now) }
{
    if !are_of_class_and_count(image, fields) || !all_lie_within(image, size, fields) {
        return Ok(false);
    }
    all_apart(alloc, image, size, fields)
}
