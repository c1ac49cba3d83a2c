//! An image, and beside it what makes the questions short that code asks again and again.
ghost use Rattle.std.specs.Prelude.{◌≡◌, ◌<◌, false, IfOk, slice_index_or};
ghost use Rattle.scode_code.specs.Kinds as kinds;
ghost use Rattle.scode_rules.specs.Words as words;

use scode_image::{Image, ImageField};
use scode_tables::is_at_or_above;
use sed_value::{Items, Memory};
use std::alloc::{AllocError, Global};
use std::marker::Model;

// Whether the place of a row is told.
fn is_true_at(row: &[bool], place: usize) -> bool
    ensures { result ≡ slice_index_or row.now place false }
{
    if place < row.len() {
        return row[place];
    }
    false
}

fn is_told(rows: &[Items<bool>], class: usize, above: usize) -> bool
    ensures { result ≡ words.is_told rows.now class above }
{
    match rows.get(class) {
        Some(row) => is_true_at(row.as_slice(), above),
        None => false,
    }
}

// Which of the classes up to one are it or above it.
#[tactic(auto, using(crate::proofs::Above::none_above, crate::proofs::Above::row_more))]
fn row_above(alloc: Global, image: &Image, class: usize) -> Result<Vec<bool>, Memory>
    requires { class < 18446744073709551615 }
    ensures { IfOk result (λ row. words.IsAbove image.now class row.items) }
{
    let mut row = Vec::new(alloc);
    for above in 0..class + 1 {
        row.push(is_at_or_above(image, above, class))?;
    }
    Ok(row)
}

#[tactic(auto, using(crate::proofs::Above::rows_more))]
fn classes_above(alloc: Global, image: &Image) -> Result<Vec<Items<bool>>, Memory>
    ensures { IfOk result (λ rows. words.AreAbove image.now rows.items) }
{
    let mut rows = Vec::new(alloc);
    for class in 0..image.classes.len() {
        let row = row_above(alloc, image, class)?;
        rows.push(Items::new(row))?;
    }
    Ok(rows)
}

// For each byte of data the number of a field that begins there, if any does. Who asks looks whether it is the one.
fn numbers_of(alloc: Global, size: usize, fields: &[ImageField]) -> Result<Vec<u16>, AllocError> {
    let mut numbers = vec![in alloc; 0; size]?;
    for number in 0..fields.len() {
        let offset = usize::from(fields[number].offset);
        if offset < numbers.len() {
            numbers[offset] = number.min(65535) as u16;
        }
    }
    Ok(numbers)
}

fn class_fields(alloc: Global, image: &Image) -> Result<Vec<Items<u16>>, Memory> {
    let mut rows = Vec::new(alloc);
    for class in image.classes.as_slice() {
        let numbers = numbers_of(alloc, class.contents.len(), class.fields.as_slice())?;
        rows.push(Items::new(numbers))?;
    }
    Ok(rows)
}

fn number_at(numbers: &[u16], offset: u16) -> usize {
    match numbers.get(usize::from(offset)) {
        Some(number) => usize::from(*number),
        None => 0,
    }
}

/// An image, and beside it which classes are above which, and a field for each byte of data. Contracts see the image.
#[derive(Drop)]
pub struct Indexed<'a> {
    image: &'a Image,
    // Of each class, whether those up to it are it or above it.
    above: Vec<Items<bool>>,
    // Of each class, for each byte of its data the number of a field that begins there, or of any other one.
    fields: Vec<Items<u16>>,
    // And of the static block.
    static_fields: Vec<u16>,
}

impl<'a> Model for Indexed<'a> {
    ghost use Rattle.scode_image.specs.declared.image.Image.{Image as AnyImage};
    ghost use Rattle.scode_rules.specs.Words.{AreAbove};

    ghost Value = { AnyImage };

    ghost view = { λ i. i.image.now };

    ghost invariant = { λ i. AreAbove i.image.now i.above.items };
}

impl<'a> Indexed<'a> {
    /// An image with its index.
    ///
    /// Takes two bytes for each byte of first contents, and a truth for each two classes; want of memory is the only
    /// refusal.
    pub fn new(alloc: Global, image: &'a Image) -> Result<Indexed<'a>, Memory>
        ensures { IfOk result (λ i. i ≡ image.now) }
    {
        Ok(Indexed {
            image,
            above: classes_above(alloc, image)?,
            fields: class_fields(alloc, image)?,
            static_fields: numbers_of(
                alloc,
                image.static_bytes.len(),
                image.static_fields.as_slice(),
            )?,
        })
    }

    /// The image.
    pub fn image(&self) -> &Image
        ensures { result.now ≡ self.now }
    {
        self.image
    }

    /// Whether a class is the first one, or has it among its bases.
    #[tactic(auto, using(crate::proofs::Above::told_above))]
    pub fn is_at_or_above(&self, above: u16, class: u16) -> bool
        ensures { result ≡ kinds.is_at_or_above self.now above class }
    {
        let (above, class) = (usize::from(above), usize::from(class));
        is_told(self.above.as_slice(), class, above) || is_at_or_above(self.image, above, class)
    }

    // The number of the field of a class that begins at an offset, if any does, or of another one.
    pub(crate) fn field_of_class(&self, class: u16, offset: u16) -> usize {
        match self.fields.get(usize::from(class)) {
            Some(numbers) => number_at(numbers.as_slice(), offset),
            None => 0,
        }
    }

    // And of the static block.
    pub(crate) fn field_of_statics(&self, offset: u16) -> usize {
        number_at(self.static_fields.as_slice(), offset)
    }
}
