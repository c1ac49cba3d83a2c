//! Methods as they stand in an image.
ghost use Rattle.std.specs.Prelude.{◌≡◌, ◌<◌, ◌++◌, ◌∷◌, [], ℕ, All, Err, IfOk, OnOk, Some, map, slice_get};
ghost use Rattle.sed_typed.specs.Typed.{IsMethod};
ghost use Rattle.scode_emit.specs.Method.{size_of};
ghost use Rattle.scode_entries.specs.Method.{image_method};
ghost use Rattle.scode_entries.specs.declared.refusal.EmitRefusal.TheVariants.{TooLong};
ghost use Rattle.scode_gen.specs.ClassRows.{AreRows};
ghost use Rattle.scode_gen.specs.Generated.{IsFirstTooLong, IsShort, image_layout};
ghost use Rattle.scode_gen.specs.ImageFields.{static_fields};
ghost use Rattle.scode_gen.specs.declared.refusal.GenRefusal.TheVariants.{MethodTooLong};

use crate::image_classes::ClassRows;
use crate::refusal::GenRefusal;
use scode_entries::{EmitRefusal, emit_method};
use scode_image::{ImageField, ImageMethod};
use sed_layout::numbers_are_small;
use sed_typed::Method;
use sed_value::{Items, Memory};
use std::alloc::Global;

fn push_method(made: &mut Vec<ImageMethod>, next: ImageMethod) -> Result<(), Memory>
    ensures { OnOk result (made.new.items ≡ made.old.items ++ next ∷ []) }
{
    made.push(next)?;
    Ok(())
}

// A method, which is refused as too long exactly where its code is.
fn compiled(
    alloc: Global,
    rows: &ClassRows<'_>,
    statics: &[ImageField],
    method: &Method,
) -> Result<ImageMethod, EmitRefusal>
    requires rows { AreRows rows.now }
    requires statics { statics.now ≡ static_fields rows.now.program.now }
    requires method { IsMethod rows.now.program.now method.now }
    ensures made { IfOk result (λ made.
        made ≡ image_method rows.now.program.now (image_layout rows.now.program.now) method.now) }
    ensures short { IfOk result (λ _. IsShort rows.now.program.now method.now) }
    ensures too_long { result ≡ Err TooLong
        → 65535 < size_of rows.now.program.now (image_layout rows.now.program.now) method.now }
{
    emit_method(
        alloc,
        rows.program,
        rows.fields,
        statics,
        rows.tables,
        method,
    )
}

// Adds a method with its number, which is refused exactly where its code is too long.
fn push_compiled(
    alloc: Global,
    rows: &ClassRows<'_>,
    statics: &[ImageField],
    number: u16,
    method: &Method,
    made: &mut Vec<ImageMethod>,
) -> Result<(), GenRefusal>
    requires rows { AreRows rows.now }
    requires statics { statics.now ≡ static_fields rows.now.program.now }
    requires method { slice_get rows.now.program.now.methods number ≡ Some method.now }
    ensures made { OnOk result (made.new.items ≡ made.old.items
        ++ image_method rows.now.program.now (image_layout rows.now.program.now) method.now ∷ []) }
    ensures short { OnOk result (IsShort rows.now.program.now method.now) }
    ensures number { (n : ℕ) → result ≡ Err (MethodTooLong n) → n ≡ number }
    ensures too_long { (n : ℕ) → result ≡ Err (MethodTooLong n)
        → 65535 < size_of rows.now.program.now (image_layout rows.now.program.now) method.now }
{
    match compiled(alloc, rows, statics, method) {
        Ok(next) => {
            push_method(made, next)?;
            Ok(())
        }
        Err(EmitRefusal::TooLong) => Err(GenRefusal::MethodTooLong(number)),
        Err(EmitRefusal::Memory) => Err(GenRefusal::Memory),
    }
}

/// These methods of a program, which are all of them. One is refused where its code is too long, the first of those
/// whose code is.
pub(crate) fn image_methods(
    alloc: Global,
    rows: &ClassRows<'_>,
    statics: &[ImageField],
    all: &[Method],
) -> Result<Items<ImageMethod>, GenRefusal>
    requires rows { AreRows rows.now }
    requires statics { statics.now ≡ static_fields rows.now.program.now }
    requires all { all.now ≡ rows.now.program.now.methods }
    ensures made { IfOk result (λ made. made
        ≡ map (image_method rows.now.program.now (image_layout rows.now.program.now)) all.now) }
    ensures short { IfOk result (λ _. All (IsShort rows.now.program.now) all.now) }
    ensures too_long { (n : ℕ) → result ≡ Err (MethodTooLong n) → IsFirstTooLong rows.now.program.now n }
{
    numbers_are_small();
    let mut made = Vec::new(alloc);
    for (number, method) in all.iter().enumerate() {
        match push_compiled(alloc, rows, statics, number as u16, method, &mut made) {
            Ok(()) => {}
            Err(refusal) => return Err(refusal),
        }
    }
    Ok(Items::new(made))
}
