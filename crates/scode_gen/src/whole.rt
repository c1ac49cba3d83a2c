//! The image of a whole program.
ghost use Rattle.std.specs.Prelude.{◌≡◌, ℕ, All, Err, IfOk, map};
ghost use Rattle.sed_typed.specs.Typed.{Typed};
ghost use Rattle.scode_entries.specs.Method.{image_method};
ghost use Rattle.scode_gen.specs.Generated.{IsFirstTooLong, IsShort, image_layout, image_of};
ghost use Rattle.scode_gen.specs.Parts.{AreParts};
ghost use Rattle.scode_gen.specs.declared.refusal.GenRefusal.TheVariants.{MethodTooLong};

use crate::copies::copied;
use crate::first_bytes::static_bytes;
use crate::image_classes::image_classes;
use crate::image_kits::image_kits;
use crate::methods::image_methods;
use crate::parts::{Parts, parts_of, rows_of};
use crate::refusal::GenRefusal;
use scode_image::{Image, ImageMethod};
use sed_typed::Program;
use sed_value::{Items, Memory};
use std::alloc::Global;

// The image of a program with these methods, which are its own.
fn image_with(
    alloc: Global,
    program: &Program,
    parts: &Parts,
    methods: Items<ImageMethod>,
) -> Result<Image, Memory>
    requires typed { Typed program.now }
    requires parts { AreParts program.now parts.now }
    requires methods { methods ≡ map (image_method program.now (image_layout program.now)) program.now.methods }
    ensures { IfOk result (λ image. image ≡ image_of program.now) }
{
    let rows = rows_of(program, parts);
    let kits = image_kits(alloc, program.schema.kits.as_slice())?;
    let classes = image_classes(alloc, &rows, program.schema.classes.as_slice())?;
    let static_fields = copied(alloc, parts.statics.as_slice())?;
    let static_bytes = static_bytes(alloc, program, &parts.own)?;
    let texts = copied(alloc, program.texts.as_slice())?;
    Ok(Image {
        kits,
        classes,
        static_fields,
        static_bytes,
        texts,
        methods,
    })
}

/// The image of a typed program.
///
/// `MethodTooLong` comes where the code of a method passes 65,535 bytes, and names the first of these by its number in
/// the program's list; no image is made then. `Memory` comes where memory is refused.
pub fn generate(alloc: Global, program: &Program) -> Result<Image, GenRefusal>
    requires { Typed program.now }
    ensures made { IfOk result (λ image. image ≡ image_of program.now) }
    ensures short { IfOk result (λ _. All (IsShort program.now) program.now.methods) }
    ensures too_long { (n : ℕ) → result ≡ Err (MethodTooLong n) → IsFirstTooLong program.now n }
{
    let parts = parts_of(alloc, program)?;
    let rows = rows_of(program, &parts);
    let all = program.methods.as_slice();
    match image_methods(alloc, &rows, parts.statics.as_slice(), all) {
        Ok(methods) => Ok(image_with(alloc, program, &parts, methods)?),
        Err(refusal) => Err(refusal),
    }
}
