//! What is made of a program before its methods.
ghost use Rattle.std.specs.Prelude.{◌≡◌, IfOk};
ghost use Rattle.sed_typed.specs.Typed.{Typed};
ghost use Rattle.scode_gen.specs.ClassRows.{AreRows};
ghost use Rattle.scode_gen.specs.Parts.{AreParts};

use crate::class_fields::declared_by_classes;
use crate::image_classes::ClassRows;
use crate::image_fields::{fields_of_classes, fields_of_statics};
use scode_image::ImageField;
use sed_layout::{Layout, layout};
use sed_typed::{Field, Program};
use sed_value::{Items, Memory};
use std::alloc::Global;

/// For each class the fields that it declares; where the data and methods lie; and for each class its fields, and the
/// statics, as they stand in an image.
#[derive(Drop)]
pub(crate) struct Parts {
    pub(crate) own: Vec<Items<Field>>,
    pub(crate) places: Layout,
    pub(crate) fields: Vec<Items<ImageField>>,
    pub(crate) statics: Items<ImageField>,
}

/// The parts of a program.
pub(crate) fn parts_of(alloc: Global, program: &Program) -> Result<Parts, Memory>
    requires { Typed program.now }
    ensures { IfOk result (λ parts. AreParts program.now parts) }
{
    let places = layout(alloc, program)?;
    let own = declared_by_classes(alloc, program)?;
    let fields = fields_of_classes(alloc, program, &own, places.offsets.as_slice())?;
    let statics = fields_of_statics(alloc, program, places.statics.as_slice())?;
    Ok(Parts {
        own,
        places,
        fields,
        statics,
    })
}

/// The rows of these parts.
pub(crate) fn rows_of<'a>(program: &'a Program, parts: &'a Parts) -> ClassRows<'a>
    requires typed { Typed program.now }
    requires parts { AreParts program.now parts.now }
    ensures program { result.program.now ≡ program.now }
    ensures rows { AreRows result }
{
    ClassRows {
        program,
        own: &parts.own,
        offsets: parts.places.offsets.as_slice(),
        fields: &parts.fields,
        tables: parts.places.tables.as_slice(),
    }
}
