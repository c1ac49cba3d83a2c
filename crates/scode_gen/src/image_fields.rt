//! Fields as they stand in an image.
ghost use Rattle.std.specs.Prelude.{◌≡◌, ◌≤◌, IfOk, length, slice_index};
ghost use Rattle.sed_typed.specs.Classes.{declared_fields};
ghost use Rattle.sed_typed.specs.Typed.{Typed};
ghost use Rattle.sed_layout.specs.Offsets.{of_classes, offsets_of, static_offsets};
ghost use Rattle.scode_gen.specs.ImageFields.{class_fields, fields_placed, static_fields};
ghost use Rattle.scode_gen.specs.ImageFields.{image_field as field_in, primitive_number as number_in};

use crate::class_fields::fields_of_class;
use scode_image::ImageField;
use sed_layout::row_at;
use sed_typed::{Field, FieldForm, Program};
use sed_value::{Items, Memory, Prim};
use std::alloc::Global;

/// The number of a primitive among the forms of fields and slots.
pub(crate) fn primitive_number(prim: Prim) -> u8
    ensures { result ≡ number_in prim }
{
    match prim {
        Prim::Bool => 1,
        Prim::Byte => 2,
        Prim::Short => 3,
        Prim::Int => 4,
        Prim::Long => 5,
    }
}

// A field of this form at an offset.
fn image_field(offset: u16, form: FieldForm) -> ImageField
    ensures { result ≡ field_in offset form }
{
    let (form, n) = match form {
        FieldForm::Prim(prim) => (primitive_number(prim), 0),
        FieldForm::Str(size) => (6, u16::from(size)),
        FieldForm::Buf(room) => (7, u16::from(room)),
        FieldForm::Object(class) => (8, class.0),
        FieldForm::Array(prim, count) => (8 + primitive_number(prim), count),
    };
    ImageField { offset, form, n }
}

// Fields that stand at these offsets.
fn fields_at(alloc: Global, all: &[Field], offsets: &[u16]) -> Result<Items<ImageField>, Memory>
    requires { length all.now ≤ length offsets.now }
    ensures { IfOk result (λ placed. placed ≡ fields_placed (slice_index offsets.now) all.now) }
{
    let mut placed = Vec::new(alloc);
    for (number, field) in all.iter().enumerate() {
        placed.push(image_field(offsets[number], field.form))?;
    }
    Ok(Items::new(placed))
}

/// For each class its fields, inherited ones first.
pub(crate) fn fields_of_classes(
    alloc: Global,
    program: &Program,
    own: &[Items<Field>],
    offsets: &[Items<u16>],
) -> Result<Vec<Items<ImageField>>, Memory>
    requires typed { Typed program.now }
    requires own { own.now ≡ of_classes program.now (declared_fields program.now.fields) }
    requires offsets { offsets.now ≡ of_classes program.now (offsets_of program.now) }
    ensures { IfOk result (λ rows. rows.items ≡ of_classes program.now (class_fields program.now)) }
{
    let mut rows = Vec::new(alloc);
    for class in 0..program.schema.classes.len() {
        let all = fields_of_class(alloc, program, own, class)?;
        rows.push(fields_at(alloc, &all, row_at(offsets, class))?)?;
    }
    Ok(rows)
}

/// The statics.
pub(crate) fn fields_of_statics(
    alloc: Global,
    program: &Program,
    offsets: &[u16],
) -> Result<Items<ImageField>, Memory>
    requires { offsets.now ≡ static_offsets program.now }
    ensures { IfOk result (λ placed. placed ≡ static_fields program.now) }
{
    fields_at(alloc, program.statics.as_slice(), offsets)
}
