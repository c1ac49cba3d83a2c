//! Classes as they stand in an image.
ghost use Rattle.std.specs.Prelude.{◌≡◌, IfOk, Some, slice_get};
ghost use Rattle.scode_gen.specs.Classes as classes;
ghost use Rattle.scode_gen.specs.ClassRows.{AreRows};

use crate::class_fields::fields_of_class;
use crate::copies::copied;
use crate::first_bytes::first_bytes;
use crate::image_slots::{ClassParts, slots_of_class};
use scode_image::{ImageClass, ImageField};
use sed_layout::{row_at, tables_have_each_virtual_method};
use sed_typed::{ClassInfo, Field, Program};
use sed_value::{Items, Memory};
use std::alloc::Global;

/// A program, and for each class the fields that it declares, the offsets of its fields, its fields as they stand in
/// an image, and its table of methods.
#[derive(Clone, Copy)]
pub(crate) struct ClassRows<'a> {
    pub(crate) program: &'a Program,
    pub(crate) own: &'a [Items<Field>],
    pub(crate) offsets: &'a [Items<u16>],
    pub(crate) fields: &'a [Items<ImageField>],
    pub(crate) tables: &'a [Items<u16>],
}

// The number of the base, 0xffff for none.
fn base_number(info: &ClassInfo) -> u16
    ensures { result ≡ classes.base_number info.now }
{
    match info.base {
        Some(base) => base.0,
        None => 0xffff,
    }
}

// 1 says abstract, 2 component.
fn class_flags(info: &ClassInfo) -> u8
    ensures { result ≡ classes.class_flags info.now }
{
    let is_abstract = if info.is_abstract { 1 } else { 0 };
    let is_component = if info.is_component { 2 } else { 0 };
    is_abstract + is_component
}

fn image_class(
    alloc: Global,
    rows: &ClassRows<'_>,
    class: usize,
    info: &ClassInfo,
) -> Result<ImageClass, Memory>
    requires rows { AreRows rows.now }
    requires class { slice_get rows.now.program.now.schema.classes class ≡ Some info.now }
    ensures { IfOk result (λ made. made ≡ classes.image_class rows.now.program.now class info.now) }
{
    tables_have_each_virtual_method();
    let all = fields_of_class(alloc, rows.program, rows.own, class)?;
    let parts = ClassParts {
        program: rows.program,
        class,
        all: &all,
        offsets: row_at(rows.offsets, class),
        table: row_at(rows.tables, class),
    };
    let slots = slots_of_class(alloc, &parts, info.slots.as_slice())?;
    let contents = first_bytes(alloc, rows.program, rows.own, class)?;
    let name = copied(alloc, info.name.as_bytes())?;
    let fields = copied(alloc, row_at(rows.fields, class))?;
    let table = copied(alloc, parts.table)?;
    Ok(ImageClass {
        kit: info.kit,
        number: info.number,
        name,
        base: base_number(info),
        flags: class_flags(info),
        fields,
        slots,
        table,
        contents,
    })
}

/// These classes of a program, which are all of them.
pub(crate) fn image_classes(
    alloc: Global,
    rows: &ClassRows<'_>,
    all: &[ClassInfo],
) -> Result<Items<ImageClass>, Memory>
    requires rows { AreRows rows.now }
    requires all { all.now ≡ rows.now.program.now.schema.classes }
    ensures { IfOk result (λ made. made ≡ classes.image_classes rows.now.program.now all.now) }
{
    let mut made = Vec::new(alloc);
    for (class, info) in all.iter().enumerate() {
        made.push(image_class(alloc, rows, class, info)?)?;
    }
    Ok(Items::new(made))
}
