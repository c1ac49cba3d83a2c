//! The first bytes of objects and of the statics.
ghost use Rattle.std.specs.Prelude.{◌≡◌, ◌<◌, ◌≤◌, ◌++◌, All, IfOk, IsTrue, OnOk, length, replicate};
ghost use Rattle.std.specs.Int.{bytes_high_first};
ghost use Rattle.sed_value.specs.SlotType.{width_of};
ghost use Rattle.sed_value.specs.Value.{is_of_type};
ghost use Rattle.sed_value.specs.declared.slot_type.SlotType.TheVariants.{Prim as PrimSlot, Buf as BufSlot};
ghost use Rattle.sed_typed.specs.Classes.{declared_fields};
ghost use Rattle.sed_typed.specs.Typed.{Typed};
ghost use Rattle.sed_typed.specs.TypedSchema.{IsField};
ghost use Rattle.sed_layout.specs.Offsets.{of_classes};
ghost use Rattle.scode_gen.specs.FirstBytes as first;
ghost use Rattle.scode_gen.specs.FirstBytes.{buf_bytes, contents_in, field_bytes, fields_bytes};
ghost use Rattle.scode_gen.specs.FirstBytes.{number_in, object_bytes};

use crate::class_fields::fields_of_class;
use sed_layout::fields_go_by_bases;
use sed_typed::{Field, FieldForm, Program};
use sed_value::{Items, Memory, Prim, Value};
use std::alloc::Global;

fn push_zeros(bytes: &mut Vec<u8>, count: usize) -> Result<(), Memory>
    ensures { OnOk result (bytes.new.items ≡ bytes.old.items ++ replicate count 0) }
{
    for _ in 0..count {
        bytes.push(0)?;
    }
    Ok(())
}

// Adds a value of a primitive, the highest byte first.
fn push_value(bytes: &mut Vec<u8>, prim: Prim, value: &Value) -> Result<(), Memory>
    requires { IsTrue (is_of_type (PrimSlot prim) value.now) }
    ensures { OnOk result (bytes.new.items
        ≡ bytes.old.items ++ bytes_high_first (width_of prim) (number_in value.now)) }
{
    match value {
        Value::Bool(truth) => bytes.push(*truth)?,
        Value::Byte(number) => bytes.push(*number)?,
        Value::Short(number) => bytes.extend_from_slice(&number.to_be_bytes())?,
        Value::Int(number) => bytes.extend_from_slice(&number.to_be_bytes())?,
        Value::Long(number) => bytes.extend_from_slice(&number.to_be_bytes())?,
        Value::Buf(_) | Value::Nothing => {}
    }
    Ok(())
}

// The contents of a buffer.
fn contents_of(value: &Value) -> &[u8]
    ensures { result.now ≡ contents_in value.now }
{
    match value {
        Value::Buf(contents) => contents.as_bytes(),
        _ => &[],
    }
}

// Adds contents in a Buf of a room.
fn push_buf(bytes: &mut Vec<u8>, room: u8, contents: &[u8]) -> Result<(), Memory>
    requires { length contents.now ≤ room }
    ensures { OnOk result (bytes.new.items ≡ bytes.old.items ++ buf_bytes room contents.now) }
{
    let count = contents.len() as u16;
    bytes.extend_from_slice(&count.to_be_bytes())?;
    bytes.extend_from_slice(contents)?;
    push_zeros(bytes, usize::from(room) - contents.len())
}

// Adds what a field begins with, where objects are inside it at most so deep.
#[cycle(objects)]
fn push_field(
    alloc: Global,
    program: &Program,
    own: &[Items<Field>],
    depth: usize,
    field: &Field,
    bytes: &mut Vec<u8>,
) -> Result<(), Memory>
    requires typed { Typed program.now }
    requires own { own.now ≡ of_classes program.now (declared_fields program.now.fields) }
    requires field { IsField program.now field.now }
    ensures { OnOk result (bytes.new.items
        ≡ bytes.old.items ++ field_bytes (object_bytes program.now depth) field.now.form field.now.initial) }
{
    match field.form {
        FieldForm::Prim(prim) => push_value(bytes, prim, &field.initial),
        FieldForm::Str(size) => push_zeros(bytes, usize::from(size)),
        FieldForm::Buf(room) => push_buf(bytes, room, contents_of(&field.initial)),
        FieldForm::Array(prim, count) => {
            push_zeros(bytes, usize::from(count) * usize::from(prim.width()))
        }
        FieldForm::Object(class) => {
            push_object(alloc, program, own, depth, usize::from(class.0), bytes)
        }
    }
}

// Adds what fields begin with, one behind another.
#[cycle(objects)]
fn push_fields(
    alloc: Global,
    program: &Program,
    own: &[Items<Field>],
    depth: usize,
    all: &[Field],
    bytes: &mut Vec<u8>,
) -> Result<(), Memory>
    requires typed { Typed program.now }
    requires own { own.now ≡ of_classes program.now (declared_fields program.now.fields) }
    requires fields { All (IsField program.now) all.now }
    ensures { OnOk result (bytes.new.items
        ≡ bytes.old.items ++ fields_bytes (object_bytes program.now depth) all.now) }
{
    for field in all {
        push_field(alloc, program, own, depth, field, bytes)?;
    }
    Ok(())
}

// Adds what an object of a class begins with, objects being inside one another at most so deep.
#[cycle(objects)]
fn push_object(
    alloc: Global,
    program: &Program,
    own: &[Items<Field>],
    depth: usize,
    class: usize,
    bytes: &mut Vec<u8>,
) -> Result<(), Memory>
    requires typed { Typed program.now }
    requires own { own.now ≡ of_classes program.now (declared_fields program.now.fields) }
    requires class { class < length program.now.schema.classes }
    ensures { OnOk result (bytes.new.items ≡ bytes.old.items ++ object_bytes program.now depth class) }
{
    fields_go_by_bases();
    if depth == 0 {
        return Ok(());
    }
    let all = fields_of_class(alloc, program, own, class)?;
    push_fields(alloc, program, own, depth - 1, &all, bytes)
}

/// The first bytes of a new object of a class.
pub(crate) fn first_bytes(
    alloc: Global,
    program: &Program,
    own: &[Items<Field>],
    class: usize,
) -> Result<Items<u8>, Memory>
    requires typed { Typed program.now }
    requires own { own.now ≡ of_classes program.now (declared_fields program.now.fields) }
    requires class { class < length program.now.schema.classes }
    ensures { IfOk result (λ bytes. bytes ≡ first.first_bytes program.now class) }
{
    let mut bytes = Vec::new(alloc);
    push_object(
        alloc,
        program,
        own,
        program.schema.classes.len(),
        class,
        &mut bytes,
    )?;
    Ok(Items::new(bytes))
}

/// The bytes of the statics before any event.
pub(crate) fn static_bytes(
    alloc: Global,
    program: &Program,
    own: &[Items<Field>],
) -> Result<Items<u8>, Memory>
    requires typed { Typed program.now }
    requires own { own.now ≡ of_classes program.now (declared_fields program.now.fields) }
    ensures { IfOk result (λ bytes. bytes ≡ first.static_bytes program.now) }
{
    let mut bytes = Vec::new(alloc);
    let depth = program.schema.classes.len();
    push_fields(
        alloc,
        program,
        own,
        depth,
        program.statics.as_slice(),
        &mut bytes,
    )?;
    Ok(Items::new(bytes))
}
