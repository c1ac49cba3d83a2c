//! The rule on fields: an object has the field that is asked for.
ghost use Rattle.std.specs.Prelude.{◌≡◌, ◌&&◌, ◌==◌, is_some, List, option_copied, reverse, slice_get, true};
ghost use Rattle.std.specs.Bool.{OnTrue};
ghost use Rattle.scode_image.specs.declared.image.Image.{Image as AnyImage};
ghost use Rattle.scode_image.specs.declared.image.ImageKind.{ImageKind as AnyKind};
ghost use Rattle.scode_code.specs.CodeRules as rules;
ghost use Rattle.scode_code.specs.Fields as fields;
ghost use Rattle.scode_code.specs.Tables as tables;
ghost use Rattle.scode_rules.specs.Words as words;

use crate::cells::cell_at;
use crate::indexed::Indexed;
use crate::kinds::{is_null, is_statics};
use scode_image::{Image, ImageField, ImageKind};
use scode_ops::Op;
use scode_tables::{field_number, fields_of};

// The field that an instruction asks of the object so deep under the top.
#[derive(Clone, Copy, Debug, PartialEq, Eq)]
pub(crate) struct FieldNeed {
    pub depth: u8,
    pub form: u8,
    pub offset: u16,
    pub n: u16,
}

fn field(depth: u8, form: u8, offset: u16, n: u16) -> Option<FieldNeed>
    ensures { result ≡ words.asks depth form offset n }
{
    Some(FieldNeed {
        depth,
        form,
        offset,
        n,
    })
}

// The field that an instruction asks for, of whatever length where it is a Buf.
fn asked(op: Op) -> Option<FieldNeed>
    ensures { (image : AnyImage) (stack : List AnyKind)
        → words.missing image stack op ≡ words.missing_by image stack result }
{
    match op {
        Op::GetBool(offset) => field(0, 1, offset, 0),
        Op::GetByte(offset) => field(0, 2, offset, 0),
        Op::GetShort(offset) => field(0, 3, offset, 0),
        Op::GetInt(offset) => field(0, 4, offset, 0),
        Op::GetLong(offset) => field(0, 5, offset, 0),
        Op::PutBool(offset) => field(1, 1, offset, 0),
        Op::PutByte(offset) => field(1, 2, offset, 0),
        Op::PutShort(offset) => field(1, 3, offset, 0),
        Op::PutInt(offset) => field(1, 4, offset, 0),
        Op::PutLong(offset) => field(1, 5, offset, 0),
        Op::Inner { offset, class } => field(0, 8, offset, class),
        Op::Str { offset, size } => field(0, 6, offset, size),
        Op::BufGet { offset, capacity } => field(1, 7, offset, capacity),
        Op::ArrayGetBool { offset, count } => field(1, 9, offset, count),
        Op::ArrayGetByte { offset, count } => field(1, 10, offset, count),
        Op::ArrayGetShort { offset, count } => field(1, 11, offset, count),
        Op::ArrayGetInt { offset, count } => field(1, 12, offset, count),
        Op::ArrayGetLong { offset, count } => field(1, 13, offset, count),
        Op::ArrayPutBool { offset, count } => field(2, 9, offset, count),
        Op::ArrayPutByte { offset, count } => field(2, 10, offset, count),
        Op::ArrayPutShort { offset, count } => field(2, 11, offset, count),
        Op::ArrayPutInt { offset, count } => field(2, 12, offset, count),
        Op::ArrayPutLong { offset, count } => field(2, 13, offset, count),
        _ => None,
    }
}

fn fields_of_kind(image: &Image, kind: ImageKind) -> &[ImageField]
    ensures { result.now ≡ rules.fields_of_kind image.now kind }
{
    if is_statics(kind) {
        return image.static_fields.as_slice();
    }
    fields_of(image, usize::from(kind.class))
}

// The number of the field of an object that begins at an offset, if any does, or of another one.
fn likely(image: &Indexed<'_>, kind: ImageKind, offset: u16) -> usize {
    if is_statics(kind) {
        return image.field_of_statics(offset);
    }
    image.field_of_class(kind.class, offset)
}

fn field_at(all: &[ImageField], number: usize) -> Option<&ImageField>
    ensures { option_copied result ≡ slice_get all.now number }
{
    all.get(number)
}

fn is_the_one(field: &ImageField, need: FieldNeed) -> bool
    ensures { result ≡ tables.is_field need.form need.offset need.n field.now }
{
    field.form == need.form && field.offset == need.offset && field.n == need.n
}

// Whether the field of a number is the one asked for.
fn is_asked(all: &[ImageField], number: usize, need: FieldNeed) -> bool
    ensures { OnTrue result (is_some (tables.field_number all.now need.form need.offset need.n) ≡ true) }
{
    match field_at(all, number) {
        Some(field) => is_the_one(field, need),
        None => false,
    }
}

fn has_field(image: &Indexed<'_>, kind: ImageKind, need: FieldNeed) -> bool
    ensures { result
        ≡ is_some (tables.field_number (rules.fields_of_kind image.now kind) need.form need.offset need.n) }
{
    let all = fields_of_kind(image.image(), kind);
    is_asked(all, likely(image, kind, need.offset), need)
        || field_number(all, need.form, need.offset, need.n).is_some()
}

fn lacks_field(image: &Indexed<'_>, kind: Option<ImageKind>, need: FieldNeed) -> bool
    ensures { result ≡ rules.lacks_field image.now kind need.form need.offset need.n }
{
    match kind {
        Some(kind) => !is_null(kind) && !has_field(image, kind, need),
        None => false,
    }
}

fn buf_number(all: &[ImageField], offset: u16) -> Option<usize>
    ensures { result ≡ fields.buf_number all.now offset }
{
    all.iter()
        .position(|field| field.form == 7 && field.offset == offset)
}

fn is_buf_at(field: &ImageField, offset: u16) -> bool
    ensures { result ≡ ((field.now.form == 7) && (field.now.offset == offset)) }
{
    field.form == 7 && field.offset == offset
}

// Whether the field of a number is a Buf at an offset.
fn is_buf(all: &[ImageField], number: usize, offset: u16) -> bool
    ensures { OnTrue result (is_some (fields.buf_number all.now offset) ≡ true) }
{
    match field_at(all, number) {
        Some(field) => is_buf_at(field, offset),
        None => false,
    }
}

fn has_buf(image: &Indexed<'_>, kind: ImageKind, offset: u16) -> bool
    ensures { result ≡ is_some (fields.buf_number (rules.fields_of_kind image.now kind) offset) }
{
    let all = fields_of_kind(image.image(), kind);
    is_buf(all, likely(image, kind, offset), offset) || buf_number(all, offset).is_some()
}

fn lacks_buf(image: &Indexed<'_>, kind: Option<ImageKind>, offset: u16) -> bool
    ensures { result ≡ rules.lacks_buf image.now kind offset }
{
    match kind {
        Some(kind) => !is_null(kind) && !has_buf(image, kind, offset),
        None => false,
    }
}

fn lacks_asked(image: &Indexed<'_>, stack: &[ImageKind], op: Op) -> bool
    ensures { result ≡ words.missing image.now (reverse stack.now) op }
{
    match asked(op) {
        Some(need) => lacks_field(image, cell_at(stack, usize::from(need.depth)), need),
        None => false,
    }
}

/// Whether an object on the stack has no field of the form, offset and n that an instruction asks for. Of null nothing
/// is said.
pub fn field_missing(image: &Indexed<'_>, stack: &[ImageKind], op: Op) -> bool
    ensures { result ≡ rules.field_missing image.now (reverse stack.now) op }
{
    match op {
        Op::BufSize(offset) => lacks_buf(image, cell_at(stack, 0), offset),
        _ => lacks_asked(image, stack, op),
    }
}
