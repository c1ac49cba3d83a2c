//! What code is made for.
ghost use Rattle.std.specs.Prelude.{◌≡◌, ◌≤◌, ◌==◌, position, [], slice_get};
ghost use Rattle.std.specs.Option.{option_map_or};
ghost use Rattle.scode_emit.specs.Site as site;
ghost use Rattle.scode_emit.specs.Rows as rows;

use scode_image::ImageField;
use sed_typed::{Kind, Program};
use sed_value::{Items, Prim};

/// A method of a program, which has so many locals of its own, and where the program's data lie: for each class its
/// fields, inherited ones first, and its table of methods; and the statics.
#[derive(Clone, Copy)]
pub struct Site<'a> {
    pub program: &'a Program,
    pub fields: &'a [Items<ImageField>],
    pub statics: &'a [ImageField],
    pub tables: &'a [Items<u16>],
    pub class: u16,
    pub locals: u8,
}

// The class of an object's kind.
pub(crate) fn class_of(kind: Kind) -> u16
    ensures { result ≡ site.class_of kind }
{
    match kind {
        Kind::Object(class) => class.0,
        _ => 0,
    }
}

// The fields of a class.
fn fields_of(fields: &[Items<ImageField>], class: u16) -> &[ImageField]
    ensures { result.now ≡ option_map_or (λ row. row) (slice_get fields.now class) [] }
{
    match fields.get(usize::from(class)) {
        Some(row) => row.as_slice(),
        None => &[],
    }
}

// The methods in the table of a class.
fn table_of(tables: &[Items<u16>], class: u16) -> &[u16]
    ensures { result.now ≡ option_map_or (λ row. row) (slice_get tables.now class) [] }
{
    match tables.get(usize::from(class)) {
        Some(row) => row.as_slice(),
        None => &[],
    }
}

// The offset of a field among others.
fn offset_at(fields: &[ImageField], number: u16) -> u16
    ensures { result ≡ rows.offset_at fields.now number }
{
    match fields.get(usize::from(number)) {
        Some(field) => field.offset,
        None => 0,
    }
}

// How much room a field among others has.
fn room_at(fields: &[ImageField], number: u16) -> u16
    ensures { result ≡ rows.room_at fields.now number }
{
    match fields.get(usize::from(number)) {
        Some(field) => field.n,
        None => 0,
    }
}

// The place of a method in a table.
fn place_at(table: &[u16], method: u16) -> u8
    ensures { result ≡ rows.place_at table.now method }
{
    match found(table, method) {
        Some(place) => place.min(255) as u8,
        None => 0,
    }
}

fn found(table: &[u16], method: u16) -> Option<usize>
    ensures { result ≡ position (λ other. other == method) table.now }
{
    table.iter().position(|other| *other == method)
}

impl<'a> Site<'a> {
    // The local in which a value of a primitive waits.
    pub(crate) fn waiting(&self, prim: Prim) -> u8
        requires { self.now.locals ≤ 250 }
        ensures { result ≡ site.waiting (rows.seen self.now) prim }
    {
        match prim {
            Prim::Bool => self.locals,
            Prim::Byte | Prim::Short | Prim::Int => self.locals + 1,
            Prim::Long => self.locals + 2,
        }
    }

    // The local in which an index waits.
    pub(crate) fn waiting_index(&self) -> u8
        requires { self.now.locals ≤ 250 }
        ensures { result ≡ site.waiting_index (rows.seen self.now) }
    {
        self.locals + 3
    }

    // The offset of a field of what is of a kind.
    pub(crate) fn offset_in(&self, kind: Kind, number: u16) -> u16
        ensures { result ≡ site.offset_in (rows.seen self.now) kind number }
    {
        offset_at(fields_of(self.fields, class_of(kind)), number)
    }

    // The room of a field of what is of a kind.
    pub(crate) fn room_in(&self, kind: Kind, number: u16) -> u16
        ensures { result ≡ site.room_in (rows.seen self.now) kind number }
    {
        room_at(fields_of(self.fields, class_of(kind)), number)
    }

    // The offset of a static.
    pub(crate) fn static_offset(&self, number: u16) -> u16
        ensures { result ≡ rows.offset_at self.now.statics.now number }
    {
        offset_at(self.statics, number)
    }

    // The room of a static.
    pub(crate) fn static_room(&self, number: u16) -> u16
        ensures { result ≡ rows.room_at self.now.statics.now number }
    {
        room_at(self.statics, number)
    }

    // The place of a method in the table of what is of a kind.
    pub(crate) fn table_place(&self, kind: Kind, method: u16) -> u8
        ensures { result ≡ rows.place_at (rows.row_of self.now.tables.now (site.class_of kind)) method }
    {
        place_at(table_of(self.tables, class_of(kind)), method)
    }

    // Whether a call looks into the table of the object's class.
    pub(crate) fn is_virtual(&self, method: u16) -> bool
        ensures { result ≡ site.is_virtual (rows.seen self.now) method }
    {
        match self.program.methods.as_slice().get(usize::from(method)) {
            Some(method) => method.is_virtual,
            None => false,
        }
    }
}
