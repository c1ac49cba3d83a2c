//! An image and its parts.

use sed_typed::Bytes255;
use sed_value::Items;

/// An image: its kits, its classes, the static block's fields and first bytes, its texts, and its methods.
#[derive(Drop)]
pub struct Image {
    pub kits: Items<ImageKit>,
    pub classes: Items<ImageClass>,
    pub static_fields: Items<ImageField>,
    pub static_bytes: Items<u8>,
    pub texts: Items<Bytes255>,
    pub methods: Items<ImageMethod>,
}

/// A kit: its name, and the checksum of its canonical text.
#[derive(Drop)]
pub struct ImageKit {
    pub name: Items<u8>,
    pub checksum: i32,
}

/// A class: its kit, its number in the kit, and its name; its base's number, or 0xffff for none; flags, 1 abstract and
/// 2 component; its fields and slots, inherited ones first; its table of methods; and the first contents of its data,
/// whose length is the data size.
#[derive(Drop)]
pub struct ImageClass {
    pub kit: u8,
    pub number: u8,
    pub name: Items<u8>,
    pub base: u16,
    pub flags: u8,
    pub fields: Items<ImageField>,
    pub slots: Items<ImageSlot>,
    pub table: Items<u16>,
    pub contents: Items<u8>,
}

/// A field: its offset in the data; its form, 1 bool, 2 byte, 3 short, 4 int, 5 long, 6 Str, 7 Buf, 8 object, 9 to 13
/// an array of the forms 1 to 5; and its size, capacity, class or count, which is else 0.
#[derive(Clone, Copy, Debug, PartialEq, Eq)]
pub struct ImageField {
    pub offset: u16,
    pub form: u8,
    pub n: u16,
}

/// A slot: its name; its form, 1 to 5 and 7 a property of such a field, 0x10 to 0x13 an action with no argument, a
/// bool, an int or a long; the offset of its field or its place in the table; its field's n; and 1 where the
/// application file keeps it, else 0.
#[derive(Drop)]
pub struct ImageSlot {
    pub name: Items<u8>,
    pub form: u8,
    pub place: u16,
    pub n: u16,
    pub config: u8,
}

/// A method: its class; flags, 1 instance and 2 abstract; the kinds of its parameters, of its result, and of all its
/// locals as they begin; how many cells its stack has at most; its code; and the entries of its code, ascending by
/// place.
#[derive(Drop)]
pub struct ImageMethod {
    pub class: u16,
    pub flags: u8,
    pub params: Items<ImageKind>,
    pub result: ImageKind,
    pub locals: Items<ImageKind>,
    pub stack: u16,
    pub code: Items<u8>,
    pub entries: Items<ImageEntry>,
}

/// What stands at a place of the code whichever way it is reached: the kinds of all locals, and of the cells on the
/// stack, the lowest first.
#[derive(Drop)]
pub struct ImageEntry {
    pub place: u16,
    pub locals: Items<ImageKind>,
    pub stack: Items<ImageKind>,
}

/// The kind of a cell: 0 void, 1 bool, 2 int, 3 long, 4 Str, 5 null, 6 object. Its class is 0 unless it is 6; of the
/// static block it is 0xffff.
#[derive(Clone, Copy, Debug, PartialEq, Eq)]
pub struct ImageKind {
    pub kind: u8,
    pub class: u16,
}
