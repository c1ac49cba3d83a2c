//! Values as bytes, both ways.
use dasp_msg::ack_more_bytes;
use rows::{Case, CaseFault, choice};
use sed_value::{Bytes, LONGEST_BUFFER, Prim, SlotType, Value};
use sed_wire::{Reader, Writer, can_be_held, has_spelling, is_text};

/// What a call, or the type of a value, reads.
pub fn reading(case: &mut Case) {
    let call = case.text();
    let bytes = case.bytes();
    let mut reader = Reader::new(bytes.as_slice());
    read(case, call.as_str(), &mut reader);
    case.put(b", left <");
    case.hex(reader.rest());
    case.put(b">");
}

// What a word asks a reader for.
enum Asked {
    U1,
    U2,
    U4,
    I4,
    I8,
    Str,
    Take,
    Remaining,
    IsEmpty,
    AckMore,
    Value(SlotType),
    Buffer,
}

const ASKED: [(&str, Asked); 16] = [
    ("u1", Asked::U1),
    ("u2", Asked::U2),
    ("u4", Asked::U4),
    ("i4", Asked::I4),
    ("i8", Asked::I8),
    ("str", Asked::Str),
    ("take", Asked::Take),
    ("remaining", Asked::Remaining),
    ("is_empty", Asked::IsEmpty),
    ("ack_more", Asked::AckMore),
    ("bool", Asked::Value(SlotType::Prim(Prim::Bool))),
    ("byte", Asked::Value(SlotType::Prim(Prim::Byte))),
    ("short", Asked::Value(SlotType::Prim(Prim::Short))),
    ("int", Asked::Value(SlotType::Prim(Prim::Int))),
    ("long", Asked::Value(SlotType::Prim(Prim::Long))),
    ("buf", Asked::Buffer),
];

fn read(case: &mut Case, call: &str, reader: &mut Reader<'_>) {
    let (name, argument) = call.split_once(' ').unwrap_or((call, "0"));
    let count: u8 = case.parsed(argument);
    match choice(&ASKED, name) {
        Some(Asked::U1) => case.show(&reader.u1()),
        Some(Asked::U2) => case.show(&reader.u2()),
        Some(Asked::U4) => case.show(&reader.u4()),
        Some(Asked::I4) => case.show(&reader.i4()),
        Some(Asked::I8) => case.show(&reader.i8()),
        Some(Asked::Str) => case.show(&reader.str()),
        Some(Asked::Take) => case.show(&reader.take(usize::from(count))),
        Some(Asked::Remaining) => case.show(&reader.remaining()),
        Some(Asked::IsEmpty) => case.show(&reader.is_empty()),
        Some(Asked::AckMore) => case.hex(&ack_more_bytes(reader.rest())),
        Some(Asked::Value(slot)) => read_value(case, *slot, reader),
        Some(Asked::Buffer) => read_value(case, SlotType::Buf(count), reader),
        None => case.put(b"no call"),
    }
}

fn read_value(case: &mut Case, slot: SlotType, reader: &mut Reader<'_>) {
    if can_be_held(slot) {
        case.show(&reader.value(slot));
    } else {
        case.put(b"no call");
    }
}

/// What a call writes into a slice.
pub fn writing(case: &mut Case) {
    let call = case.text();
    let mut slice = case.bytes();
    let mut writer = Writer::new(slice.as_mut_slice());
    write(case, call.as_str(), &mut writer);
    case.put(b", ");
    case.say(&writer.written());
    case.put(b" written, room ");
    case.say(&writer.room());
    case.put(b": <");
    case.hex(slice.as_slice());
    case.put(b">");
}

fn write(case: &mut Case, call: &str, writer: &mut Writer<'_>) {
    let (name, argument) = call.split_once(' ').unwrap_or((call, ""));
    let done = match name {
        "u1" => writer.u1(case.parsed(argument)),
        "u2" => writer.u2(case.parsed(argument)),
        "u4" => writer.u4(case.parsed(argument)),
        "i4" => writer.i4(case.parsed(argument)),
        "i8" => writer.i8(case.parsed(argument)),
        "bytes" => writer.bytes(argument.as_bytes()),
        "str" if is_text(argument.as_bytes()) => writer.str(argument.as_bytes()),
        "str" => return case.put(b"no call"),
        _ => return write_value(case, name, argument, writer),
    };
    case.show(&done);
}

fn write_value(case: &mut Case, name: &str, argument: &str, writer: &mut Writer<'_>) {
    let value = match name {
        "bool" => Value::Bool(case.parsed(argument)),
        "byte" => Value::Byte(case.parsed(argument)),
        "short" => Value::Short(case.parsed(argument)),
        "int" => Value::Int(case.parsed(argument)),
        "long" => Value::Long(case.parsed(argument)),
        "buf" if argument.len() <= LONGEST_BUFFER => Value::Buf(Bytes::new(argument.as_bytes())),
        _ => return case.fail(CaseFault::BadInput),
    };
    if has_spelling(&value) {
        case.show(&writer.value(&value));
    } else {
        case.put(b"no call");
    }
}
