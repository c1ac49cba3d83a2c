//! Numbers, texts and values, behind what a writer has written.
ghost use Rattle.std.specs.Prelude.{◌≡◌, ◌≤◌, ◌+◌, ◌++◌, length, slice_get};
ghost use Rattle.std.specs.Option.{option_map, option_map_or};
ghost use Rattle.sed_engine.specs.Code.{Meaning};
ghost use Rattle.sed_wire.specs.Writing.{Appends, room};
ghost use Rattle.comp_tree.specs.Parts.{class_bytes, no_id, text as ended, u2};
ghost use Rattle.comp_tree.specs.Values.{spelling_of};
ghost use Rattle.sox_msg.specs.Reply.{Puts};

use sed_typed::{Schema, TypeNo};
use sed_value::{Id, Value};
use sed_wire::Writer;

/// Puts an id, or the number that no component has.
pub fn put_id(writer: &mut Writer, id: Option<Id>)
    requires { 2 ≤ room writer.old }
    ensures { Appends writer.old writer.new (u2 (option_map_or (λ (i : _). i.0) id no_id)) }
{
    match id {
        Some(id) => writer.put_u2(id.0),
        None => writer.put_u2(0xffff),
    }
}

/// Puts a text, and the 0 that ends it.
pub fn put_text(writer: &mut Writer, text: &[u8])
    requires { length text.now + 1 ≤ room writer.old }
    ensures { Appends writer.old writer.new (ended text.now) }
{
    writer.put_bytes(text);
    writer.put_bytes(&[0]);
}

/// Puts the kit of a class and its number there; nothing where the schema has no such class.
pub fn put_class(writer: &mut Writer, schema: &Schema, kind: TypeNo)
    requires { 2 ≤ room writer.old }
    ensures { (m : Meaning) → m.schema ≡ schema.now → Appends writer.old writer.new (class_bytes m kind.0) }
{
    if let Some((kit, number)) = numbers_of(schema, kind) {
        writer.put_u1(kit);
        writer.put_u1(number);
    }
}

// The kit of a class and its number there.
fn numbers_of(schema: &Schema, kind: TypeNo) -> Option<(u8, u8)>
    ensures { result ≡ option_map (λ c. (c.kit, c.number)) (slice_get schema.now.classes kind.0) }
{
    match schema.class(kind) {
        Some(class) => Some((class.kit, class.number)),
        None => None,
    }
}

/// Puts what spells a value; nothing for `Nothing`.
pub fn put_value(writer: &mut Writer, value: &Value)
    requires { length (spelling_of value.now) ≤ room writer.old }
    ensures { Appends writer.old writer.new (spelling_of value.now) }
{
    match value {
        Value::Bool(truth) => writer.put_u1(*truth),
        Value::Byte(number) => writer.put_u1(*number),
        Value::Short(number) => writer.put_u2(*number),
        Value::Int(number) => writer.put_bytes(&number.to_be_bytes()),
        Value::Long(number) => writer.put_bytes(&number.to_be_bytes()),
        Value::Buf(contents) => put_contents(writer, contents.as_bytes()),
        Value::Nothing => {}
    }
}

// Puts the contents of a buffer: their length, and then they themselves.
fn put_contents(writer: &mut Writer, contents: &[u8])
    requires short { length contents.now ≤ 128 }
    requires room { 2 + length contents.now ≤ room writer.old }
    ensures { Appends writer.old writer.new (u2 (length contents.now) ++ contents.now) }
{
    writer.put_u2(contents.len() as u16);
    writer.put_bytes(contents);
}

/// Puts what spells a value in front of `into`, and says how many bytes these are; what stood behind them stays.
pub fn write_value(value: &Value, into: &mut [u8; 130]) -> usize
    ensures { Puts (spelling_of value.now) result into.old into.new }
{
    are_short(value);
    let mut writer = Writer::new(into);
    put_value(&mut writer, value);
    writer.done()
}

// No value takes more than 130 bytes.
fn are_short(value: &Value)
    ensures { length (spelling_of value.now) ≤ 130 }
{
    if let Value::Buf(contents) = value {
        let _short = contents.as_bytes();
    }
}
