//! Writing a message.
ghost use Rattle.std.specs.Prelude.{◌≡◌, ◌<◌, ◌≤◌, ◌+◌, length};
ghost use Rattle.sed_wire.specs.Writing.{Writes, room};
ghost use Rattle.dasp_msg.specs.Field.{SpellsContent, SpellsField, SpellsFields, SpellsRun};
ghost use Rattle.dasp_msg.specs.Header.{SpellsHeader};
ghost use Rattle.dasp_msg.specs.Sending.{IsSentAs, MaySend, content_size, fields_size, sent_size};
ghost use Rattle.dasp_msg.specs.View.{content_of, message_of, part_of};
ghost use Rattle.dasp_msg.specs.Writing.{CanBeContent, CanBeField, CanBeFields, Puts, listed, parts_of};

use crate::field::{Field, Value};
use crate::header::Header;
use crate::message::Msg;
use crate::sent::Sent;
use sed_wire::Writer;

/// Writes the text of a message that may be sent to the front of `into`, and says how many bytes it has. What stood
/// behind it stays.
pub fn write_msg(msg: &Msg, into: &mut [u8; 512]) -> usize
    requires may { MaySend (message_of msg.now) }
    requires fits { sent_size (message_of msg.now) ≤ 512 }
    ensures { Puts IsSentAs (message_of msg.now) result into.old into.new }
{
    let mut writer = Writer::new(into);
    put_msg(&mut writer, msg);
    writer.done()
}

fn put_msg(writer: &mut Writer, msg: &Msg)
    requires may { MaySend (message_of msg.now) }
    requires fits { sent_size (message_of msg.now) ≤ room writer.old }
    ensures { Writes IsSentAs (message_of msg.now) writer.old writer.new }
{
    let sent = Sent::of(msg);
    put_header(
        writer,
        &Header {
            to: msg.to,
            sequence: msg.sequence,
            kind: msg.kind,
            count: sent.count(),
        },
    );
    put_fields(writer, &sent);
    writer.put_bytes(msg.payload);
}

fn put_header(writer: &mut Writer, header: &Header)
    requires few { header.now.count < 16 }
    requires fits { 5 ≤ room writer.old }
    ensures { Writes SpellsHeader header.now writer.old writer.new }
{
    writer.put_u2(header.to);
    writer.put_u2(header.sequence);
    writer.put_u1(16 * header.kind.number() + header.count);
}

fn put_fields(writer: &mut Writer, sent: &Sent)
    requires can { CanBeFields (parts_of sent.now) }
    requires fits { fields_size (parts_of sent.now) ≤ room writer.old }
    ensures { Writes SpellsFields (parts_of sent.now) writer.old writer.new }
{
    put_if_there(writer, &sent.first);
    put_if_there(writer, &sent.second);
    put_if_there(writer, &sent.third);
}

fn put_if_there(writer: &mut Writer, field: &Option<Field>)
    requires can { CanBeFields (listed field.now) }
    requires fits { fields_size (listed field.now) ≤ room writer.old }
    ensures { Writes SpellsFields (listed field.now) writer.old writer.new }
{
    match field {
        Some(field) => put_field(writer, field),
        None => {}
    }
}

fn put_field(writer: &mut Writer, field: &Field)
    requires can { CanBeField (part_of field.now) }
    requires fits { 1 + content_size (content_of field.now.value) ≤ room writer.old }
    ensures { Writes SpellsField (part_of field.now) writer.old writer.new }
{
    writer.put_u1(field.byte);
    put_value(writer, &field.value);
}

fn put_value(writer: &mut Writer, value: &Value)
    requires can { CanBeContent (content_of value.now) }
    requires fits { content_size (content_of value.now) ≤ room writer.old }
    ensures { Writes SpellsContent (content_of value.now) writer.old writer.new }
{
    match value {
        Value::Nil => {}
        Value::Number(number) => writer.put_u2(*number),
        Value::Text(text) => writer.put_str(text),
        Value::Run(bytes) => put_run(writer, bytes),
    }
}

fn put_run(writer: &mut Writer, bytes: &[u8])
    requires few { length bytes.now ≤ 255 }
    requires fits { length bytes.now + 1 ≤ room writer.old }
    ensures { Writes SpellsRun bytes.now writer.old writer.new }
{
    writer.put_u1(bytes.len() as u8);
    writer.put_bytes(bytes);
}
