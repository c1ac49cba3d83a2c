//! Writing a reply, a refusal and an event.
ghost use Rattle.std.specs.Prelude.{◌≡◌, ℕ, ◌≤◌, ◌+◌, ◌∷◌, [], ◌++◌, length, IsTrue};
ghost use Rattle.sed_wire.specs.Writing.{Appends, Puts, room};
ghost use Rattle.sox_msg.specs.Answered.{answered_text, refused_for};
ghost use Rattle.sox_msg.specs.Command.{str, u2};
ghost use Rattle.sox_msg.specs.Reply as replies;
ghost use Rattle.sox_msg.specs.Reply.{MayReply, answer_of, event_text, is_told, reply_text};

use crate::event::Event;
use crate::reply::{Reply, ReplyBody};
use sed_value::Id;
use sed_value::limits::LONGEST_MESSAGE;
use sed_wire::Writer;

/// Writes the text of a reply to the front of `into`, and says how many bytes it has. What stood behind it stays.
pub fn write_reply(reply: &Reply, into: &mut [u8; LONGEST_MESSAGE]) -> usize
    requires may { MayReply reply.now.body }
    requires fits { length (reply_text reply.now) ≤ LONGEST_MESSAGE }
    ensures { Puts (reply_text reply.now) result into.old into.new }
{
    let mut writer = Writer::new(into);
    writer.put_bytes(&[capital_of(&reply.body), reply.number]);
    put_answer(&mut writer, &reply.body);
    writer.done()
}

/// Writes the text of a refusal, for a cause that is no command's refusal and has a text of at most 495 bytes, to the
/// front of `into`, and says how many bytes it has. `number` is the request's. What stood behind it stays.
pub fn write_refusal(number: u8, cause: &str, into: &mut [u8; LONGEST_MESSAGE]) -> usize
    requires { length cause.now ≤ 495 }
    ensures { (which : ℕ) → Puts (answered_text number (refused_for which cause.now)) result into.old into.new }
{
    let mut writer = Writer::new(into);
    writer.put_bytes(&[b'!', number]);
    put_text(&mut writer, cause);
    writer.done()
}

/// Writes the text of an event to the front of `into`, and says how many bytes it has. What stood behind it stays.
pub fn write_event(event: &Event, into: &mut [u8; LONGEST_MESSAGE]) -> usize
    requires may { IsTrue (is_told event.now.part) }
    requires fits { length (event_text event.now) ≤ LONGEST_MESSAGE }
    ensures { Puts (event_text event.now) result into.old into.new }
{
    let mut writer = Writer::new(into);
    writer.put_bytes(&[b'e', 255]);
    put_of_component(&mut writer, event.id, event.part, event.bytes);
    writer.done()
}

// The letter of a reply: the capital of the request's, or `!`.
fn capital_of(body: &ReplyBody) -> u8
    ensures { result ≡ replies.capital_of body.now }
{
    match body {
        ReplyBody::Done { letter } => *letter,
        ReplyBody::Added { .. } => b'A',
        ReplyBody::Part { .. } => b'C',
        ReplyBody::Slot { .. } => b'R',
        ReplyBody::Version { .. } => b'V',
        ReplyBody::Refused(_) => b'!',
    }
}

// Writes what stands behind the letter and the number.
fn put_answer(writer: &mut Writer, body: &ReplyBody)
    requires { length (answer_of body.now) ≤ room writer.old }
    ensures { Appends writer.old writer.new (answer_of body.now) }
{
    match body {
        ReplyBody::Done { .. } => {}
        ReplyBody::Added { id } => put_id(writer, *id),
        ReplyBody::Part { id, part, bytes } => put_of_component(writer, *id, *part, bytes),
        ReplyBody::Slot { id, slot, bytes } => put_of_component(writer, *id, *slot, bytes),
        ReplyBody::Version { schema } => writer.put_bytes(schema),
        ReplyBody::Refused(refusal) => put_text(writer, refusal.text()),
    }
}

// Writes a component's id, a byte that says what of it, and this.
fn put_of_component(writer: &mut Writer, id: Id, which: u8, bytes: &[u8])
    requires { 3 + length bytes.now ≤ room writer.old }
    ensures { Appends writer.old writer.new (u2 id.0 ++ which ∷ bytes.now) }
{
    put_id(writer, id);
    writer.put_bytes(&[which]);
    writer.put_bytes(bytes);
}

fn put_text(writer: &mut Writer, text: &str)
    requires { length text.now + 1 ≤ room writer.old }
    ensures { Appends writer.old writer.new (str text.now) }
{
    writer.put_bytes(text.as_bytes());
    writer.put_bytes(&[0]);
}

fn put_id(writer: &mut Writer, id: Id)
    requires { 2 ≤ room writer.old }
    ensures { Appends writer.old writer.new (u2 id.0) }
{
    writer.put_u2(id.0);
}
