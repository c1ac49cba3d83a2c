//! The table of replies and events.
ghost use Rattle.std.specs.Prelude.{◌≡◌, ◌≤◌, ◌==◌, length, IsTrue};
ghost use Rattle.std.specs.List.{list_any};
ghost use Rattle.sox_msg.specs.Reply.{MayReply, answer_of};

use rows::Case;
use sed_value::{Id, Refusal};
use sox_msg::{Event, Reply, ReplyBody, texts_fit_a_message, write_event, write_reply};

/// The text of a reply or an event.
pub fn replies(case: &mut Case) {
    let kind = case.text();
    let number = case.number();
    let letter = case.input().first().copied().unwrap_or(0);
    let id = Id(case.number());
    let bytes = case.bytes();
    let bytes = bytes.as_slice();
    if kind.as_str() == "event" {
        let part = letter;
        tell_event(case, &Event { id, part, bytes });
    } else {
        let body = body_of(kind.as_str(), letter, id, bytes);
        tell_reply(case, &Reply { number, body });
    }
}

fn body_of<'a>(kind: &str, letter: u8, id: Id, bytes: &'a [u8]) -> ReplyBody<'a> {
    let (part, slot) = (letter, letter);
    match kind {
        "done" => ReplyBody::Done { letter },
        "added" => ReplyBody::Added { id },
        "part" => ReplyBody::Part { id, part, bytes },
        "slot" => ReplyBody::Slot { id, slot, bytes },
        "version" => ReplyBody::Version { schema: bytes },
        "malformed" => ReplyBody::Refused(Refusal::Malformed),
        "unknown command" => ReplyBody::Refused(Refusal::UnknownCommand),
        "no slot" => ReplyBody::Refused(Refusal::NoSlot),
        "links at component" => ReplyBody::Refused(Refusal::LinksAtComponent),
        _ => ReplyBody::Refused(Refusal::StoreFull),
    }
}

fn tell_event(case: &mut Case, event: &Event<'_>) {
    let mut text = [0xee; 498];
    if !is_among(event.part, b"tcrl") || event.bytes.len() > 493 {
        return case.put(b"no call");
    }
    let count = write_event(event, &mut text);
    tell_text(case, &text, count);
}

fn tell_reply(case: &mut Case, reply: &Reply<'_>) {
    let mut text = [0xee; 498];
    if !may_reply(&reply.body) {
        return case.put(b"no call");
    }
    let count = write_reply(reply, &mut text);
    tell_text(case, &text, count);
}

// The text that was put, and whether what stands behind it is as it was.
fn tell_text(case: &mut Case, text: &[u8; 498], count: usize) {
    let (text, behind) = text.split_at(count.min(498));
    case.hex(text);
    if behind.iter().any(|byte| *byte != 0xee) {
        case.put(b", and more");
    }
}

// Whether the answer may be given, and fits a message.
fn may_reply(body: &ReplyBody<'_>) -> bool
    ensures may { IsTrue result → MayReply body.now }
    ensures fits { IsTrue result → length (answer_of body.now) ≤ 496 }
{
    texts_fit_a_message();
    match body {
        ReplyBody::Done { letter } => is_among(*letter, b"DILNOSUWX"),
        ReplyBody::Part { part, bytes, .. } => is_among(*part, b"tcrlf") && bytes.len() <= 493,
        ReplyBody::Slot { bytes, .. } => bytes.len() <= 493,
        ReplyBody::Version { schema } => schema.len() <= 496,
        _ => true,
    }
}

fn is_among(letter: u8, letters: &[u8]) -> bool
    ensures { result ≡ list_any (λ known. known == letter) letters.now }
{
    letters.iter().any(|known| *known == letter)
}
