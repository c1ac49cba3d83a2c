//! Reading a message.
ghost use Rattle.std.specs.Prelude.{◌≡◌, ◌↔◌, List, [], IfOk, IsOkAnd, IsErr, IsTrue, MatchResult};
ghost use Rattle.sed_wire.specs.Reading.{Reads};
ghost use Rattle.dasp_msg.specs.Field.{Part};
ghost use Rattle.dasp_msg.specs.Message.{IsMessage, IsMalformed, MayFollow, SpellsSoMany};
ghost use Rattle.dasp_msg.specs.Reading.{BeginsNone};
ghost use Rattle.dasp_msg.specs.Shown.{Message, shown_by};
ghost use Rattle.dasp_msg.specs.View.{message_of};

use crate::field::read_field;
use crate::header::{Header, read_header};
use crate::kind::MsgKind;
use crate::malformed::Malformed;
use crate::message::Msg;
use sed_wire::Reader;

/// The message that the bytes are. `Malformed` comes exactly where they are none.
pub fn read_msg<'a>(bytes: &'a [u8]) -> Result<Msg<'a>, Malformed>
    ensures found { IfOk result (λ msg. IsMessage bytes.now (message_of msg)) }
    ensures only { (message : Message) → IsMessage bytes.now message
        → IsOkAnd result (λ msg. message_of msg ≡ message) }
    ensures malformed { IsErr result ↔ IsMalformed bytes.now }
{
    message_or_none(bytes)
}

// The message, or that there is none.
fn message_or_none<'a>(bytes: &'a [u8]) -> Result<Msg<'a>, Malformed>
    ensures { MatchResult result (λ msg. IsMessage bytes.now (message_of msg)) (λ fault. IsMalformed bytes.now) }
{
    let mut reader = Reader::new(bytes);
    let header = read_header(&mut reader)?;
    let msg = read_fields(&mut reader, &header)?;
    let msg = msg.with_payload(reader.rest());
    if !may_follow(header.kind, msg.payload) {
        return Err(Malformed);
    }
    if !msg.has_needed() {
        return Err(Malformed);
    }
    Ok(msg)
}

// As many fields as the header says, and what they say.
fn read_fields<'a>(reader: &mut Reader<'a>, header: &Header) -> Result<Msg<'a>, Malformed>
    ensures { MatchResult result
        (λ msg. (fields : List Part) × Reads (SpellsSoMany header.now.count) fields reader.old reader.new
        × (message_of msg ≡ shown_by header.now fields []))
        (λ fault. BeginsNone (SpellsSoMany header.now.count) reader.old) }
{
    let mut msg = Msg::bare(header);
    for _ in 0..header.count {
        let field = read_field(reader)?;
        msg = msg.noting(&field);
    }
    Ok(msg)
}

// Whether the bytes may stand behind the fields of this kind.
fn may_follow(kind: MsgKind, payload: &[u8]) -> bool
    ensures { IsTrue result ↔ MayFollow kind payload.now }
{
    match kind {
        MsgKind::Datagram => true,
        _ => payload.is_empty(),
    }
}
