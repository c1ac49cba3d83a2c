//! Replies of each kind.
ghost use Rattle.std.specs.Prelude.{◌≡◌, ◌≤◌, Some, IsTrue, length};
ghost use Rattle.sox_serve.specs.Replies.{reply_bytes};
ghost use Rattle.sox_msg.specs.Answered as told;
ghost use Rattle.sox_msg.specs.Command.{is_part};
ghost use Rattle.sox_msg.specs.Reply.{is_plain};

use crate::reply_buf::ReplyBuf;
use sed_value::limits::{LONGEST_PART, LONGEST_SCHEMA};
use sed_value::{Id, Refusal};
use sox_msg::{Reply, ReplyBody, texts_fit_a_message};

/// Says that a command is done whose letter is this as a capital, and no more.
pub fn reply_done(into: &mut ReplyBuf, number: u8, letter: u8)
    requires { IsTrue (is_plain letter) }
    ensures { into.new ≡ reply_bytes number (Some (told.done letter)) }
{
    let body = ReplyBody::Done { letter };
    into.put(&Reply { number, body });
}

/// Says why nothing was done.
pub fn reply_refused(into: &mut ReplyBuf, number: u8, refusal: Refusal)
    ensures { into.new ≡ reply_bytes number (Some (told.refused refusal)) }
{
    texts_fit_a_message();
    let body = ReplyBody::Refused(refusal);
    into.put(&Reply { number, body });
}

/// Says that a component was added.
pub fn reply_added(into: &mut ReplyBuf, number: u8, id: Id)
    ensures { into.new ≡ reply_bytes number (Some (told.added id.0)) }
{
    let body = ReplyBody::Added { id };
    into.put(&Reply { number, body });
}

/// Tells a part of a component.
pub fn reply_part(into: &mut ReplyBuf, number: u8, id: Id, part: u8, bytes: &[u8])
    requires part { IsTrue (is_part part) }
    requires few { length bytes.now ≤ LONGEST_PART }
    ensures { into.new ≡ reply_bytes number (Some (told.part id.0 part bytes.now)) }
{
    let body = ReplyBody::Part { id, part, bytes };
    into.put(&Reply { number, body });
}

/// Tells the value of a property.
pub fn reply_slot(into: &mut ReplyBuf, number: u8, id: Id, slot: u8, bytes: &[u8])
    requires { length bytes.now ≤ LONGEST_PART }
    ensures { into.new ≡ reply_bytes number (Some (told.slot id.0 slot bytes.now)) }
{
    let body = ReplyBody::Slot { id, slot, bytes };
    into.put(&Reply { number, body });
}

/// Tells the kits.
pub fn reply_version(into: &mut ReplyBuf, number: u8, schema: &[u8])
    requires { length schema.now ≤ LONGEST_SCHEMA }
    ensures { into.new ≡ reply_bytes number (Some (told.version schema.now)) }
{
    let body = ReplyBody::Version { schema };
    into.put(&Reply { number, body });
}
