//! Laws of requests, replies and events.
ghost use Rattle.std.specs.Prelude.{◌≡◌, ◌≤◌, ℕ, List, length};
ghost use Rattle.sed_value.specs.Refusal.{text_of_refusal};
ghost use Rattle.sed_value.specs.declared.refusal.Refusal.{Refusal as Refused};
ghost use Rattle.sox_msg.specs.Answered.{answered_of};
ghost use Rattle.sox_msg.specs.Command.{Asking, IsRequest, IsMalformed, HasUnknownLetter, number_in};
ghost use Rattle.sox_msg.specs.Reply.{event_text, reply_text, FitsLimits, MayReply};
ghost use Rattle.sox_msg.specs.declared.event.Event.{Event as Told};
ghost use Rattle.sox_msg.specs.declared.reply.Reply.{Reply as Answer};

use sed_value::limits::{LONGEST_MESSAGE, LONGEST_PART};

/// A payload is one request at most, a request has one payload at most, and its number is that of its payload.
pub fn payloads_are_one_request()
    ensures one { (payload : List ℕ) (asking other : Asking) → IsRequest payload asking → IsRequest payload other
        → asking ≡ other }
    ensures text { (payload other : List ℕ) (asking : Asking) → IsRequest payload asking → IsRequest other asking
        → payload ≡ other }
    ensures number { (payload : List ℕ) (asking : Asking) → IsRequest payload asking
        → asking.number ≡ number_in payload }
{}

/// A text is one reply at most of those that may be written, and one event at most.
pub fn texts_are_one_answer()
    ensures replies { (reply other : Answer) → MayReply reply.body → MayReply other.body
        → reply_text reply ≡ reply_text other
        → (reply.number ≡ other.number) × (answered_of reply.body ≡ answered_of other.body) }
    ensures events { (event other : Told) → event_text event ≡ event_text other
        → (event.id ≡ other.id) × (event.part ≡ other.part) × (event.bytes.now ≡ other.bytes.now) }
{}

/// Within the platform's limits each reply and each event fits a message: where a part or a value has at most
/// `LONGEST_PART` bytes, and the text of the kits at most `LONGEST_SCHEMA`. The text of a refusal has at most 18.
pub fn texts_fit_a_message()
    ensures refusals { (refusal : Refused) → length (text_of_refusal refusal) ≤ 18 }
    ensures replies { (reply : Answer) → FitsLimits reply.body → length (reply_text reply) ≤ LONGEST_MESSAGE }
    ensures events { (event : Told) → length event.bytes.now ≤ LONGEST_PART
        → length (event_text event) ≤ LONGEST_MESSAGE }
{}
