//! Posting a reply.
ghost use Rattle.std.specs.Prelude.{◌≡◌, ◌+◌, ◌<◌, true, length};
ghost use Rattle.dasp_session.specs.Receive.{post_of};
ghost use Rattle.dasp_session.specs.Session.{State};
ghost use Rattle.dasp_session.specs.Standing.{Leaves, StandsFor, may_post};
ghost use Rattle.sox_msg.specs.Answered.{answered_of, answered_text};
ghost use Rattle.sox_msg.specs.Reply.{FitsLimits, MayReply};
ghost use Rattle.sed_node.specs.Saving.{reply_to};

use app_save::SaveRefusal;
use dasp_session::{Outbox, Sessions};
use sed_value::Refusal;
use sox_msg::{Reply, ReplyBody, texts_fit_a_message, write_reply};

/// Posts the text of a reply in a session that is live, authenticated and has room.
pub fn post_reply(sessions: &mut Sessions, place: u8, reply: &Reply, out: &mut Outbox)
    requires may { may_post sessions.old place ≡ true }
    requires may_reply { MayReply reply.now.body }
    requires fits { FitsLimits reply.now.body }
    requires room { length out.old < 512 }
    ensures leaves { (state : State) → StandsFor sessions.old state
        → Leaves (post_of state place (answered_text reply.now.number (answered_of reply.now.body)))
        sessions.new out.old out.new }
    ensures one { length out.new ≡ length out.old + 1 }
{
    texts_fit_a_message();
    let mut text = [0; 498];
    let count = write_reply(reply, &mut text);
    sessions.post(place, &text[..count], out);
}

/// Posts what saving came to, as the reply to the request of this number.
pub fn post_saved(
    sessions: &mut Sessions,
    place: u8,
    number: u8,
    saved: Result<(), SaveRefusal>,
    out: &mut Outbox,
)
    requires may { may_post sessions.old place ≡ true }
    requires room { length out.old < 512 }
    ensures leaves { (state : State) → StandsFor sessions.old state
        → Leaves (post_of state place (answered_text number (reply_to saved))) sessions.new out.old out.new }
    ensures one { length out.new ≡ length out.old + 1 }
{
    let body = match saved {
        Ok(()) => ReplyBody::Done { letter: b'I' },
        Err(SaveRefusal::Full) => ReplyBody::Refused(Refusal::StoreFull),
        Err(_) => ReplyBody::Refused(Refusal::SaveDevice),
    };
    post_reply(sessions, place, &Reply { number, body }, out);
}
