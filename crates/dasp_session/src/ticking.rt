//! What a tick does in a session, and what is posted in it.
ghost use Rattle.std.specs.Prelude.{◌≡◌, ◌+◌, ◌<◌, ◌≤◌, true, false, List, length, count_by, not};
ghost use Rattle.std.specs.Prelude.{if◌then◌else◌};
ghost use Rattle.std.specs.List.{list_any};
ghost use Rattle.dasp_msg.specs.declared.outgoing.Message.{Message as Posted};
ghost use Rattle.dasp_msg.specs.Posted.{is_due, is_spent};
ghost use Rattle.dasp_msg.specs.Outgoing.{SendsLike};
ghost use Rattle.dasp_session.specs.Session.{Session};
ghost use Rattle.dasp_session.specs.Ticking as ticking;
ghost use Rattle.dasp_session.specs.Keeping.{Like};
ghost use Rattle.dasp_session.specs.Doing.{Does, Goes, Resends};
ghost use Rattle.dasp_session.specs.Outbox.{Datagram};

use crate::letters::{Acks, datagram, keep_alive};
use crate::outbox::Outbox;
use crate::place::Place;
use dasp_msg::{Due, Msg, Sender};

// The error code of a session that was silent too long, or whose message was sent too often.
const TIMED_OUT: u16 = 0xe5;

// How long a session may be silent, in nanoseconds.
const LONGEST_SILENCE: i64 = 30_000_000_000;

// The timeouts and resends at a moment. False exactly where the session ended.
pub(crate) fn tick(place: &mut Place, moment: i64, out: &mut Outbox) -> bool
    requires live { place.old.live ≡ true }
    requires room { length out.old + 31 ≤ 512 }
    ensures does { (session : Session) → Like place.old session
        → Does session (ticking.ticked moment session) place.new out.old out.new }
    ensures answer { (session : Session) → Like place.old session → result ≡ not (ticking.is_over moment session) }
    ensures live { place.new.live ≡ result }
    ensures user { place.new.user ≡ place.old.user }
    ensures few { length out.new ≤ length out.old + 31 }
    ensures waits { result ≡ true → length out.new ≤ length out.old + length place.new.sender.messages }
    ensures most { length place.new.sender.messages ≤ 31 }
{
    if is_over(place, moment) {
        place.live = false;
        out.send(place.address, &Msg::close(place.remote_id, Some(TIMED_OUT)));
        return false;
    }
    send_all_due(place, moment, out);
    true
}

// Whether the session is to be given up.
fn is_over(place: &Place, moment: i64) -> bool
    ensures over { (session : Session) → Like place.now session → result ≡ ticking.is_over moment session }
    ensures few { length place.now.sender.messages ≤ 31 }
{
    let spent = has_spent(&place.sender, moment);
    is_silent(place, moment) || spent
}

// A difference that does not fit is longer than that, or negative.
fn is_silent(place: &Place, moment: i64) -> bool
    ensures { (session : Session) → Like place.now session → result ≡ ticking.is_silent moment session }
{
    moment.saturating_sub(place.heard) > LONGEST_SILENCE
}

// Whether a message was sent three times, and is not acknowledged.
fn has_spent(sender: &Sender, moment: i64) -> bool
    ensures spent { (posted : List Posted) → SendsLike sender.now posted → result ≡ list_any (is_spent moment) posted }
    ensures few { length sender.now.messages ≤ 31 }
{
    match sender.due(moment) {
        Due::Spent => true,
        Due::Nothing | Due::Resend { .. } => false,
    }
}

// Sends each message that is due again, where none is spent.
fn send_all_due(place: &mut Place, moment: i64, out: &mut Outbox)
    requires live { place.old.live ≡ true }
    requires few { length place.old.sender.messages ≤ 31 }
    requires room { length out.old + 31 ≤ 512 }
    ensures does { (session : Session) → Like place.old session
        → list_any (is_spent moment) session.posted ≡ false
        → Does session (ticking.sent_all moment session) place.new out.old out.new }
    ensures live { place.new.live ≡ true }
    ensures user { place.new.user ≡ place.old.user }
    ensures as_many { length place.new.sender.messages ≡ length place.old.sender.messages }
    ensures few { length out.new ≤ length out.old + length place.old.sender.messages }
{
    'due: while send_due(place, moment, out) {}
}

// Sends the first message that is due again. False where none is.
fn send_due(place: &mut Place, moment: i64, out: &mut Outbox) -> bool
    requires { 0 < count_by (is_due moment) place.old.sender.messages → length out.old < 512 }
    ensures resends { (session : Session) → Like place.old session
        → list_any (is_spent moment) session.posted ≡ false
        → Resends moment session result place.new out.old out.new }
    ensures fewer { result ≡ true → count_by (is_due moment) place.new.sender.messages
        < count_by (is_due moment) place.old.sender.messages }
    ensures out { length out.new ≡ length out.old + (if result then 1 else 0) }
    ensures as_many { length place.new.sender.messages ≡ length place.old.sender.messages }
    ensures live { place.new.live ≡ place.old.live }
    ensures user { place.new.user ≡ place.old.user }
{
    match place.sender.due(moment) {
        Due::Resend { number } => {
            let acks = Acks::of(&place.receiver);
            let bytes = place.sender.bytes(number);
            out.send(
                place.address,
                &datagram(place.remote_id, &acks, number, bytes),
            );
            place.sender.resend(number, moment);
            place.owed = false;
            true
        }
        _ => false,
    }
}

// Posts a message, and sends it.
pub(crate) fn post(place: &mut Place, moment: i64, bytes: &[u8], out: &mut Outbox)
    requires live { place.old.live ≡ true }
    requires window { length place.old.sender.messages < 31 }
    requires short { length bytes.now ≤ 498 }
    requires room { length out.old < 512 }
    ensures does { (session : Session) → Like place.old session
        → Does session (ticking.posted_in moment bytes.now session) place.new out.old out.new }
    ensures live { place.new.live ≡ true }
    ensures user { place.new.user ≡ place.old.user }
    ensures one { length out.new ≡ length out.old + 1 }
    ensures waits { length place.new.sender.messages ≡ length place.old.sender.messages + 1 }
{
    let number = place.sender.push(bytes, moment);
    place.owed = false;
    let acks = Acks::of(&place.receiver);
    out.send(
        place.address,
        &datagram(place.remote_id, &acks, number, bytes),
    );
}

// Sends a keepAlive where an acknowledgement is owed.
pub(crate) fn keep_up(place: &mut Place, out: &mut Outbox)
    requires live { place.old.live ≡ true }
    requires room { length out.old < 512 }
    ensures does { (session : Session) → Like place.old session
        → Does session (ticking.kept_up session) place.new out.old out.new }
    ensures live { place.new.live ≡ true }
    ensures user { place.new.user ≡ place.old.user }
    ensures few { length out.new ≤ length out.old + 1 }
{
    if !place.owed {
        return;
    }
    place.owed = false;
    let acks = Acks::of(&place.receiver);
    out.send(place.address, &keep_alive(place.remote_id, &acks));
}
