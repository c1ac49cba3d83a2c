//! What a message does in its session.
ghost use Rattle.std.specs.Prelude.{◌≡◌, ℕ, ◌+◌, ◌<◌, ◌≤◌, true, false, Some, List, [], length, MatchOption};
ghost use Rattle.dasp_msg.specs.View.{message_of};
ghost use Rattle.dasp_session.specs.Session.{Session};
ghost use Rattle.dasp_session.specs.Hearing as hearing;
ghost use Rattle.dasp_session.specs.Keeping.{Like};
ghost use Rattle.dasp_session.specs.Doing.{Does, IsEffect, has_room_here};
ghost use Rattle.dasp_session.specs.Outbox.{Datagram};

use crate::handed::Effect;
use crate::outbox::Outbox;
use crate::place::Place;
use crate::{Users, digest, is_same_digest};
use dasp_msg::{LONGEST_USER, Msg, MsgKind, Taken};
use sed_value::InPlace;

// The error code of a user that is not known, or did not show that it is the one.
const NOT_KNOWN: u16 = 0xe4;

// A message in the session that lives in this place.
pub(crate) fn hear(
    place: &mut Place,
    users: &Users,
    moment: i64,
    msg: &Msg,
    out: &mut Outbox,
) -> Effect
    requires live { place.old.live ≡ true }
    requires room { length out.old < 512 }
    ensures does { (session : Session) → Like place.old session
        → Does session (hearing.in_session users.now moment (message_of msg.now) session) place.new out.old out.new }
    ensures effect { (session : Session) → Like place.old session
        → IsEffect msg.now.payload.now
        (hearing.in_session users.now moment (message_of msg.now) session).effect result }
    ensures room { result ≡ Effect.Payload → has_room_here place.new ≡ true }
    ensures few { length out.new ≤ length out.old + 1 }
{
    note(place, moment, msg);
    match msg.kind {
        MsgKind::Authenticate => authenticate(place, users, msg, out),
        MsgKind::KeepAlive => keep_alive(place),
        MsgKind::Datagram => deliver(place, msg),
        MsgKind::Close => end(place),
        MsgKind::Hello | MsgKind::Challenge | MsgKind::Welcome => Effect::Nothing,
    }
}

// Renews the hearing and hears the ack, whatever the message is.
fn note(place: &mut Place, moment: i64, msg: &Msg)
    ensures live { place.new.live ≡ place.old.live }
    ensures like { (session : Session) → Like place.old session
        → Like place.new (hearing.hears moment (message_of msg.now) session) }
{
    place.heard = moment;
    place.sender.heard(msg);
}

fn authenticate(place: &mut Place, users: &Users, msg: &Msg, out: &mut Outbox) -> Effect
    requires live { place.old.live ≡ true }
    requires room { length out.old < 512 }
    ensures does { (session : Session) → Like place.old session
        → Does session (hearing.authenticated users.now (message_of msg.now) session) place.new out.old out.new }
    ensures effect { (session : Session) → Like place.old session
        → IsEffect msg.now.payload.now (hearing.authenticated users.now (message_of msg.now) session).effect result }
    ensures never { result ≡ Effect.Payload → ⊥ }
    ensures few { length out.new ≤ length out.old + 1 }
{
    match proven_user(users, &place.nonce, msg) {
        Some(user) => {
            place.user = Some(user);
            out.send(place.address, &Msg::welcome(place.remote_id));
            Effect::Nothing
        }
        None => refuse(place, out),
    }
}

// The session ends if it isn't authenticated.
fn refuse(place: &mut Place, out: &mut Outbox) -> Effect
    requires live { place.old.live ≡ true }
    requires room { length out.old < 512 }
    ensures does { (session : Session) → Like place.old session
        → Does session (hearing.refused session) place.new out.old out.new }
    ensures effect { (session : Session) (payload : List ℕ) → Like place.old session
        → IsEffect payload (hearing.refused session).effect result }
    ensures never { result ≡ Effect.Payload → ⊥ }
    ensures few { length out.new ≤ length out.old + 1 }
{
    if place.user.is_some() {
        return Effect::Nothing;
    }
    place.live = false;
    out.send(place.address, &Msg::close(place.remote_id, Some(NOT_KNOWN)));
    Effect::Ended
}

// The user that the message shows its sender to be, if it shows one.
fn proven_user(users: &Users, nonce: &[u8; 10], msg: &Msg) -> Option<InPlace<LONGEST_USER>>
    ensures { let message = message_of msg.now in MatchOption result
        (hearing.is_proof users.now nonce.now message.username message.digest ≡ false)
        (λ name. (hearing.is_proof users.now nonce.now message.username message.digest ≡ true)
        × (message.username ≡ Some name)) }
{
    let name = msg.username?;
    let shown = msg.digest?;
    let credential = users.credential(name)?;
    if is_same_digest(&digest(&credential, nonce), shown) {
        Some(InPlace::new(name))
    } else {
        None
    }
}

fn keep_alive(place: &mut Place) -> Effect
    requires { place.old.live ≡ true }
    ensures does { (session : Session) (out : List Datagram) → Like place.old session
        → Does session (hearing.kept_alive session) place.new out out }
    ensures effect { result ≡ Effect.Nothing }
{
    place.owed = place.owed || place.user.is_some();
    Effect::Nothing
}

fn end(place: &mut Place) -> Effect
    ensures does { (session : Session) (out : List Datagram) → Does session (hearing.ends []) place.new out out }
    ensures effect { result ≡ Effect.Ended }
{
    place.live = false;
    Effect::Ended
}

fn deliver(place: &mut Place, msg: &Msg) -> Effect
    requires { place.old.live ≡ true }
    ensures does { (session : Session) (out : List Datagram) → Like place.old session
        → Does session (hearing.delivered (message_of msg.now) session) place.new out out }
    ensures effect { (session : Session) → Like place.old session
        → IsEffect msg.now.payload.now (hearing.delivered (message_of msg.now) session).effect result }
    ensures room { result ≡ Effect.Payload → has_room_here place.new ≡ true }
{
    if place.user.is_none() || !place.sender.room() {
        return Effect::Nothing;
    }
    match place.receiver.take(msg.sequence) {
        Taken::New => Effect::Payload,
        Taken::Repeat => {
            place.owed = true;
            Effect::Nothing
        }
        Taken::Outside => Effect::Nothing,
    }
}
