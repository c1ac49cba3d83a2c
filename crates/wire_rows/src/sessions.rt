//! Users, digests, and what the sessions of a node answer.
ghost use Rattle.std.specs.Prelude.{◌≡◌, ◌<◌, length};

use crate::told::{array, here, tell};
use dasp_session::{Handed, Outbox, Sessions, Users, credential, digest, is_same_digest, nonce};
use rows::{Case, CaseFault};
use sed_outside::Addr;
use std::alloc::Global;

// SHA-1 of `ann:secret` and of `bob:word`.
const USERS: &[u8] = b"ann:ed125f01e22fae5e33763eac4b67d7ad01c3bc73\n\
    bob:1c938b29a089900402e6e621ca5a40fbbd934235\n";

/// The credential of a user of a users file.
pub fn users(case: &mut Case) {
    let text = case.input();
    let user = case.input();
    match Users::read(case.alloc(), text.as_slice()) {
        Ok(users) => case.show(&users.credential(user.as_slice())),
        Err(refusal) => case.show(&refusal),
    }
}

/// What a call gives of twenty bytes, and a number or bytes; and the credential of a user's name and a password.
pub fn digests(case: &mut Case) {
    let call = case.text();
    let first = case.text();
    let second = case.text();
    if call.as_str() == "credential" {
        return case.hex(&credential(first.as_bytes(), second.as_bytes()));
    }
    let first = array(case, first.as_str());
    match call.as_str() {
        "nonce" => {
            let made = case.parsed(second.as_str());
            case.hex(&nonce(&first, made));
        }
        "digest" => {
            let nonce = array(case, second.as_str());
            case.hex(&digest(&first, &nonce));
        }
        _ => {
            let shown = case.bytes_in(second.as_str(), 0);
            case.show(&is_same_digest(&first, shown.as_slice()));
        }
    }
}

/// What a script leads to, with the secret of twenty bytes 1.
pub fn sessions(case: &mut Case) {
    let script = case.text();
    let (Some(mut sessions), Ok(mut outbox)) = (no_session(case.alloc()), Outbox::new(case.alloc()))
    else {
        return case.fail(CaseFault::Memory);
    };
    for part in script.as_str().split(' ') {
        outbox.clear();
        do_part(case, &mut sessions, &mut outbox, part);
        tell_sent(case, &outbox);
    }
    case.put(b"end");
}

fn no_session(alloc: Global) -> Option<Sessions> {
    let users = Users::read(alloc, USERS).ok()?;
    Sessions::new(alloc, users, [1; 20], 0).ok()
}

fn do_part(case: &mut Case, sessions: &mut Sessions, outbox: &mut Outbox, part: &str)
    requires { length outbox.old ≡ 0 }
{
    let (name, words) = part.split_once(':').unwrap_or((part, ""));
    let (place, bytes) = words.split_once(':').unwrap_or((words, ""));
    let place = place.parse().unwrap_or(0u8) % 16;
    match name {
        "a" => hear(case, sessions, outbox, here(2001), words),
        "b" => hear(case, sessions, outbox, here(2002), words),
        "tick" => tick(case, sessions, outbox, words, false),
        "keep" => tick(case, sessions, outbox, words, true),
        "p" => post(case, sessions, outbox, place, bytes),
        "u" => tell(case, &("user", sessions.user(place))),
        "r" if sessions.is_live(place) => tell(case, &("room", sessions.room(place))),
        "r" => case.put(b"not live "),
        _ => tell(case, &("live", sessions.live())),
    }
}

fn hear(case: &mut Case, sessions: &mut Sessions, outbox: &mut Outbox, from: Addr, words: &str)
    requires { length outbox.old ≡ 0 }
{
    let bytes = case.bytes_in(words, 0);
    match sessions.datagram(from, bytes.as_slice(), outbox) {
        Handed::Nothing => {}
        Handed::Ended { place } => tell(case, &("ended", place)),
        Handed::Payload { place, at } => {
            let payload = bytes.as_slice().get(at..);
            tell(case, &("payload", place, payload));
        }
    }
}

// A tick of each live session, by its place.
fn tick(case: &mut Case, sessions: &mut Sessions, outbox: &mut Outbox, moment: &str, keeps: bool) {
    sessions.advance(case.parsed(moment));
    for place in 0..16 {
        if outbox.len() <= 480 && sessions.is_live(place) {
            if !sessions.tick(place, outbox) {
                tell(case, &("timeout", place));
            } else if keeps && outbox.len() < 512 {
                sessions.keep(place, outbox);
            }
        }
    }
}

fn post(case: &mut Case, sessions: &mut Sessions, outbox: &mut Outbox, place: u8, bytes: &str)
    requires empty { length outbox.old ≡ 0 }
    requires place { place < 16 }
{
    let bytes = case.bytes_in(bytes, 0);
    let open = sessions.is_live(place) && sessions.user(place).is_some();
    if open && sessions.room(place) && bytes.len() <= 498 {
        sessions.post(place, bytes.as_slice(), outbox);
    } else {
        case.put(b"not posted ");
    }
}

fn tell_sent(case: &mut Case, outbox: &Outbox) {
    for index in 0..outbox.len() {
        let (to, bytes) = outbox.get(index);
        case.say(&to.port);
        case.put(b">");
        case.hex(bytes);
        case.put(b" ");
    }
}
