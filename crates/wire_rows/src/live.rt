//! Links and clocks in memory.
use crate::told::{here, list, tell};
use rows::{Case, CaseFault};
use sed_outside::{Addr, Clock, Link, MemClock, MemLink, Polled, Polling, Round, wake};
use sed_value::Items;

/// What calls of a link and of a clock answer, and what those tell then.
pub fn lives(case: &mut Case) {
    let polls = list(case, poll_of);
    let moments = list(case, Case::parsed);
    let room = case.number();
    let fails = list(case, Case::parsed);
    let calls = case.text();
    let Ok(mut link) = MemLink::new(case.alloc(), polls, room, fails) else {
        return case.fail(CaseFault::Memory);
    };
    let Ok(mut clock) = MemClock::new(case.alloc(), moments, room) else {
        return case.fail(CaseFault::Memory);
    };
    for call in calls.as_str().split(' ') {
        do_call(case, &mut link, &mut clock, call);
    }
    case.put(b"offered ");
    for offer in link.offered() {
        put_datagram(case, offer.datagram.peer, offer.datagram.bytes.as_bytes());
        case.put(b"@");
        case.say(&offer.polled);
        case.put(b" ");
    }
    tell(case, &link.offered_more());
    case.put(b"asked [");
    let mut behind: &[u8] = b"";
    for sleep in clock.asked() {
        case.put(behind);
        case.say(&sleep.moment);
        case.put(b"@");
        case.say(&sleep.given);
        behind = b", ";
    }
    case.put(b"] ");
    case.show(&clock.asked_more());
}

fn do_call<L: Link, C: Clock>(case: &mut Case, link: &mut L, clock: &mut C, call: &str) {
    let mut into = [b'?'; 512];
    match call.split_once(':').unwrap_or((call, "")) {
        ("bind", port) => {
            let bound = link.bind(case.parsed(port));
            tell(case, &bound);
        }
        ("poll", _) => tell_polled(case, link.poll(&mut into), &into),
        ("hear", _) => hear(case, link),
        ("now", _) => tell(case, &clock.now()),
        ("sleep", moment) => clock.sleep_until(case.parsed(moment)),
        (_, datagram) => {
            let (to, bytes) = datagram_of(case, datagram);
            tell(case, &link.send(to, bytes.as_slice()));
        }
    }
}

fn tell_polled(case: &mut Case, polled: Polled, into: &[u8; 512]) {
    match polled {
        Polled::Got { from, len } => tell_datagram(case, from, into.get(..len).unwrap_or(b"?")),
        other => tell(case, &other),
    }
}

// What one cycle hears.
fn hear<L: Link>(case: &mut Case, link: &mut L) {
    let mut round = Round::new();
    let mut into = [b'?'; 512];
    // More polls than any cycle has.
    for _ in 0..40 {
        let Some((from, len)) = round.next(link, &mut into) else {
            return case.put(b"/ ");
        };
        tell_polled(case, Polled::Got { from, len }, &into);
    }
}

fn poll_of(case: &mut Case, word: &str) -> Polling {
    match word {
        "-" => Polling::Nothing,
        "!" => Polling::Failed,
        _ => {
            let (from, bytes) = datagram_of(case, word);
            let bytes = Items::new(bytes);
            Polling::Got { from, bytes }
        }
    }
}

fn datagram_of(case: &mut Case, text: &str) -> (Addr, Vec<u8>) {
    let (port, bytes) = text.split_once('=').unwrap_or(("", ""));
    (here(case.parsed(port)), case.bytes_in(bytes, 0))
}

fn put_datagram(case: &mut Case, peer: Addr, bytes: &[u8]) {
    case.show(&peer);
    case.put(b"=");
    case.hex(bytes);
}

fn tell_datagram(case: &mut Case, peer: Addr, bytes: &[u8]) {
    put_datagram(case, peer, bytes);
    case.put(b" ");
}

/// The moment to which a program sleeps.
pub fn wakes(case: &mut Case) {
    let first = case.number();
    let done = case.number();
    let period = case.number();
    case.say(&wake(first, done, period));
}
