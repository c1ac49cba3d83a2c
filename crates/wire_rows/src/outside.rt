//! A socket of 127.0.0.1, and the system's clock.
use crate::told::{here, tell};
use rows::Case;
use sed_outside::{Clock, Link, Polled, RealClock, UdpLink};
use std::net::Net;
use std::time;

/// What the calls of a socket answer, or what the clock tells.
pub fn outside<R: Net + time::Clock>(case: &mut Case, rt: &R) {
    match case.text().as_str() {
        "socket" => try_socket(case, rt),
        _ => try_clock(case, rt),
    }
}

// Sends datagrams to oneself.
fn try_socket<R: Net + time::Clock>(case: &mut Case, rt: &R) {
    let mut link = UdpLink::new(rt);
    let mut into = [0; 512];
    tell(case, &link.poll(&mut into));
    tell(case, &link.send(here(1), b"lost"));
    let port = take_port(&mut link);
    tell(case, &link.poll(&mut into));
    tell(case, &link.send(here(port), b"to oneself"));
    tell_next(case, rt, &mut link, port);
    tell(case, &link.send(here(port), &[7; 513]));
    tell(case, &link.send(here(port), &[b'x'; 512]));
    tell_next(case, rt, &mut link, port);
    tell(case, &link.poll(&mut into));
    case.show(&UdpLink::new(rt).bind(port));
}

// Takes the first port that is free, and gives 0 where none is.
fn take_port<L: Link>(link: &mut L) -> u16 {
    for port in 42_100..42_600 {
        if link.bind(port).is_ok() {
            return port;
        }
    }
    0
}

// Tells the next datagram that comes within a second: whether it is from oneself, its length and its front.
fn tell_next<R: time::Clock, L: Link>(case: &mut Case, rt: &R, link: &mut L, port: u16) {
    let mut clock = RealClock::new(rt);
    let mut into = [0; 512];
    for _ in 0..200 {
        match link.poll(&mut into) {
            Polled::Got { from, len } => {
                return tell(case, &(from == here(port), len, &into[..10]));
            }
            Polled::Nothing => {
                let now = clock.now();
                clock.sleep_until(now.saturating_add(5_000_000));
            }
            Polled::Failed => return case.put(b"failed "),
        }
    }
}

// Sleeps for 20 ms, and until a moment that has passed: whether the clock runs, and the sleeps are long and short
// enough.
fn try_clock<R: time::Clock>(case: &mut Case, rt: &R) {
    let mut clock = RealClock::new(rt);
    let start = clock.now();
    let moment = start.saturating_add(20_000_000);
    clock.sleep_until(moment);
    let after = clock.now();
    let soon = after < start.saturating_add(10_000_000_000);
    tell(case, &(start > 0, after >= moment, soon));
    clock.sleep_until(start);
    case.show(&(clock.now() < after.saturating_add(10_000_000_000)));
}
