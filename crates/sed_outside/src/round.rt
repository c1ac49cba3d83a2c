//! The polls of a cycle, and the moment to which a program sleeps behind it.
ghost use Rattle.std.specs.Prelude.{◌≡◌, ◌+◌, ◌≤◌, OnSome, IfSome, IfNone};
ghost use Rattle.sed_outside.specs.Counts.{one_more};
ghost use Rattle.sed_outside.specs.Rounds.{most_polls, wake_moment, HearsWhereTold};

use crate::Addr;
use crate::link::{Link, Polled};
use std::marker::Model;

/// How many polls a cycle has at most.
const MOST_POLLS: u8 = 16;

/// The nanoseconds of a millisecond.
const MILLISECOND: u64 = 1_000_000;

/// The polls of a cycle: at most 16, up to the first that gives no datagram. Contracts see how many are left.
#[derive(Drop)]
pub struct Round {
    left: u8,
}

impl Model for Round {
    ghost use Rattle.std.specs.Prelude.{ℕ};

    ghost Value = { ℕ };

    ghost view = { λ round. round.left };
}

impl Round {
    /// A cycle of which no poll was made.
    pub fn new() -> Round
        ensures { result ≡ most_polls }
    {
        Round { left: MOST_POLLS }
    }

    /// Polls once, and gives the sender of the datagram that came and how many bytes it has, which stand in front of
    /// `into`. Where none came or the poll failed, the cycle has no more polls. Where none is left, it does not poll.
    pub fn next<L: Link>(&mut self, link: &mut L, into: &mut [u8; 512]) -> Option<(Addr, usize)>
        ensures heard { HearsWhereTold self.old (L.polls link.old) result into.new self.new (L.polls link.new) }
        ensures left { OnSome result (self.old ≡ self.new + 1) }
        ensures ended { IfNone result (self.new ≡ 0) }
        ensures short { IfSome result (λ came. came.1 ≤ 512) }
        ensures kept { IfNone result (into.new ≡ into.old) }
        ensures polled { 1 ≤ self.old → L.polled link.new ≡ one_more (L.polled link.old) }
        ensures unpolled { self.old ≡ 0 → L.polled link.new ≡ L.polled link.old }
        ensures offered { L.offered link.new ≡ L.offered link.old }
        ensures bound { L.bound link.new ≡ L.bound link.old }
        ensures later { L.faults link.old ≤ L.faults link.new }
        ensures by_one { L.faults link.new ≤ L.faults link.old + 1 }
    {
        next_of(&mut self.left, link, into)
    }
}

// Polls once, where so many polls are left.
#[tactic(auto, using(crate::proofs::RoundLemmas::next_ones))]
fn next_of<L: Link>(left: &mut u8, link: &mut L, into: &mut [u8; 512]) -> Option<(Addr, usize)>
    ensures heard { HearsWhereTold left.old (L.polls link.old) result into.new left.new (L.polls link.new) }
    ensures left { OnSome result (left.old ≡ left.new + 1) }
    ensures ended { IfNone result (left.new ≡ 0) }
    ensures short { IfSome result (λ came. came.1 ≤ 512) }
    ensures kept { IfNone result (into.new ≡ into.old) }
    ensures polled { 1 ≤ left.old → L.polled link.new ≡ one_more (L.polled link.old) }
    ensures unpolled { left.old ≡ 0 → L.polled link.new ≡ L.polled link.old }
    ensures offered { L.offered link.new ≡ L.offered link.old }
    ensures bound { L.bound link.new ≡ L.bound link.old }
    ensures later { L.faults link.old ≤ L.faults link.new }
    ensures by_one { L.faults link.new ≤ L.faults link.old + 1 }
{
    if *left == 0 {
        return None;
    }
    match link.poll(into) {
        Polled::Got { from, len } => {
            *left -= 1;
            Some((from, len))
        }
        Polled::Nothing => {
            *left = 0;
            None
        }
        Polled::Failed => {
            *left = 0;
            None
        }
    }
}

/// The moment to which a program sleeps once so many cycles are done: so many periods behind the moment of its first
/// tick, or the last moment that there is. Moments are in nanoseconds, and the period is in milliseconds.
pub fn wake(first: i64, done: u32, period: u32) -> i64
    ensures { result ≡ wake_moment first done period }
{
    let millis = u64::from(done) * u64::from(period);
    first.saturating_add_unsigned(millis.saturating_mul(MILLISECOND))
}
