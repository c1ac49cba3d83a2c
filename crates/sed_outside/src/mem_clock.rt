//! A clock in memory.
ghost use Rattle.std.specs.Prelude.{◌≡◌, ◌≤◌, [], ◌∷◌, Some, IfOk, vec_len};
ghost use Rattle.sed_outside.specs.Clock.{all_to_come, next_moment, later_moments};
ghost use Rattle.sed_outside.specs.Counts.{one_more};
ghost use Rattle.sed_outside.specs.MemClock.{moments_in, asked_in, given_by};
ghost use Rattle.sed_outside.specs.Told.{told_none, Adds, HasRoom, with_item, with_more};

use crate::clock::Clock;
use crate::first_ones::FirstOnes;
use crate::sleep::Sleep;
use sed_value::Memory;
use std::alloc::Global;

/// A clock in memory, whose moments are given and which never waits. It tells its moments, and of the sleeps that were
/// asked the first ones, as many as its room, and whether there were more.
#[derive(Drop)]
pub struct MemClock {
    moments: Vec<i64>,
    next: usize,
    last: i64,
    asked: FirstOnes<Sleep>,
    given: u64,
}

impl MemClock {
    /// A clock that gives these moments in their order and then the last one again, or 0 where there are none. It has
    /// room for so many sleeps, for which it takes all its memory here.
    pub fn new(alloc: Global, moments: Vec<i64>, room: usize) -> Result<MemClock, Memory>
        ensures moments { IfOk result (λ clock. ⟦<MemClock as Clock>⟧.moments clock
            ≡ Some (all_to_come moments.items)) }
        ensures asked { IfOk result (λ clock. ⟦<MemClock as Clock>⟧.asked clock ≡ Some told_none) }
        ensures given { IfOk result (λ clock. ⟦<MemClock as Clock>⟧.given clock ≡ 0) }
        ensures to_come { IfOk result (λ clock. moments_in clock ≡ all_to_come moments.items) }
        ensures room { IfOk result (λ clock. asked_in clock ≡ record { told = told_none; room = room }) }
    {
        match FirstOnes::new(alloc, room) {
            Ok(asked) => Ok(MemClock {
                moments,
                next: 0,
                last: 0,
                asked,
                given: 0,
            }),
            Err(Memory) => Err(Memory),
        }
    }

    /// The first sleeps that were asked, as many as the room.
    pub fn asked(&self) -> &[Sleep]
        ensures { result.now ≡ (asked_in self.now).told.first }
    {
        self.asked.first()
    }

    /// Whether more sleeps were asked.
    pub fn asked_more(&self) -> bool
        ensures { result ≡ (asked_in self.now).told.more }
    {
        self.asked.has_more()
    }
}

impl Clock for MemClock {
    ghost moments = { λ m. Some (moments_in m) };

    ghost asked = { λ m. Some (asked_in m).told };

    ghost given = { λ m. given_by m };

    fn now(&mut self) -> i64
        ensures told { result ≡ next_moment (moments_in self.old) }
        ensures later { moments_in self.new ≡ later_moments (moments_in self.old) }
        ensures given { given_by self.new ≡ one_more (given_by self.old) }
        ensures asked { asked_in self.new ≡ asked_in self.old }
    {
        self.given = self.given.saturating_add(1);
        if self.next < self.moments.len() {
            self.last = self.moments[self.next];
            self.next += 1;
        }
        self.last
    }

    /// As every sleep, and: it is told where there is room for it. It comes back at once.
    fn sleep_until(&mut self, moment: i64)
        ensures asked { Adds (asked_in self.old).told (asked_in self.new).told
            (record { moment = moment; given = given_by self.old } ∷ []) }
        ensures given { given_by self.new ≡ given_by self.old }
        ensures moments { moments_in self.new ≡ moments_in self.old }

        ensures kept { HasRoom (asked_in self.old)
            → asked_in self.new ≡ with_item (asked_in self.old)
            (record { moment = moment; given = given_by self.old }) }
        ensures passed { (HasRoom (asked_in self.old) → ⊥) → asked_in self.new ≡ with_more (asked_in self.old) }
    {
        if self.asked.has_room() {
            let given = self.given;
            self.asked.put(Sleep { moment, given });
        } else {
            self.asked.pass();
        }
    }
}
