//! A link in memory.
ghost use Rattle.std.specs.Prelude.{◌≡◌, ◌≤◌, ◌+◌, ◌-◌, ◌^◌, ◌↔◌, [], ◌∷◌, false, min, Some, is_ok, IfOk, IsOk, IsErr};
ghost use Rattle.std.specs.Prelude.{IsTrue};
ghost use Rattle.std.specs.Bool.{OnTrue, OnFalse};
ghost use Rattle.sed_outside.specs.Cause.{HasCause};
ghost use Rattle.sed_outside.specs.Failing.{begins_with, FailsNow, after_call};
ghost use Rattle.sed_outside.specs.Counts.{one_more};
ghost use Rattle.sed_outside.specs.Link.{next_poll, later_polls, answered, IsShort, KeepsUnlessGot};
ghost use Rattle.sed_outside.specs.MemLink.{polls_in, offered_in, polled_by, bound_in, plan_of, faults_of};
ghost use Rattle.sed_outside.specs.MemLink.{HasRoomFor};
ghost use Rattle.sed_outside.specs.Told.{told_none, Adds, with_item, with_more};

use crate::datagram::Datagram;
use crate::first_ones::FirstOnes;
use crate::link::{Link, LinkFault, Polled};
use crate::offer::Offer;
use crate::polling::{Polling, Polls};
use crate::{Addr, FailingCalls};
use sed_value::limits::LONGEST_DATAGRAM;
use sed_value::{InPlace, Memory};
use std::alloc::Global;

/// A link in memory, whose polls are given and whose binds and sends fail by number. It tells its polls, how often a
/// port was asked for, which one last and whether that was taken, and of the datagrams that were offered the first
/// ones, as many as its room, and whether there were more.
#[derive(Drop)]
pub struct MemLink {
    polls: Polls,
    offered: FirstOnes<Offer>,
    polled: u64,
    binds: u64,
    port: u16,
    taken: bool,
    calls: FailingCalls,
    faults: u64,
}

impl MemLink {
    /// A link whose polls give these in their order, with room for so many datagrams, for which it takes all its memory
    /// here. `fails` has the numbers, from 0, of the calls that fail, binds and sends numbered together. No port was
    /// asked for yet; the last one is told as 0, and as not taken.
    pub fn new(
        alloc: Global,
        polls: Vec<Polling>,
        room: usize,
        fails: Vec<usize>,
    ) -> Result<MemLink, Memory>
        ensures polls { IfOk result (λ link. ⟦<MemLink as Link>⟧.polls link ≡ Some polls.items) }
        ensures offered { IfOk result (λ link. ⟦<MemLink as Link>⟧.offered link ≡ Some told_none) }
        ensures polled { IfOk result (λ link. ⟦<MemLink as Link>⟧.polled link ≡ 0) }
        ensures bound { IfOk result (λ link. ⟦<MemLink as Link>⟧.bound link
            ≡ Some (record { count = 0; port = 0; taken = false })) }
        ensures faults { IfOk result (λ link. ⟦<MemLink as Link>⟧.faults link ≡ 0) }
        ensures to_come { IfOk result (λ link. polls_in link ≡ polls.items) }
        ensures room { IfOk result (λ link. offered_in link ≡ record { told = told_none; room = room }) }
        ensures fails { IfOk result (λ link. plan_of link ≡ begins_with fails.items) }
    {
        match FirstOnes::new(alloc, room) {
            Ok(offered) => Ok(MemLink {
                polls: Polls::new(polls),
                offered,
                polled: 0,
                binds: 0,
                port: 0,
                taken: false,
                calls: FailingCalls::new(fails),
                faults: 0,
            }),
            Err(Memory) => Err(Memory),
        }
    }

    /// The first datagrams that were offered, as many as the room.
    pub fn offered(&self) -> &[Offer]
        ensures { result.now ≡ (offered_in self.now).told.first }
    {
        self.offered.first()
    }

    /// Whether more datagrams were offered.
    pub fn offered_more(&self) -> bool
        ensures { result ≡ (offered_in self.now).told.more }
    {
        self.offered.has_more()
    }
}

// Counts a fault.
fn counted(faults: &mut u64) -> LinkFault
    ensures count { faults.new ≡ min (faults.old + 1) (2 ^ 64 - 1) }
    ensures later { faults.old ≤ faults.new }
{
    *faults = faults.saturating_add(1);
    LinkFault::Failed
}

// Keeps a datagram behind those that were offered before, with how many polls were made by then, where there is room
// for it, and answers whether there was.
fn keep(offered: &mut FirstOnes<Offer>, peer: Addr, bytes: &[u8], polled: u64) -> bool
    ensures room { IsTrue result ↔ HasRoomFor offered.old bytes.now }
    ensures kept { OnTrue result (offered.new ≡ with_item offered.old (record {
      datagram = record { peer = peer; bytes = bytes.now };
      polled = polled;
    })) }
    ensures passed { OnFalse result (offered.new ≡ with_more offered.old) }
    ensures adds { Adds offered.old.told offered.new.told
        (record { datagram = record { peer = peer; bytes = bytes.now }; polled = polled } ∷ []) }
{
    if bytes.len() > LONGEST_DATAGRAM || !offered.has_room() {
        offered.pass();
        return false;
    }
    let bytes = InPlace::new(bytes);
    let datagram = Datagram { peer, bytes };
    offered.put(Offer { datagram, polled });
    true
}

impl Link for MemLink {
    ghost polls = { λ m. Some (polls_in m) };

    ghost offered = { λ m. Some (offered_in m).told };

    ghost polled = { λ m. polled_by m };

    ghost bound = { λ m. Some (bound_in m) };

    ghost faults = { faults_of };

    /// As every bind, and: the call is counted, and is a fault exactly where its number is among those that fail.
    fn bind(&mut self, port: u16) -> Result<(), LinkFault>
        ensures bound { bound_in self.new ≡ record {
          count = min ((bound_in self.old).count + 1) (2 ^ 64 - 1);
          port = port;
          taken = is_ok result;
        } }
        ensures taken { (bound_in self.new).taken ≡ is_ok result }
        ensures polls { polls_in self.new ≡ polls_in self.old }
        ensures polled { polled_by self.new ≡ polled_by self.old }
        ensures offered { offered_in self.new ≡ offered_in self.old }
        ensures cause { HasCause (faults_of self.old) (faults_of self.new) (IsErr result) }
        ensures by_one { faults_of self.new ≤ faults_of self.old + 1 }

        ensures calls { plan_of self.new ≡ after_call (plan_of self.old) }
        ensures planned { IsErr result ↔ FailsNow (plan_of self.old) }
    {
        self.binds = self.binds.saturating_add(1);
        self.port = port;
        self.taken = !self.calls.fails_now();
        if !self.taken {
            return Err(counted(&mut self.faults));
        }
        Ok(())
    }

    /// As every poll. It is no call that is counted.
    fn poll(&mut self, into: &mut [u8; 512]) -> Polled
        ensures told { answered result into.new ≡ next_poll (polls_in self.old) }
        ensures later { polls_in self.new ≡ later_polls (polls_in self.old) }
        ensures short { IsShort result }
        ensures kept { KeepsUnlessGot result into.old into.new }
        ensures polled { polled_by self.new ≡ one_more (polled_by self.old) }
        ensures offered { offered_in self.new ≡ offered_in self.old }
        ensures bound { bound_in self.new ≡ bound_in self.old }
        ensures cause { HasCause (faults_of self.old) (faults_of self.new) (result ≡ Polled.Failed) }
        ensures by_one { faults_of self.new ≤ faults_of self.old + 1 }

        ensures calls { plan_of self.new ≡ plan_of self.old }
    {
        self.polled = self.polled.saturating_add(1);
        let polled = self.polls.poll(into);
        if polled == Polled::Failed {
            self.faults = self.faults.saturating_add(1);
        }
        polled
    }

    /// As every send, and: the call is counted. It is a fault where its number is among those that fail, and past the
    /// room; any other is done. A datagram is told where there is room for it, whether it is sent or not. One above 512
    /// bytes has no room, and once one was not told, no later one is.
    fn send(&mut self, to: Addr, bytes: &[u8]) -> Result<(), LinkFault>
        ensures offered { Adds (offered_in self.old).told (offered_in self.new).told
            (record { datagram = record { peer = to; bytes = bytes.now }; polled = polled_by self.old } ∷ []) }
        ensures polls { polls_in self.new ≡ polls_in self.old }
        ensures polled { polled_by self.new ≡ polled_by self.old }
        ensures bound { bound_in self.new ≡ bound_in self.old }
        ensures cause { HasCause (faults_of self.old) (faults_of self.new) (IsErr result) }
        ensures by_one { faults_of self.new ≤ faults_of self.old + 1 }

        ensures calls { plan_of self.new ≡ after_call (plan_of self.old) }
        ensures kept { HasRoomFor (offered_in self.old) bytes.now
            → offered_in self.new ≡ with_item (offered_in self.old)
            (record { datagram = record { peer = to; bytes = bytes.now }; polled = polled_by self.old }) }
        ensures passed { (HasRoomFor (offered_in self.old) bytes.now → ⊥)
            → IsErr result × (offered_in self.new ≡ with_more (offered_in self.old)) }
        ensures planned { FailsNow (plan_of self.old) → IsErr result }
        ensures done { (FailsNow (plan_of self.old) → ⊥) → HasRoomFor (offered_in self.old) bytes.now → IsOk result }
    {
        let fails = self.calls.fails_now();
        if keep(&mut self.offered, to, bytes, self.polled) && !fails {
            return Ok(());
        }
        Err(counted(&mut self.faults))
    }
}
