//! A link for datagrams.
ghost use Rattle.std.specs.Prelude.{◌≡◌, ◌≤◌, ◌+◌, [], ◌∷◌, List, ℕ, Option, is_ok, IsErr, IfSome};
ghost use Rattle.std.specs.Option.{option_map};
ghost use Rattle.sed_outside.specs.Cause.{HasCause};
ghost use Rattle.sed_outside.specs.declared.offer.Offer.{Offer};
ghost use Rattle.sed_outside.specs.declared.polling.Polling.{Polling};
ghost use Rattle.sed_outside.specs.Counts.{one_more};
ghost use Rattle.sed_outside.specs.Link.{Bound, next_poll, later_polls, answered, IsShort, KeepsUnlessGot, Binds};
ghost use Rattle.sed_outside.specs.Told.{Told, AddsWhereTold};

use crate::Addr;
use thiserror::Error;

/// Why a call of a link was not done.
#[derive(Clone, Copy, Debug, PartialEq, Eq, Error)]
pub enum LinkFault {
    /// The outside failed, and the count of faults rose or stands at its last value.
    #[error("the link failed")]
    Failed,
}

/// What a poll came to.
#[derive(Clone, Copy, Debug, PartialEq, Eq)]
pub enum Polled {
    /// A datagram.
    Got {
        /// Its sender.
        from: Addr,
        /// How many bytes it has, at most 512.
        len: usize,
    },
    /// No datagram, or one above 512 bytes.
    Nothing,
    /// The outside failed, and the count of faults rose or stands at its last value.
    Failed,
}

/// A port of this host, over which datagrams of at most 512 bytes come and go. A datagram may be lost, and one that is
/// sent may never arrive.
pub trait Link {
    /// The polls still to come, where they are told. Whether they are told is changed by no call, here and below.
    ghost polls: { Self → Option (List Polling) };

    /// The datagrams that were offered so far, whether they were sent or not.
    ghost offered: { Self → Option (Told Offer) };

    /// How many polls were made. The count goes on by one, and stands still at 2^64 - 1.
    ghost polled: { Self → ℕ };

    /// How often a port was asked for, which one last, and whether that was taken.
    ghost bound: { Self → Option Bound };

    /// How many calls have failed. The count never falls, goes on by one, and stands still at 2^64 - 1.
    ghost faults: { Self → ℕ };

    /// Takes a port, in place of one that was taken before. After a fault none is taken.
    fn bind(&mut self, port: u16) -> Result<(), LinkFault>
        ensures bound { Binds (bound self.old) (bound self.new) port }
        ensures taken { IfSome (bound self.new) (λ now. now.taken ≡ is_ok result) }
        ensures polls { polls self.new ≡ polls self.old }
        ensures polled { polled self.new ≡ polled self.old }
        ensures offered { offered self.new ≡ offered self.old }
        ensures cause { HasCause (faults self.old) (faults self.new) (IsErr result) }
        ensures by_one { faults self.new ≤ faults self.old + 1 };

    /// Takes a datagram that came, its bytes in front of `into`, and never waits for one. Where none came `into` stays.
    fn poll(&mut self, into: &mut [u8; 512]) -> Polled
        ensures told { IfSome (polls self.old) (λ to_come. answered result into.new ≡ next_poll to_come) }
        ensures later { polls self.new ≡ option_map later_polls (polls self.old) }
        ensures short { IsShort result }
        ensures kept { KeepsUnlessGot result into.old into.new }
        ensures polled { polled self.new ≡ one_more (polled self.old) }
        ensures offered { offered self.new ≡ offered self.old }
        ensures bound { bound self.new ≡ bound self.old }
        ensures cause { HasCause (faults self.old) (faults self.new) (result ≡ Polled.Failed) }
        ensures by_one { faults self.new ≤ faults self.old + 1 };

    /// Offers a datagram to that peer. After a fault it was offered too, and is lost.
    fn send(&mut self, to: Addr, bytes: &[u8]) -> Result<(), LinkFault>
        ensures offered { AddsWhereTold (offered self.old) (offered self.new)
            (record { datagram = record { peer = to; bytes = bytes.now }; polled = polled self.old } ∷ []) }
        ensures polls { polls self.new ≡ polls self.old }
        ensures polled { polled self.new ≡ polled self.old }
        ensures bound { bound self.new ≡ bound self.old }
        ensures cause { HasCause (faults self.old) (faults self.new) (IsErr result) }
        ensures by_one { faults self.new ≤ faults self.old + 1 };
}
