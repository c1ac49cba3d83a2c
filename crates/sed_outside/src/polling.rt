//! The polls of a link in memory.
ghost use Rattle.std.specs.Prelude.{◌≡◌, List};
ghost use Rattle.sed_outside.specs.Link.{given, next_poll, later_polls, answered, IsShort, KeepsUnlessGot};

use crate::Addr;
use crate::link::Polled;
use sed_value::Items;
use sed_value::limits::LONGEST_DATAGRAM;
use std::marker::Model;

/// What a poll is to give.
#[derive(Drop)]
pub enum Polling {
    /// A datagram. One above 512 bytes is given as nothing.
    Got {
        /// Its sender.
        from: Addr,
        /// Its bytes.
        bytes: Items<u8>,
    },
    /// No datagram.
    Nothing,
    /// A fault.
    Failed,
}

/// Polls in their order, and which of them comes next. Contracts see those still to come.
#[derive(Drop)]
pub struct Polls {
    all: Vec<Polling>,
    next: usize,
}

impl Model for Polls {
    ghost use Rattle.std.specs.Prelude.{◌≤◌, List, drop, vec_len};
    ghost use Rattle.sed_outside.specs.declared.polling.Polling.{Polling};

    ghost Value = { List Polling };

    ghost view = { λ p. drop p.next p.all.items };

    ghost invariant = { λ p. p.next ≤ vec_len p.all };
}

impl Polls {
    /// All these are to come. It takes no memory.
    pub fn new(all: Vec<Polling>) -> Polls
        ensures { result ≡ all.items }
    {
        Polls { all, next: 0 }
    }

    /// Gives the next one, with its bytes in front of `into`; nothing after the last one.
    pub fn poll(&mut self, into: &mut [u8; 512]) -> Polled
        ensures given { answered result into.new ≡ next_poll self.old }
        ensures later { self.new ≡ later_polls self.old }
        ensures short { IsShort result }
        ensures kept { KeepsUnlessGot result into.old into.new }
    {
        match self.all.get(self.next) {
            Some(polling) => {
                self.next += 1;
                give(polling, into)
            }
            None => Polled::Nothing,
        }
    }
}

// Gives this, with its bytes in front of `into`.
fn give(polling: &Polling, into: &mut [u8; 512]) -> Polled
    ensures given { answered result into.new ≡ given polling.now }
    ensures short { IsShort result }
    ensures kept { KeepsUnlessGot result into.old into.new }
{
    match polling {
        Polling::Got { from, bytes } if bytes.len() <= LONGEST_DATAGRAM => {
            let len = bytes.len();
            into[..len].copy_from_slice(bytes.as_slice());
            Polled::Got { from: *from, len }
        }
        Polling::Got { .. } | Polling::Nothing => Polled::Nothing,
        Polling::Failed => Polled::Failed,
    }
}
