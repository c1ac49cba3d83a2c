//! The datagrams that are to be sent.
ghost use Rattle.std.specs.Prelude.{◌≡◌, ◌+◌, ◌<◌, ◌≤◌, ◌==◌, [], ◌∷◌, length, slice_index_or, IfOk};
ghost use Rattle.dasp_msg.specs.Sending.{IsSentAs};
ghost use Rattle.dasp_msg.specs.View.{message_of};
ghost use Rattle.dasp_msg.specs.Sending.{CanGo};
ghost use Rattle.dasp_session.specs.Outbox.{Datagram as Text, Sends};

use dasp_msg::{Msg, Written};
use sed_outside::Addr;
use sed_value::Memory;
use std::alloc::Global;
use std::marker::Model;

/// How many datagrams an outbox holds.
pub const MOST_DATAGRAMS: usize = 512;

/// Datagrams in the order in which they are to be sent. Contracts see their list, each with its address and bytes.
#[derive(Drop)]
pub struct Outbox {
    datagrams: Vec<Outgoing>,
    len: usize,
}

impl Model for Outbox {
    ghost use Rattle.std.specs.Prelude.{◌≡◌, ◌≤◌, List, length, take};
    ghost use Rattle.dasp_session.specs.Outbox.{Datagram};

    ghost Value = { List Datagram };

    ghost view = { λ outbox. take outbox.len outbox.datagrams.items };

    ghost invariant = { λ outbox. (length outbox.datagrams.items ≡ 512) × (outbox.len ≤ 512) };
}

impl Outbox {
    /// An empty outbox. It takes the memory of all its datagrams here.
    pub fn new(alloc: Global) -> Result<Outbox, Memory>
        ensures { IfOk result (λ outbox. outbox ≡ []) }
    {
        let mut datagrams = Vec::with_capacity(alloc, MOST_DATAGRAMS)?;
        for _ in 0..MOST_DATAGRAMS {
            datagrams.push_reserved(Outgoing::empty());
        }
        Ok(Outbox { datagrams, len: 0 })
    }

    /// How many datagrams there are, at most 512.
    pub fn len(&self) -> usize
        ensures { result ≡ length self.now }
    {
        self.len
    }

    /// Whether there are none.
    pub fn is_empty(&self) -> bool
        ensures { result ≡ (length self.now == 0) }
    {
        self.len == 0
    }

    /// A datagram's address and bytes, by its place from 0 on: at most 512 bytes.
    pub fn get(&self, place: usize) -> (Addr, &[u8])
        requires { place < length self.now }
        ensures is { (other : Text)
            → slice_index_or self.now place other ≡ record { to = result.0; bytes = result.1.now } }
        ensures short { length result.1.now ≤ 512 }
    {
        self.datagrams[place].parts()
    }

    /// Forgets all datagrams.
    pub fn clear(&mut self)
        ensures { self.new ≡ [] }
    {
        self.len = 0;
    }

    // Puts the text of a message behind the others.
    pub(crate) fn send(&mut self, to: Addr, msg: &Msg)
        requires can { CanGo (message_of msg.now) }
        requires room { length self.old < 512 }
        ensures sends { Sends (record { to = to; message = message_of msg.now } ∷ []) self.old self.new }
        ensures count { length self.new ≡ length self.old + 1 }
    {
        self.datagrams[self.len].write(to, msg);
        self.len += 1;
    }
}

// A datagram, and where it is sent.
#[derive(Drop)]
struct Outgoing {
    to: Addr,
    text: Written,
}

impl Model for Outgoing {
    ghost use Rattle.dasp_session.specs.Outbox.{Datagram};

    ghost Value = { Datagram };

    ghost view = { λ kept. record { to = kept.to; bytes = kept.text } };
}

impl Outgoing {
    fn empty() -> Outgoing {
        Outgoing {
            to: Addr {
                ip: [0; 4],
                port: 0,
            },
            text: Written::empty(),
        }
    }

    fn parts(&self) -> (Addr, &[u8])
        ensures is { self.now ≡ record { to = result.0; bytes = result.1.now } }
        ensures short { length result.1.now ≤ 512 }
    {
        (self.to, self.text.as_bytes())
    }

    fn write(&mut self, to: Addr, msg: &Msg)
        requires { CanGo (message_of msg.now) }
        ensures to { self.new.to ≡ to }
        ensures bytes { IsSentAs (message_of msg.now) self.new.bytes }
    {
        self.to = to;
        self.text.write(msg);
    }
}
