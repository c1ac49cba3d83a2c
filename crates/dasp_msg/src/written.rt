//! Room for the text of a message.
ghost use Rattle.std.specs.Prelude.{◌≡◌, ◌≤◌, [], length};
ghost use Rattle.dasp_msg.specs.Sending.{CanGo, IsSentAs};
ghost use Rattle.dasp_msg.specs.View.{message_of};

use crate::message::Msg;
use crate::writing::write_msg;
use sed_value::limits::LONGEST_DATAGRAM;
use std::marker::Model;

/// The bytes of a datagram, with room in the value itself for the longest one, 512 bytes. Contracts see the bytes.
#[derive(Drop)]
pub struct Written {
    bytes: [u8; LONGEST_DATAGRAM],
    len: usize,
}

impl Model for Written {
    ghost use Rattle.std.specs.Prelude.{ℕ, ◌≤◌, List, take};

    ghost Value = { List ℕ };

    ghost view = { λ written. take written.len written.bytes };

    ghost invariant = { λ written. written.len ≤ 512 };
}

impl Written {
    /// No bytes yet.
    pub fn empty() -> Written
        ensures { result ≡ [] }
    {
        Written {
            bytes: [0; LONGEST_DATAGRAM],
            len: 0,
        }
    }

    /// The bytes, at most 512.
    pub fn as_bytes(&self) -> &[u8]
        ensures same { result.now ≡ self.now }
        ensures short { length self.now ≤ 512 }
    {
        &self.bytes[..self.len]
    }

    /// Puts the text of a message that may be sent in place of what stood here.
    pub fn write(&mut self, msg: &Msg)
        requires { CanGo (message_of msg.now) }
        ensures { IsSentAs (message_of msg.now) self.new }
    {
        self.len = write_msg(msg, &mut self.bytes);
    }
}
