//! Text with a room of its own, for which the memory is taken once.
ghost use Rattle.std.specs.Prelude.{◌≡◌, ◌≤◌, ◌+◌, ◌↔◌, ◌++◌, [], take, length, IfOk, IsTrue, vec_len, vec_capacity};
ghost use Rattle.sed_outside.specs.Bounded.{room_left};

use sed_value::Memory;
use std::alloc::Global;
use std::marker::Model;

/// Bytes in memory, and how many there are at most. Contracts see both.
#[derive(Drop)]
pub struct BoundedText {
    bytes: Vec<u8>,
    most: usize,
}

impl Model for BoundedText {
    ghost use Rattle.std.specs.Prelude.{◌≤◌, vec_len, vec_capacity};
    ghost use Rattle.sed_outside.specs.Bounded.{Bounded};

    ghost Value = { Bounded };

    ghost view = { λ t. record { text = t.bytes.items; room = t.most } };

    ghost invariant = { λ t. (vec_len t.bytes ≤ t.most) × (t.most ≤ vec_capacity t.bytes) };
}

impl BoundedText {
    /// No bytes, with room for so many. It takes all its memory here.
    pub fn new(alloc: Global, room: usize) -> Result<BoundedText, Memory>
        ensures text { IfOk result (λ text. text.text ≡ []) }
        ensures room { IfOk result (λ text. text.room ≡ room) }
    {
        match Vec::with_capacity(alloc, room) {
            Ok(bytes) => Ok(BoundedText { bytes, most: room }),
            Err(_) => Err(Memory),
        }
    }

    /// The bytes.
    pub fn as_slice(&self) -> &[u8]
        ensures { result.now ≡ self.now.text }
    {
        &self.bytes
    }

    /// Puts the front of the bytes that fits behind the text, and says whether that is all of them. It takes no memory.
    pub fn put(&mut self, bytes: &[u8]) -> bool
        ensures text { self.new.text ≡ self.old.text ++ take (room_left self.old) bytes.now }
        ensures room { self.new.room ≡ self.old.room }
        ensures all { IsTrue result ↔ (length bytes.now ≤ room_left self.old) }
    {
        let left = self.most - self.bytes.len();
        let front = left.min(bytes.len());
        put_behind(&mut self.bytes, &bytes[..front]);
        bytes.len() <= left
    }
}

// Puts the bytes behind the text, for which there is room.
fn put_behind(text: &mut Vec<u8>, bytes: &[u8])
    requires { vec_len text.now + length bytes.now ≤ vec_capacity text.now }
    ensures items { text.new.items ≡ text.old.items ++ bytes.now }
    ensures capacity { vec_capacity text.old ≤ vec_capacity text.new }
{
    let _ = text.extend_from_slice(bytes);
}
