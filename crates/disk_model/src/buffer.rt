//! Bytes in a room that is taken once.
ghost use Rattle.std.specs.Prelude.{◌≡◌, ◌+◌, ◌-◌, ◌≤◌, ◌++◌, [], length, take, drop, replicate, IfOk};
ghost use Rattle.disk_model.specs.Written.{written};

use sed_value::Memory;
use std::alloc::Global;
use std::marker::Model;

/// Bytes that grow within a room and take no memory. Contracts see the bytes and the room.
#[derive(Drop)]
pub struct Buffer {
    all: Vec<u8>,
    len: usize,
}

impl Model for Buffer {
    ghost use Rattle.std.specs.Prelude.{◌≤◌, take, vec_len};
    ghost use Rattle.disk_model.specs.Held.{Held};

    ghost Value = { Held };

    ghost view = { λ b. record { bytes = take b.len b.all.items; room = vec_len b.all } };

    ghost invariant = { λ b. b.len ≤ vec_len b.all };
}

// Writes the bytes over those that stand there.
fn overwrite(all: &mut [u8], at: usize, bytes: &[u8])
    requires { at + length bytes.now ≤ length all.old }
    ensures { all.new ≡ take at all.old ++ (bytes.now ++ drop (at + length bytes.now) all.old) }
{
    all[at..at + bytes.len()].copy_from_slice(bytes);
}

// Fills this part with zeros.
fn clear_part(all: &mut [u8], from: usize, to: usize)
    requires order { from ≤ to }
    requires inside { to ≤ length all.old }
    ensures { all.new ≡ take from all.old ++ (replicate (to - from) 0 ++ drop to all.old) }
{
    all[from..to].fill(0);
}

// Writes the bytes into the first so many, with zeros in a gap behind these. Answers how many there are then.
fn write_into(all: &mut [u8], len: usize, at: usize, bytes: &[u8]) -> usize
    requires within { len ≤ length all.old }
    requires room { at + length bytes.now ≤ length all.old }
    ensures bytes { take result all.new ≡ written (take len all.old) at bytes.now }
    ensures fits { result ≤ length all.new }
{
    clear_part(all, len.min(at), at);
    overwrite(all, at, bytes);
    len.max(at + bytes.len())
}

impl Buffer {
    /// No bytes, with this room.
    pub fn with_room(alloc: Global, room: usize) -> Result<Buffer, Memory>
        ensures { IfOk result (λ b. b ≡ record { bytes = []; room = room }) }
    {
        let mut all = Vec::new(alloc);
        all.resize(room, 0)?;
        Ok(Buffer { all, len: 0 })
    }

    /// The bytes.
    pub fn bytes(&self) -> &[u8]
        ensures { result.now ≡ self.now.bytes }
    {
        &self.all[..self.len]
    }

    /// How many bytes there are, never more than the room.
    pub fn len(&self) -> usize
        ensures len { result ≡ length self.now.bytes }
        ensures fits { result ≤ self.now.room }
    {
        self.len
    }

    /// How many bytes there may be.
    pub fn room(&self) -> usize
        ensures { result ≡ self.now.room }
    {
        self.all.len()
    }

    /// Writes the bytes at that place; a gap behind the end is filled with zeros.
    pub fn put(&mut self, at: usize, bytes: &[u8])
        requires { at + length bytes.now ≤ self.old.room }
        ensures { self.new ≡ record { bytes = written self.old.bytes at bytes.now; room = self.old.room } }
    {
        self.len = write_into(&mut self.all, self.len, at, bytes);
    }

    /// Adds the bytes at the end.
    pub fn append(&mut self, bytes: &[u8])
        requires { length self.old.bytes + length bytes.now ≤ self.old.room }
        ensures { self.new ≡ record { bytes = self.old.bytes ++ bytes.now; room = self.old.room } }
    {
        overwrite(&mut self.all, self.len, bytes);
        self.len += bytes.len();
    }

    /// Holds these bytes and no others.
    pub fn set(&mut self, bytes: &[u8])
        requires { length bytes.now ≤ self.old.room }
        ensures { self.new ≡ record { bytes = bytes.now; room = self.old.room } }
    {
        overwrite(&mut self.all, 0, bytes);
        self.len = bytes.len();
    }
}
