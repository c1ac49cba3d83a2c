//! Writing what spells a value.
ghost use Rattle.std.specs.Prelude.{◌≡◌, ℕ, ◌+◌, ◌<◌, ◌≤◌, ◌↔◌, ◌++◌, [], List, length, take, drop, IsTrue, IsErr};
ghost use Rattle.std.specs.Prelude.{OnOk, OnErr};
ghost use Rattle.std.specs.Int.{w32, w64};

use crate::fault::Full;
use crate::number::{signed_spelling_in_4, signed_spelling_in_8, spelling_in_2, spelling_in_4};
use sed_value::{Value, put_at};

/// A writer into a slice that it is lent, from its start on. What stands in the slice is what was written, and then the
/// bytes that were there.
///
/// Where a call answers `Full` nothing is written of what it was given.
#[derive(Drop)]
pub struct Writer<'a> {
    into: &'a mut [u8],
    at: usize,
    ghost within: { at ≤ length into.now },
}

impl<'a> Writer<'a> {
    ghost use Rattle.sed_wire.specs.Number.{SpellsNumber, SpellsSigned, u1, u2};
    ghost use Rattle.sed_wire.specs.Spelling.{SpellsContents, SpellsValue, has_spelling};
    ghost use Rattle.sed_wire.specs.Text.{SpellsText, is_text};
    ghost use Rattle.sed_wire.specs.Writing.{written, untouched, room, Appends, Writes, Stays};

    /// A writer that has written nothing.
    pub fn new(into: &'a mut [u8]) -> Writer<'a>
        ensures same_slice { result.into.ghost_name ≡ into.entry.ghost_name }
        ensures written { written result ≡ [] }
        ensures untouched { untouched result ≡ into.old }
    {
        Writer { into, at: 0 }
    }

    /// How many bytes are written.
    pub fn written(&self) -> usize
        ensures { result ≡ length (written self.now) }
    {
        self.at
    }

    /// How many bytes can still be written.
    pub fn room(&self) -> usize
        ensures { result ≡ room self.now }
    {
        self.into.len() - self.at
    }

    /// Ends the writing: how many bytes are written. The slice has them, and behind them what it had there.
    pub fn done(self) -> usize
        ensures count { result ≡ length (written self.entry) }
        ensures slice { self.exit.0.now ≡ written self.entry ++ untouched self.entry }
    {
        self.at
    }

    /// Writes bytes as they are. `Full` comes exactly where there is room for fewer.
    pub fn bytes(&mut self, bytes: &[u8]) -> Result<(), Full>
        ensures full { IsErr result ↔ (room self.old < length bytes.now) }
        ensures done { OnOk result (Appends self.old self.new bytes.now) }
        ensures stays { OnErr result (Stays self.old self.new) }
    {
        if self.room() < bytes.len() {
            return Err(Full);
        }
        put_at(self.into, self.at, bytes);
        self.at += bytes.len();
        Ok(())
    }

    /// Writes a number in one byte. `Full` comes exactly where there is no room.
    pub fn u1(&mut self, v: u8) -> Result<(), Full>
        ensures full { IsErr result ↔ (room self.old < 1) }
        ensures done { OnOk result (Writes (SpellsNumber 1) v self.old self.new) }
        ensures stays { OnErr result (Stays self.old self.new) }
    {
        self.bytes(&[v])
    }

    /// Writes a number in two bytes. `Full` comes exactly where there is room for fewer.
    pub fn u2(&mut self, v: u16) -> Result<(), Full>
        ensures full { IsErr result ↔ (room self.old < 2) }
        ensures done { OnOk result (Writes (SpellsNumber 2) v self.old self.new) }
        ensures stays { OnErr result (Stays self.old self.new) }
    {
        self.bytes(&spelling_in_2(v))
    }

    /// Writes a number in four bytes. `Full` comes exactly where there is room for fewer.
    pub fn u4(&mut self, v: u32) -> Result<(), Full>
        ensures full { IsErr result ↔ (room self.old < 4) }
        ensures done { OnOk result (Writes (SpellsNumber 4) v self.old self.new) }
        ensures stays { OnErr result (Stays self.old self.new) }
    {
        self.bytes(&spelling_in_4(v))
    }

    /// Writes a signed number in four bytes. `Full` comes exactly where there is room for fewer.
    pub fn i4(&mut self, v: i32) -> Result<(), Full>
        ensures full { IsErr result ↔ (room self.old < 4) }
        ensures done { OnOk result (Writes (SpellsSigned w32) v self.old self.new) }
        ensures stays { OnErr result (Stays self.old self.new) }
    {
        self.bytes(&signed_spelling_in_4(v))
    }

    /// Writes a signed number in eight bytes. `Full` comes exactly where there is room for fewer.
    pub fn i8(&mut self, v: i64) -> Result<(), Full>
        ensures full { IsErr result ↔ (room self.old < 8) }
        ensures done { OnOk result (Writes (SpellsSigned w64) v self.old self.new) }
        ensures stays { OnErr result (Stays self.old self.new) }
    {
        self.bytes(&signed_spelling_in_8(v))
    }

    /// Writes a text of characters 0x01 to 0x7f, and the 0 that ends it. `Full` comes exactly where there is no room
    /// for both.
    pub fn str(&mut self, bytes: &[u8]) -> Result<(), Full>
        requires { IsTrue (is_text bytes.now) }
        ensures full { IsErr result ↔ (room self.old < length bytes.now + 1) }
        ensures done { OnOk result (Writes SpellsText bytes.now self.old self.new) }
        ensures stays { OnErr result (Stays self.old self.new) }
    {
        if self.room() <= bytes.len() {
            return Err(Full);
        }
        self.bytes(bytes)?;
        self.u1(0)
    }

    /// Writes a value other than `Nothing`, a truth value being at most 2. `Full` comes exactly where there is room for
    /// fewer bytes than spell it.
    pub fn value(&mut self, v: &Value) -> Result<(), Full>
        requires { IsTrue (has_spelling v.now) }
        ensures full { (spelling : List ℕ) → SpellsValue v.now spelling
            → IsErr result ↔ (room self.old < length spelling) }
        ensures done { OnOk result (Writes SpellsValue v.now self.old self.new) }
        ensures stays { OnErr result (Stays self.old self.new) }
    {
        match v {
            Value::Bool(truth) => self.u1(*truth),
            Value::Byte(number) => self.u1(*number),
            Value::Short(number) => self.u2(*number),
            Value::Int(number) => self.i4(*number),
            Value::Long(number) => self.i8(*number),
            Value::Buf(contents) => self.contents(contents.as_bytes()),
            Value::Nothing => unreachable!(),
        }
    }

    /// Writes bytes as they are, for which there is room.
    pub fn put_bytes(&mut self, bytes: &[u8])
        requires { length bytes.now ≤ room self.old }
        ensures { Appends self.old self.new bytes.now }
    {
        match self.bytes(bytes) {
            Ok(()) => {}
            Err(Full) => unreachable!(),
        }
    }

    /// Writes a number in one byte, for which there is room.
    pub fn put_u1(&mut self, v: u8)
        requires { 1 ≤ room self.old }
        ensures spells { Writes (SpellsNumber 1) v self.old self.new }
        ensures bytes { Appends self.old self.new (u1 v) }
    {
        match self.u1(v) {
            Ok(()) => {}
            Err(Full) => unreachable!(),
        }
    }

    /// Writes a number in two bytes, the higher one first, for which there is room.
    pub fn put_u2(&mut self, v: u16)
        requires { 2 ≤ room self.old }
        ensures spells { Writes (SpellsNumber 2) v self.old self.new }
        ensures bytes { Appends self.old self.new (u2 v) }
    {
        match self.u2(v) {
            Ok(()) => {}
            Err(Full) => unreachable!(),
        }
    }

    /// Writes a text of characters 0x01 to 0x7f, and the 0 that ends it, for which there is room.
    pub fn put_str(&mut self, bytes: &[u8])
        requires text { IsTrue (is_text bytes.now) }
        requires fits { length bytes.now + 1 ≤ room self.old }
        ensures { Writes SpellsText bytes.now self.old self.new }
    {
        match self.str(bytes) {
            Ok(()) => {}
            Err(Full) => unreachable!(),
        }
    }

    // Writes the contents of a buffer: their length, and then they themselves.
    fn contents(&mut self, contents: &[u8]) -> Result<(), Full>
        requires { length contents.now ≤ 128 }
        ensures full { IsErr result ↔ (room self.old < 2 + length contents.now) }
        ensures done { OnOk result (Writes SpellsContents contents.now self.old self.new) }
        ensures stays { OnErr result (Stays self.old self.new) }
    {
        if self.room() < 2 + contents.len() {
            return Err(Full);
        }
        self.u2(contents.len() as u16)?;
        self.bytes(contents)
    }
}
