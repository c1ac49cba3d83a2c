//! Reading what bytes spell.
ghost use Rattle.std.specs.Prelude.{◌≡◌, ◌<◌, ◌≤◌, ◌↔◌, ℕ, ◌++◌, ◌∷◌, [], List, length, IsTrue, IsErr, IsErrOf, IfOk};
ghost use Rattle.std.specs.Prelude.{IfErr, OnErr, IsOkAnd, MatchResult, ◌==◌, nat_lt, position};
ghost use Rattle.std.specs.Int.{w32, w64};
ghost use Rattle.std.specs.List.{list_any};
ghost use Rattle.sed_value.specs.declared.slot_type.Primitive.TheVariants.{Bool as BoolType};
ghost use Rattle.sed_value.specs.declared.slot_type.SlotType.TheVariants.{Prim as PrimSlot, Buf as BufSlot};
ghost use Rattle.sed_value.specs.Value.{is_of_type};
ghost use Rattle.sed_wire.specs.Faults.{BeginsNoText, BeginsNoValue, IsBadBool, IsTooLong, StandsAfter, HasNoEnd};
ghost use Rattle.sed_wire.specs.Faults.{IsNotAscii, size_of};
ghost use Rattle.sed_wire.specs.Number.{SpellsNumber, SpellsSigned};
ghost use Rattle.sed_wire.specs.Reading.{Reads, ReadsAgain};
ghost use Rattle.sed_wire.specs.Spelling.{Spells, can_be_held};
ghost use Rattle.sed_wire.specs.Text.{SpellsText, is_text};

use crate::fault::{Short, StrFault, ValueFault};
use crate::number::{number_of_1, number_of_2, number_of_4, signed_of_4, signed_of_8};
use sed_value::{Bytes, Prim, SlotType, Value};
use std::marker::Model;

/// A reader of bytes that it is lent. Contracts see it as the list of the bytes that are left.
///
/// Where a call answers with an error the reader stands where it was, but for `ValueFault::TooLong`.
#[derive(Drop)]
pub struct Reader<'a> {
    left: &'a [u8],
}

impl<'a> Model for Reader<'a> {
    ghost use Rattle.std.specs.Prelude.{ℕ, List};

    ghost Value = { List ℕ };

    ghost view = { λ reader. reader.left.now };
}

impl<'a> Reader<'a> {
    /// A reader of all of the bytes.
    pub fn new(bytes: &'a [u8]) -> Reader<'a>
        ensures { result ≡ bytes.now }
    {
        Reader { left: bytes }
    }

    /// How many bytes are left.
    pub fn remaining(&self) -> usize
        ensures { result ≡ length self.now }
    {
        self.left.len()
    }

    /// Whether no byte is left.
    pub fn is_empty(&self) -> bool
        ensures { IsTrue result ↔ (self.now ≡ []) }
    {
        self.left.is_empty()
    }

    /// The bytes that are left. They stay left.
    pub fn rest(&self) -> &'a [u8]
        ensures { result.now ≡ self.now }
    {
        self.left
    }

    /// The next bytes, as many as are asked for. `Short` comes exactly where fewer are left.
    pub fn take(&mut self, count: usize) -> Result<&'a [u8], Short>
        ensures found { IfOk result (λ taken. (length taken.now ≡ count) × (self.old ≡ taken.now ++ self.new)) }
        ensures short { IsErr result ↔ (length self.old < count) }
        ensures stands { OnErr result (self.new ≡ self.old) }
    {
        if self.left.len() < count {
            return Err(Short);
        }
        let taken = &self.left[..count];
        self.left = &self.left[count..];
        Ok(taken)
    }

    /// The next byte as a number. `Short` comes exactly where none is left.
    pub fn u1(&mut self) -> Result<u8, Short>
        ensures found { IfOk result (λ number. Reads (SpellsNumber 1) number self.old self.new) }
        ensures short { IsErr result ↔ (length self.old < 1) }
        ensures stands { OnErr result (self.new ≡ self.old) }
        ensures again { ReadsAgain (SpellsNumber 1) result self.old self.new }
    {
        let bytes = self.take(1)?;
        Ok(number_of_1(bytes))
    }

    /// The next two bytes as a number. `Short` comes exactly where fewer are left.
    pub fn u2(&mut self) -> Result<u16, Short>
        ensures found { IfOk result (λ number. Reads (SpellsNumber 2) number self.old self.new) }
        ensures short { IsErr result ↔ (length self.old < 2) }
        ensures stands { OnErr result (self.new ≡ self.old) }
        ensures again { ReadsAgain (SpellsNumber 2) result self.old self.new }
    {
        let bytes = self.take(2)?;
        Ok(number_of_2(bytes))
    }

    /// The next four bytes as a number. `Short` comes exactly where fewer are left.
    pub fn u4(&mut self) -> Result<u32, Short>
        ensures found { IfOk result (λ number. Reads (SpellsNumber 4) number self.old self.new) }
        ensures short { IsErr result ↔ (length self.old < 4) }
        ensures stands { OnErr result (self.new ≡ self.old) }
        ensures again { ReadsAgain (SpellsNumber 4) result self.old self.new }
    {
        let bytes = self.take(4)?;
        Ok(number_of_4(bytes))
    }

    /// The next four bytes as a signed number. `Short` comes exactly where fewer are left.
    pub fn i4(&mut self) -> Result<i32, Short>
        ensures found { IfOk result (λ number. Reads (SpellsSigned w32) number self.old self.new) }
        ensures short { IsErr result ↔ (length self.old < 4) }
        ensures stands { OnErr result (self.new ≡ self.old) }
        ensures again { ReadsAgain (SpellsSigned w32) result self.old self.new }
    {
        let bytes = self.take(4)?;
        Ok(signed_of_4(bytes))
    }

    /// The next eight bytes as a signed number. `Short` comes exactly where fewer are left.
    pub fn i8(&mut self) -> Result<i64, Short>
        ensures found { IfOk result (λ number. Reads (SpellsSigned w64) number self.old self.new) }
        ensures short { IsErr result ↔ (length self.old < 8) }
        ensures stands { OnErr result (self.new ≡ self.old) }
        ensures again { ReadsAgain (SpellsSigned w64) result self.old self.new }
    {
        let bytes = self.take(8)?;
        Ok(signed_of_8(bytes))
    }

    /// The characters of the next text, without the 0 that ends it.
    ///
    /// `NoEnd` comes exactly where no 0 is left, `NotAscii` exactly where a byte before the first 0 is above 0x7f.
    pub fn str(&mut self) -> Result<&'a [u8], StrFault>
        ensures found { IfOk result (λ text. Reads SpellsText text.now self.old self.new) }
        ensures no_end { IsErrOf result StrFault.NoEnd ↔ HasNoEnd self.old }
        ensures not_ascii { IsErrOf result StrFault.NotAscii ↔ IsNotAscii self.old }
        ensures stands { OnErr result (self.new ≡ self.old) }
        ensures again { (text spelling follows : List ℕ) → SpellsText text spelling → self.old ≡ spelling ++ follows
            → IsOkAnd result (λ read. read.now ≡ text) × (self.new ≡ follows) }
    {
        self.text_or_fault()
    }

    /// The next value of the type.
    ///
    /// `Short` comes exactly where fewer bytes are left than the value has, `BadBool` exactly where a truth value's
    /// byte is above 2, and `TooLong` exactly where a buffer's bytes are all there and are more than the type holds.
    /// After `TooLong` the reader stands behind those bytes.
    pub fn value(&mut self, slot: SlotType) -> Result<Value, ValueFault>
        requires { IsTrue (can_be_held slot) }
        ensures found { IfOk result (λ value. Reads (Spells slot) value self.old self.new) }
        ensures short { IsErrOf result ValueFault.Short ↔ (length self.old < size_of slot self.old) }
        ensures bad_bool { IsErrOf result ValueFault.BadBool ↔ IsBadBool slot self.old }
        ensures too_long { IsErrOf result ValueFault.TooLong ↔ IsTooLong slot self.old }
        ensures stands { IfErr result (λ fault. StandsAfter fault slot self.old self.new) }
        ensures again { ReadsAgain (Spells slot) result self.old self.new }
    {
        self.value_or_fault(slot)
    }

    // The next text, or why there is none.
    fn text_or_fault(&mut self) -> Result<&'a [u8], StrFault>
        ensures { MatchResult result (λ text. Reads SpellsText text.now self.old self.new)
            (λ fault. BeginsNoText fault self.old × (self.new ≡ self.old)) }
    {
        let (text, behind) = text_and_rest(self.left)?;
        self.left = behind;
        Ok(text)
    }

    // The next value, or why there is none.
    fn value_or_fault(&mut self, slot: SlotType) -> Result<Value, ValueFault>
        requires { IsTrue (can_be_held slot) }
        ensures { MatchResult result (λ value. Reads (Spells slot) value self.old self.new)
            (λ fault. BeginsNoValue fault slot self.old × StandsAfter fault slot self.old self.new) }
    {
        match slot {
            SlotType::Prim(Prim::Bool) => self.truth(),
            SlotType::Prim(Prim::Byte) => Ok(Value::Byte(self.u1()?)),
            SlotType::Prim(Prim::Short) => Ok(Value::Short(self.u2()?)),
            SlotType::Prim(Prim::Int) => Ok(Value::Int(self.i4()?)),
            SlotType::Prim(Prim::Long) => Ok(Value::Long(self.i8()?)),
            SlotType::Buf(most) => self.contents(most),
        }
    }

    // The next truth value.
    fn truth(&mut self) -> Result<Value, ValueFault>
        ensures { MatchResult result
            (λ value. Reads (Spells (PrimSlot BoolType)) value self.old self.new)
            (λ fault. BeginsNoValue fault (PrimSlot BoolType) self.old
            × StandsAfter fault (PrimSlot BoolType) self.old self.new) }
    {
        let start = self.left;
        let truth = self.u1()?;
        if truth > 2 {
            self.left = start;
            return Err(ValueFault::BadBool);
        }
        Ok(Value::Bool(truth))
    }

    // The next contents of a buffer that holds at most so many bytes.
    fn contents(&mut self, most: u8) -> Result<Value, ValueFault>
        requires { most ≤ 128 }
        ensures { MatchResult result
            (λ value. Reads (Spells (BufSlot most)) value self.old self.new)
            (λ fault. BeginsNoValue fault (BufSlot most) self.old
            × StandsAfter fault (BufSlot most) self.old self.new) }
    {
        let start = self.left;
        let count = self.u2()?;
        let Ok(contents) = self.take(usize::from(count)) else {
            self.left = start;
            return Err(ValueFault::Short);
        };
        if contents.len() > usize::from(most) {
            return Err(ValueFault::TooLong);
        }
        Ok(held_in(contents, most))
    }
}

// The value that these contents are of a buffer that holds at most so many bytes.
fn held_in(contents: &[u8], most: u8) -> Value
    requires few { length contents.now ≤ most }
    requires most { most ≤ 128 }
    ensures is { result ≡ Value.Buf contents.now }
    ensures of_type { IsTrue (is_of_type (BufSlot most) result) }
{
    Value::Buf(Bytes::new(contents))
}

// The characters of the text that the bytes begin with, and the bytes behind its 0; or why there is none.
fn text_and_rest(bytes: &[u8]) -> Result<(&[u8], &[u8]), StrFault>
    ensures { MatchResult result
        (λ parts. IsTrue (is_text parts.0.now) × (bytes.now ≡ parts.0.now ++ 0 ∷ parts.1.now))
        (λ fault. BeginsNoText fault bytes.now) }
{
    let Some(end) = first_end(bytes) else {
        return Err(StrFault::NoEnd);
    };
    let (text, behind) = bytes.split_at(end);
    if has_byte_above_127(text) {
        return Err(StrFault::NotAscii);
    }
    Ok((text, &behind[1..]))
}

// Where the first 0 stands.
fn first_end(bytes: &[u8]) -> Option<usize>
    ensures { result ≡ position (λ byte. byte == 0) bytes.now }
{
    bytes.iter().position(|byte| *byte == 0)
}

// Whether a byte is no character of ASCII.
fn has_byte_above_127(bytes: &[u8]) -> bool
    ensures { result ≡ list_any (nat_lt 127) bytes.now }
{
    bytes.iter().any(|byte| *byte > 127)
}
