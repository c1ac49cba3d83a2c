//! Numbers of one, two, four and eight bytes.
ghost use Rattle.std.specs.Prelude.{◌≡◌, length};
ghost use Rattle.std.specs.Int.{w32, w64};
ghost use Rattle.sed_wire.specs.Number.{SpellsNumber, SpellsSigned};

use byteorder::{BigEndian, ByteOrder};

/// The number that one byte spells.
pub(crate) fn number_of_1(bytes: &[u8]) -> u8
    requires { length bytes.now ≡ 1 }
    ensures { SpellsNumber 1 result bytes.now }
{
    bytes[0]
}

/// The number that two bytes spell.
pub(crate) fn number_of_2(bytes: &[u8]) -> u16
    requires { length bytes.now ≡ 2 }
    ensures { SpellsNumber 2 result bytes.now }
{
    BigEndian::read_u16(bytes)
}

/// The number that four bytes spell.
pub(crate) fn number_of_4(bytes: &[u8]) -> u32
    requires { length bytes.now ≡ 4 }
    ensures { SpellsNumber 4 result bytes.now }
{
    BigEndian::read_u32(bytes)
}

/// The signed number that four bytes spell.
pub(crate) fn signed_of_4(bytes: &[u8]) -> i32
    requires { length bytes.now ≡ 4 }
    ensures { SpellsSigned w32 result bytes.now }
{
    BigEndian::read_i32(bytes)
}

/// The signed number that eight bytes spell.
pub(crate) fn signed_of_8(bytes: &[u8]) -> i64
    requires { length bytes.now ≡ 8 }
    ensures { SpellsSigned w64 result bytes.now }
{
    BigEndian::read_i64(bytes)
}

/// The two bytes that spell a number.
pub(crate) fn spelling_in_2(number: u16) -> [u8; 2]
    ensures { SpellsNumber 2 number result }
{
    let mut bytes = [0; 2];
    BigEndian::write_u16(&mut bytes, number);
    bytes
}

/// The four bytes that spell a number.
pub(crate) fn spelling_in_4(number: u32) -> [u8; 4]
    ensures { SpellsNumber 4 number result }
{
    let mut bytes = [0; 4];
    BigEndian::write_u32(&mut bytes, number);
    bytes
}

/// The four bytes that spell a signed number.
pub(crate) fn signed_spelling_in_4(number: i32) -> [u8; 4]
    ensures { SpellsSigned w32 number result }
{
    let mut bytes = [0; 4];
    BigEndian::write_i32(&mut bytes, number);
    bytes
}

/// The eight bytes that spell a signed number.
pub(crate) fn signed_spelling_in_8(number: i64) -> [u8; 8]
    ensures { SpellsSigned w64 number result }
{
    let mut bytes = [0; 8];
    BigEndian::write_i64(&mut bytes, number);
    bytes
}
