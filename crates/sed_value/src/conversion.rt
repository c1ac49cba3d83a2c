//! Conversions between the number types of the language.
ghost use Rattle.std.specs.Prelude.{◌≡◌, pos};
ghost use Rattle.std.specs.Int.{w8, w16, w32};
ghost use Rattle.sed_value.specs.Wrap.{wrap, low_bits};

/// An int as a long, which holds every int.
pub fn int_to_long(a: i32) -> i64
    ensures { result ≡ a }
{
    i64::from(a)
}

/// `(int)` of a long: its low 32 bits.
pub fn long_to_int(a: i64) -> i32
    ensures { result ≡ wrap w32 a }
{
    (a.rem_euclid(1 << 32) as u32).cast_signed()
}

/// `(byte)` of an int: its low 8 bits as an int, from 0 to 255.
pub fn int_to_byte(a: i32) -> i32
    ensures { result ≡ pos (low_bits w8 a) }
{
    i32::from(low_byte(a))
}

/// `(short)` of an int: its low 16 bits as an int, from 0 to 65535.
pub fn int_to_short(a: i32) -> i32
    ensures { result ≡ pos (low_bits w16 a) }
{
    i32::from(low_short(a))
}

/// What a store of an int in a byte keeps: the low 8 bits.
pub fn low_byte(a: i32) -> u8
    ensures { result ≡ low_bits w8 a }
{
    a.rem_euclid(1 << 8) as u8
}

/// What a store of an int in a short keeps: the low 16 bits.
pub fn low_short(a: i32) -> u16
    ensures { result ≡ low_bits w16 a }
{
    a.rem_euclid(1 << 16) as u16
}
