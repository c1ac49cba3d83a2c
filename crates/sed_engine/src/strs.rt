//! The characters of Strs, and Strs filled with them.
ghost use Rattle.std.specs.Prelude.{◌≡◌, ◌-◌, ◌≤◌, ◌++◌, length, take, drop, replicate};
ghost use Rattle.sed_engine.specs.Texts.{characters as characters_of, filled as filled_with};

use sed_typed::{Bytes255, LONGEST_TEXT};

/// The characters of a Str: its bytes before the first 0.
pub fn characters(bytes: &[u8]) -> &[u8]
    ensures same { result.now ≡ characters_of bytes.now }
    ensures fewer { length result.now ≤ length bytes.now }
{
    for (at, byte) in bytes.iter().enumerate() {
        if *byte == 0 {
            return &bytes[..at];
        }
    }
    bytes
}

/// As many characters as a Str of a size of at most 255 bytes holds with a 0, and then zeros.
pub fn filled(size: usize, text: &[u8]) -> Bytes255
    requires { size ≤ 255 }
    ensures { result ≡ filled_with size text.now }
{
    with_zeros(size, first(text, size.saturating_sub(1)))
}

// The first bytes, so many at most.
fn first(bytes: &[u8], most: usize) -> &[u8]
    ensures same { result.now ≡ take most bytes.now }
    ensures most { length result.now ≤ most }
{
    if most < bytes.len() {
        &bytes[..most]
    } else {
        bytes
    }
}

// The bytes and zeros behind them, so many together.
fn with_zeros(size: usize, bytes: &[u8]) -> Bytes255
    requires most { size ≤ 255 }
    requires fits { length bytes.now ≤ size }
    ensures { result ≡ bytes.now ++ replicate (size - length bytes.now) 0 }
{
    let mut all = [0; LONGEST_TEXT];
    let new = &mut all[..size];
    copy_front(new, bytes);
    Bytes255::new(new)
}

// Puts bytes in the place of the first.
fn copy_front(into: &mut [u8], bytes: &[u8])
    requires { length bytes.now ≤ length into.old }
    ensures { into.new ≡ bytes.now ++ drop (length bytes.now) into.old }
{
    into[..bytes.len()].copy_from_slice(bytes);
}
