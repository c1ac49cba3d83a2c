//! Numbers among bytes.
ghost use Rattle.std.specs.Prelude.{◌≡◌, ◌+◌, ◌<◌, ◌≤◌, ◌^◌, length};
ghost use Rattle.std.specs.Int.{bytes_high_first};
ghost use Rattle.sed_wire.specs.Number.{number_of};
ghost use Rattle.scode_mem.specs.Blocks.{bytes_at, put_at};

use byteorder::{BigEndian, ByteOrder};

/// The number in 1 to 8 bytes from a place on, the highest first.
#[inline(always)]
pub fn number_at(bytes: &[u8], at: usize, width: usize) -> u64
    requires some { 1 ≤ width }
    requires most { width ≤ 8 }
    requires there { at + width ≤ length bytes.now }
    ensures number { result ≡ number_of (bytes_at bytes.now at width) }
    ensures fits { result < 256 ^ width }
{
    number_in(&bytes[at..at + width], width)
}

// The number in all of 1 to 8 bytes.
#[inline(always)]
fn number_in(bytes: &[u8], width: usize) -> u64
    requires some { 1 ≤ width }
    requires most { width ≤ 8 }
    requires all { length bytes.now ≡ width }
    ensures number { result ≡ number_of bytes.now }
    ensures fits { result < 256 ^ width }
{
    BigEndian::read_uint(bytes, width)
}

/// Puts a number into 1 to 8 bytes from a place on, the highest first. All other bytes stay.
#[inline(always)]
pub fn put_number(bytes: &mut [u8], at: usize, width: usize, number: u64)
    requires some { 1 ≤ width }
    requires most { width ≤ 8 }
    requires there { at + width ≤ length bytes.old }
    requires fits { number < 256 ^ width }
    ensures { bytes.new ≡ put_at bytes.old at (bytes_high_first width number) }
{
    BigEndian::write_uint(&mut bytes[at..at + width], number, width);
}
