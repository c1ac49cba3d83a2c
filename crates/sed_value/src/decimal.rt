//! Numbers that are written in decimal digits alone.
ghost use Rattle.std.specs.Prelude.{◌≡◌, IsTrue, nat_le, if◌then◌else◌, Some, None};
ghost use Rattle.sed_value.specs.Characters as characters;
ghost use Rattle.sed_value.specs.Decimal as decimal;

use crate::characters::is_digit;

/// The number of at most `most` that the bytes write.
///
/// They must be one digit or more and nothing else; they may begin with zeros.
/// None comes exactly where they are not, or write a number above `most`.
pub fn read_decimal(bytes: &[u8], most: u64) -> Option<u64>
    ensures { result ≡ decimal.number_of most bytes.now }
{
    if bytes.is_empty() {
        return None;
    }
    let mut number = 0;
    for byte in bytes {
        if !is_digit(*byte) {
            return None;
        }
        number = with_digit(number, *byte, most)?;
    }
    Some(number)
}

// The number with one more digit at its end, if that is at most `most`.
fn with_digit(number: u64, digit: u8, most: u64) -> Option<u64>
    requires { IsTrue (characters.is_digit digit) }
    ensures { let next = decimal.with_digit number digit in result ≡ (if nat_le next most then Some next else None) }
{
    let value = u64::from(digit - b'0');
    if value > most || number > (most - value) / 10 {
        return None;
    }
    Some(number * 10 + value)
}
