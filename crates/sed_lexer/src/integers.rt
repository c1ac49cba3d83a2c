//! Integers.
ghost use Rattle.std.specs.Prelude.{◌≡◌, ◌==◌, ◌||◌, [], ◌∷◌, length, map, take_while, IsTrue};
ghost use Rattle.sed_value.specs.Characters.{is_digit as digit};
ghost use Rattle.sed_lexer.specs.Words as words;
ghost use Rattle.sed_lexer.specs.Integers as spelled;
ghost use Rattle.sed_lexer.specs.Integers.{IsNumeral, IsDecimalNumeral, IsHexNumeral, IsInteger};
ghost use Rattle.sed_lexer.specs.Fronts.{FindsLongest, IsLongestFront};

use crate::fronts::rest_of;
use crate::words::longest_among;
use sed_value::is_digit;

const DECIMAL_SUFFIXES: [&str; 7] = ["L", "ns", "ms", "sec", "min", "hr", "days"];

const HEX_SUFFIXES: [&str; 1] = ["L"];

fn is_hex_digit(b: u8) -> bool
    ensures { result ≡ spelled.is_hex_digit b }
{
    is_digit(b) || matches!(b, b'a'..=b'f' | b'A'..=b'F')
}

fn more_digits(text: &[u8]) -> usize
    ensures { result ≡ length (take_while (λ b. digit b || (b == 95)) text.now) }
{
    text.iter()
        .take_while(|b| is_digit(**b) || **b == b'_')
        .count()
}

fn more_hex_digits(text: &[u8]) -> usize
    ensures { result ≡ length (take_while (λ b. spelled.is_hex_digit b || (b == 95)) text.now) }
{
    text.iter()
        .take_while(|b| is_hex_digit(**b) || **b == b'_')
        .count()
}

/// The digits and `_` that begin the text.
pub fn digits(text: &[u8]) -> Option<usize>
    ensures { FindsLongest (λ bytes. IsTrue (spelled.are_digits digit bytes)) text.now result }
{
    let (first, others) = text.split_first()?;
    if is_digit(*first) {
        Some(1 + more_digits(others))
    } else {
        None
    }
}

/// The hex digits and `_` that begin the text.
pub fn hex_digits(text: &[u8]) -> Option<usize>
    ensures { FindsLongest (λ bytes. IsTrue (spelled.are_digits spelled.is_hex_digit bytes)) text.now result }
{
    let (first, others) = text.split_first()?;
    if is_hex_digit(*first) {
        Some(1 + more_hex_digits(others))
    } else {
        None
    }
}

fn suffix(suffixes: &[&str], text: &[u8]) -> usize
    ensures { IsLongestFront (λ bytes. IsTrue (words.is_among ([] ∷ map (λ word. word.now) suffixes.now) bytes))
        text.now result }
{
    longest_among(suffixes, text).unwrap_or(0)
}

fn decimal_numeral(text: &[u8]) -> Option<usize>
    ensures { FindsLongest IsDecimalNumeral text.now result }
{
    let len = digits(text)?;
    Some(len + suffix(&DECIMAL_SUFFIXES, rest_of(text, len)))
}

fn hex_numeral(text: &[u8]) -> Option<usize>
    ensures { FindsLongest IsHexNumeral text.now result }
{
    if !text.starts_with(b"0x") {
        return None;
    }
    let rest = rest_of(text, 2);
    let len = hex_digits(rest)?;
    Some(2 + len + suffix(&HEX_SUFFIXES, rest_of(rest, len)))
}

/// The integer that begins the text.
pub fn integer(text: &[u8]) -> Option<usize>
    ensures { FindsLongest IsInteger text.now result }
{
    if let Some(len) = hex_numeral(text) {
        return Some(len);
    }
    decimal_numeral(text)
}
