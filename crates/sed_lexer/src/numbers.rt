//! What integers denote.
ghost use Rattle.std.specs.Prelude.{◌≡◌, ◌-◌, ◌*◌, ◌^◌, ◌<◌, ◌↔◌, pos, IsSome};
ghost use Rattle.std.specs.Int.{w32, w64};
ghost use Rattle.std.specs.Option.{SomeIff};
ghost use Rattle.sed_value.specs.Wrap.{wrap};
ghost use Rattle.sed_lexer.specs.Values as values;
ghost use Rattle.sed_lexer.specs.Values.{DenotesDecimal, DenotesHex, Denotes, IsWithinBounds};
ghost use Rattle.sed_lexer.specs.One.{FindsOne};

use crate::fronts::rest_of;
use crate::integers::{digits, hex_digits};
use sed_value::front_of;

/// What an integer denotes: an int, or a long.
#[derive(Clone, Copy, Debug, PartialEq, Eq)]
pub enum Number {
    /// Of 32 bits.
    Int(i32),
    /// Of 64 bits.
    Long(i64),
}

fn digit_value(b: u8) -> u64
    ensures value { result ≡ values.digit_value b }
    ensures small { result < 256 }
{
    let value = match b {
        b'0'..=b'9' => b - b'0',
        b'a'..=b'f' => b - b'a' + 10,
        _ => b.saturating_sub(b'A') + 10,
    };
    u64::from(value)
}

// The number with one more digit, where 64 bits hold it.
fn with_digit(base: u64, number: u64, digit: u8) -> Option<u64>
    ensures { SomeIff result (values.with_digit base number digit < 2 ^ 64) (values.with_digit base number digit) }
{
    number.checked_mul(base)?.checked_add(digit_value(digit))
}

// The number that the digits write, where 64 bits hold it.
fn digits_value(base: u64, digits: &[u8]) -> Option<u64>
    requires { 0 < base }
    ensures { SomeIff result (values.digits_value base digits.now < 2 ^ 64) (values.digits_value base digits.now) }
{
    let mut number = 0;
    for b in digits {
        if *b != b'_' {
            number = match with_digit(base, number, *b) {
                Some(more) => more,
                None => return None,
            };
        }
    }
    Some(number)
}

fn time_factor(suffix: &[u8]) -> Option<u64>
    ensures { result ≡ values.time_factor suffix.now }
{
    if suffix == b"ns".as_slice() {
        Some(1)
    } else if suffix == b"ms".as_slice() {
        Some(1_000_000)
    } else if suffix == b"sec".as_slice() {
        Some(1_000_000_000)
    } else if suffix == b"min".as_slice() {
        Some(60_000_000_000)
    } else if suffix == b"hr".as_slice() {
        Some(3_600_000_000_000)
    } else if suffix == b"days".as_slice() {
        Some(86_400_000_000_000)
    } else {
        None
    }
}

fn int_of(n: u64) -> Number
    requires { n < 2 ^ 32 }
    ensures { result ≡ Number.Int (wrap w32 (pos n)) }
{
    Number::Int((n as u32).cast_signed())
}

fn long_of(n: u64) -> Number
    ensures { result ≡ Number.Long (wrap w64 (pos n)) }
{
    Number::Long(n.cast_signed())
}

fn int_within(bound: u64, n: u64) -> Option<Number>
    requires { bound < 2 ^ 32 }
    ensures { result ≡ values.int_within bound n }
{
    if n <= bound { Some(int_of(n)) } else { None }
}

fn long_within(bound: u64, n: u64) -> Option<Number>
    ensures { result ≡ values.long_within bound n }
{
    if n <= bound { Some(long_of(n)) } else { None }
}

fn time(factor: u64, n: u64) -> Option<Number>
    ensures { result ≡ values.long_within (2 ^ 63 - 1) (n * factor) }
{
    match n.checked_mul(factor) {
        Some(product) => long_within(i64::MAX as u64, product),
        None => None,
    }
}

fn decimal_number(suffix: &[u8], n: u64) -> Option<Number>
    ensures { result ≡ values.decimal_number suffix.now n }
{
    if suffix.is_empty() {
        int_within(1 << 31, n)
    } else if suffix == b"L".as_slice() {
        long_within(1 << 63, n)
    } else {
        match time_factor(suffix) {
            Some(factor) => time(factor, n),
            None => None,
        }
    }
}

fn hex_number(suffix: &[u8], n: u64) -> Option<Number>
    ensures { result ≡ values.hex_number suffix.now n }
{
    if suffix.is_empty() {
        int_within(0xffff_ffff, n)
    } else if suffix == b"L".as_slice() {
        long_within(u64::MAX, n)
    } else {
        None
    }
}

fn decimal_value(bytes: &[u8]) -> Option<Number>
    ensures { FindsOne (DenotesDecimal bytes.now) result }
{
    let len = digits(bytes)?;
    match digits_value(10, front_of(bytes, len)) {
        Some(number) => decimal_number(rest_of(bytes, len), number),
        None => None,
    }
}

fn hex_value(bytes: &[u8]) -> Option<Number>
    ensures { FindsOne (DenotesHex bytes.now) result }
{
    if !bytes.starts_with(b"0x") {
        return None;
    }
    let rest = rest_of(bytes, 2);
    let len = hex_digits(rest)?;
    match digits_value(16, front_of(rest, len)) {
        Some(number) => hex_number(rest_of(rest, len), number),
        None => None,
    }
}

/// The number that the integer denotes. There is none where it is above the bound of its form, or the bytes are no
/// integer.
pub fn integer_value(bytes: &[u8]) -> Option<Number>
    ensures one { FindsOne (Denotes bytes.now) result }
    ensures bounds { IsSome result ↔ IsWithinBounds bytes.now }
{
    if let Some(number) = hex_value(bytes) {
        return Some(number);
    }
    decimal_value(bytes)
}
