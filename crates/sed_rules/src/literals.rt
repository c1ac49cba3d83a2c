//! What a literal comes to.
ghost use Rattle.std.specs.Prelude.{◌≡◌, length, false};
ghost use Rattle.sed_classes.specs.Literals.{characters_in, text_of};
ghost use Rattle.sed_classes.specs.Values as values;
ghost use Rattle.sed_rules.specs.Reading.{begins_escape, ended};
ghost use Rattle.sed_rules.specs.Plains.{as_constant};

use crate::plain::Plain;
use sed_lexer::Number;
use sed_names::{character_of, integer_of};
use sed_units::{Literal, LiteralKind};
use sed_value::{sub_int, sub_long};

fn plain_number(number: Option<Number>) -> Plain
    ensures { as_constant result ≡ values.number_constant number }
{
    match number {
        Some(Number::Int(n)) => Plain::Int(n),
        Some(Number::Long(n)) => Plain::Long(n),
        None => Plain::Unknown,
    }
}

fn plain_character(character: Option<u8>) -> Plain
    ensures { as_constant result ≡ values.character_constant character }
{
    match character {
        Some(c) => Plain::Int(i32::from(c)),
        None => Plain::Unknown,
    }
}

// Whether a byte of a text is a backslash that begins an escape.
fn begins_escape(slashed: bool, byte: u8) -> bool
    ensures { result ≡ begins_escape slashed byte }
{
    !slashed && byte == b'\\'
}

// How many characters end with a byte: none where an escape begins.
fn ended(begins: bool) -> usize
    ensures { result ≡ ended begins }
{
    if begins { 0 } else { 1 }
}

// How many characters bytes of a text spell, where no backslash stands before them.
fn character_count(bytes: &[u8]) -> usize
    ensures { result ≡ length (characters_in false bytes.now) }
{
    let mut count = 0;
    let mut slashed = false;
    for byte in bytes {
        slashed = begins_escape(slashed, *byte);
        count += ended(slashed);
    }
    count
}

// How many characters a text literal has between its quotes.
fn text_len(bytes: &[u8]) -> usize
    ensures { result ≡ length (text_of bytes.now) }
{
    if bytes.len() < 2 {
        return 0;
    }
    character_count(&bytes[1..bytes.len() - 1])
}

/// What a literal comes to.
pub fn plain_literal(literal: &Literal) -> Plain
    ensures { as_constant result ≡ values.literal_constant literal.now }
{
    let bytes = literal.bytes.as_slice();
    match literal.kind {
        LiteralKind::Integer => plain_number(integer_of(bytes)),
        LiteralKind::Character => plain_character(character_of(bytes)),
        LiteralKind::Text => Plain::Text(text_len(bytes)),
        LiteralKind::True => Plain::Bool(1),
        LiteralKind::False => Plain::Bool(0),
        LiteralKind::Null => Plain::Null,
    }
}

/// `-` before a value.
pub fn negated(value: Plain) -> Plain
    ensures { as_constant result ≡ values.negated (as_constant value) }
{
    match value {
        Plain::Int(n) => Plain::Int(sub_int(0, n)),
        Plain::Long(n) => Plain::Long(sub_long(0, n)),
        Plain::Unknown => Plain::Unknown,
        _ => Plain::Nothing,
    }
}
