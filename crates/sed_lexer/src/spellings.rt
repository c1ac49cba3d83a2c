//! Characters and texts.
ghost use Rattle.std.specs.Prelude.{◌≡◌, ◌↔◌, [], ◌∷◌, option_map, IsTrue, IfOk, MatchOption};
ghost use Rattle.sed_lexer.specs.Spellings as spelled;
ghost use Rattle.sed_lexer.specs.Spellings.{IsCharacterOf, IsTextOf, IsCharacter, IsText};
ghost use Rattle.sed_lexer.specs.One.{FindsOne};
ghost use Rattle.sed_lexer.specs.Spelled.{BeginsSpelled, NoSpelling, EndsText, NoTextEnd};
ghost use Rattle.sed_lexer.specs.Fronts as fronts;
ghost use Rattle.sed_lexer.specs.Fronts.{FindsLongest};

use crate::fronts::rest_of;
use sed_value::Memory;
use std::alloc::Global;

// One character between quotes, and the length of its spelling.
#[derive(Clone, Copy)]
struct Spelled {
    character: u8,
    len: usize,
}

fn is_plain(quote: u8, b: u8) -> bool
    ensures { result ≡ spelled.is_plain quote b }
{
    matches!(b, b' '..=b'~') && b != quote && b != b'\\'
}

fn escaped(b: u8) -> Option<u8>
    ensures { result ≡ spelled.escaped b }
{
    match b {
        b'n' => Some(b'\n'),
        b'r' => Some(b'\r'),
        b't' => Some(b'\t'),
        b'0' => Some(0),
        b'\\' | b'\'' | b'"' | b'$' => Some(b),
        _ => None,
    }
}

// The character that the text begins with, between quotes of this kind.
fn read_one(quote: u8, text: &[u8]) -> Option<Spelled>
    ensures { MatchOption result (NoSpelling quote text.now) (BeginsSpelled quote text.now) }
{
    let (first, others) = text.split_first()?;
    if *first == b'\\' {
        let character = escaped(*others.first()?)?;
        Some(Spelled { character, len: 2 })
    } else if is_plain(quote, *first) {
        Some(Spelled {
            character: *first,
            len: 1,
        })
    } else {
        None
    }
}

fn begins_with(text: &[u8], b: u8) -> bool
    ensures { result ≡ fronts.begins_with text.now b }
{
    text.first().is_some_and(|first| *first == b)
}

/// The character in quotes that begins the text.
pub fn character(text: &[u8]) -> Option<usize>
    ensures { FindsLongest IsCharacter text.now result }
{
    if !begins_with(text, b'\'') {
        return None;
    }
    let inner = rest_of(text, 1);
    let one = read_one(b'\'', inner)?;
    if begins_with(rest_of(inner, one.len), b'\'') {
        Some(one.len + 2)
    } else {
        None
    }
}

// The place of the quote that ends the text whose inner part begins here.
fn text_end(inner: &[u8]) -> Option<usize>
    ensures { MatchOption result (NoTextEnd inner.now) (EndsText inner.now) }
{
    let mut at = 0;
    loop {
        let rest = rest_of(inner, at);
        if begins_with(rest, b'"') {
            return Some(at);
        }
        let Some(one) = read_one(b'"', rest) else {
            return None;
        };
        if one.character == 0 {
            return None;
        }
        at += one.len;
    }
}

/// The text in double quotes that begins the text.
pub fn text(text: &[u8]) -> Option<usize>
    ensures { FindsLongest IsText text.now result }
{
    if !begins_with(text, b'"') {
        return None;
    }
    let end = text_end(rest_of(text, 1))?;
    Some(end + 2)
}

fn is_byte(bytes: &[u8], b: u8) -> bool
    ensures { IsTrue result ↔ (bytes.now ≡ b ∷ []) }
{
    bytes.len() == 1 && begins_with(bytes, b)
}

/// The character that a character in quotes denotes; none where the bytes are no character in quotes.
pub fn character_value(bytes: &[u8]) -> Option<u8>
    ensures { FindsOne (IsCharacterOf bytes.now) result }
{
    if !begins_with(bytes, b'\'') {
        return None;
    }
    let inner = rest_of(bytes, 1);
    let one = read_one(b'\'', inner)?;
    if is_byte(rest_of(inner, one.len), b'\'') {
        Some(one.character)
    } else {
        None
    }
}

/// The characters that a text in double quotes denotes; none where the bytes are no text in double quotes.
pub fn text_value(alloc: Global, bytes: &[u8]) -> Result<Option<Vec<u8>>, Memory>
    ensures { IfOk result (λ found. FindsOne (IsTextOf bytes.now) (option_map (λ v. v.items) found)) }
{
    if !begins_with(bytes, b'"') {
        return Ok(None);
    }
    let inner = rest_of(bytes, 1);
    let mut characters = Vec::new(alloc);
    let mut at = 0;
    'read: loop {
        let rest = rest_of(inner, at);
        if begins_with(rest, b'"') {
            return if rest.len() == 1 {
                Ok(Some(characters))
            } else {
                Ok(None)
            };
        }
        let Some(one) = read_one(b'"', rest) else {
            return Ok(None);
        };
        if one.character == 0 {
            return Ok(None);
        }
        characters.push(one.character)?;
        at += one.len;
    }
}
