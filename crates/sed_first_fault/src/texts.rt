//! Texts, as literals spell them.
ghost use Rattle.std.specs.Prelude.{◌≡◌, ◌++◌, ◌∷◌, [], ◌≤◌, nat_lt, length, false, IsTrue, None, OnErr, OnOk};
ghost use Rattle.std.specs.List.{list_any};
ghost use Rattle.std.specs.Option.{option_to_list};
ghost use Rattle.std.specs.Str.{bytes_eq};
ghost use Rattle.sed_lexer.specs.Spellings.{escaped};
ghost use Rattle.sed_classes.specs.Literals.{characters_in};
ghost use Rattle.sed_first_fault.specs.Texts as texts;

use arrayvec::ArrayVec;
use sed_names::character_of;
use sed_typed::{Bytes255, LONGEST_TEXT};
use sed_value::Memory;

// How many texts a program has at most.
const MOST_TEXTS: usize = 4096;

// What a byte behind a backslash stands for.
fn escaped(byte: u8) -> Option<u8>
    ensures { result ≡ escaped byte }
{
    character_of(&[b'\'', b'\\', byte, b'\''])
}

// The character that ends with a byte, where a backslash stands before it or not.
fn character(slashed: bool, byte: u8) -> Option<u8>
    ensures { result ≡ texts.character slashed byte }
{
    if slashed {
        return Some(escaped(byte).unwrap_or(byte));
    }
    if byte == b'\\' { None } else { Some(byte) }
}

// Puts a character behind others; false where there is no room for it.
fn push(text: &mut ArrayVec<u8, LONGEST_TEXT>, c: u8) -> bool
    ensures fits { result ≡ nat_lt (length text.old.items) 255 }
    ensures pushed { IsTrue result → text.new.items ≡ text.old.items ++ c ∷ [] }
{
    text.try_push(c).is_ok()
}

// Puts a character behind others, if it was found; false where there is no room for it.
fn push_found(text: &mut ArrayVec<u8, LONGEST_TEXT>, found: Option<u8>) -> bool
    ensures full { result ≡ false → (255 ≤ length text.old.items) × (found ≡ None → ⊥) }
    ensures pushed { IsTrue result → text.new.items ≡ text.old.items ++ option_to_list found }
{
    match found {
        Some(c) => push(text, c),
        None => true,
    }
}

// The text that bytes between quotes spell, if it has at most 255 characters.
fn characters(bytes: &[u8]) -> Option<Bytes255>
    ensures { result ≡ texts.fitting (characters_in false bytes.now) }
{
    let mut text: ArrayVec<u8, LONGEST_TEXT> = ArrayVec::new();
    let mut slashed = false;
    for byte in bytes {
        let found = character(slashed, *byte);
        slashed = found.is_none();
        if !push_found(&mut text, found) {
            return None;
        }
    }
    Some(Bytes255::new(text.as_slice()))
}

/// The text that a literal spells, if it has at most 255 characters.
pub fn text_spelled(literal: &[u8]) -> Option<Bytes255>
    ensures { result ≡ texts.text_spelled literal.now }
{
    if literal.len() < 2 {
        return characters(&[]);
    }
    characters(&literal[1..literal.len() - 1])
}

fn is_new(known: &[Bytes255], text: &Bytes255) -> bool
    ensures { result ≡ texts.is_new known.now text.now }
{
    if known.len() >= MOST_TEXTS {
        return false;
    }
    !known.contains(text)
}

/// Puts the text of a literal behind those that are known, where it is none of them and has at most 255 characters,
/// and there are fewer than 4,096.
///
/// Want of memory is the only refusal, and then they are as they were.
pub fn learn(known: &mut Vec<Bytes255>, literal: &[u8]) -> Result<(), Memory>
    ensures learned { OnOk result (known.new.items ≡ texts.with_literal known.old.items literal.now) }
    ensures kept { OnErr result (known.new.items ≡ known.old.items) }
{
    let Some(text) = text_spelled(literal) else {
        return Ok(());
    };
    if is_new(known, &text) {
        known.push(text)?;
    }
    Ok(())
}
