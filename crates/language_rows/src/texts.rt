//! The tables of tokens and units.
use crate::trees::put_unit;
use crate::values::put_field;
use rows::{Case, CaseFault};
use sed_lexer::{Tokens, character_value, integer_value, lex, text_value};
use sed_parser::parse;
use sed_units::Unit;

/// Puts an item behind others of a list.
pub fn add<T: Drop>(case: &mut Case, list: &mut Vec<T>, item: T) {
    if list.push(item).is_err() {
        case.fail(CaseFault::Memory);
    }
}

/// Pieces of a text, one behind the other.
pub fn joined(case: &mut Case, pieces: &[&[u8]]) -> Vec<u8> {
    let mut text = Vec::new(case.alloc());
    for piece in pieces {
        if text.extend_from_slice(piece).is_err() {
            case.fail(CaseFault::Memory);
        }
    }
    text
}

fn repeated(case: &mut Case, piece: &[u8], count: u16) -> Vec<u8> {
    let mut text = Vec::new(case.alloc());
    for _ in 0..count {
        if text.extend_from_slice(piece).is_err() {
            case.fail(CaseFault::Memory);
        }
    }
    text
}

fn tokens_of(case: &mut Case, text: &[u8]) -> Option<Tokens> {
    match lex(case.alloc(), text) {
        Ok(tokens) => Some(tokens),
        Err(refusal) => {
            case.show(&refusal);
            None
        }
    }
}

/// The unit of a text. Where it has none, shows why.
pub fn unit_of(case: &mut Case, text: &[u8]) -> Option<Unit> {
    let tokens = tokens_of(case, text)?;
    match parse(case.alloc(), &tokens) {
        Ok(unit) => Some(unit),
        Err(refusal) => {
            case.show(&refusal);
            None
        }
    }
}

/// A text, and the kinds and bytes of its tokens.
pub fn tokens(case: &mut Case) {
    let text = case.input();
    let Some(tokens) = tokens_of(case, &text) else {
        return;
    };
    case.say(&tokens.len());
    for i in 0..tokens.len() {
        case.put(b" ");
        case.show(&tokens.kind(i));
        case.put(b":");
        case.put(tokens.bytes(i));
    }
}

/// A text, and where its tokens begin and end, and which are the first of a line.
pub fn places(case: &mut Case) {
    let text = case.input();
    let Some(tokens) = tokens_of(case, &text) else {
        return;
    };
    for i in 0..tokens.len() {
        case.show(&(tokens.start(i), tokens.end(i), tokens.first(i)));
    }
}

/// A text, and the number that it denotes as an integer.
pub fn integers(case: &mut Case) {
    let text = case.input();
    case.show(&integer_value(&text));
}

/// A text, and the code of the character that it denotes.
pub fn characters(case: &mut Case) {
    let text = case.input();
    case.show(&character_value(&text));
}

/// A text in double quotes, and the characters that it denotes.
pub fn texts(case: &mut Case) {
    let text = case.input();
    match text_value(case.alloc(), &text) {
        Ok(Some(characters)) => put_field(case, &characters, b">"),
        Ok(None) => case.put(b"none"),
        Err(_) => case.fail(CaseFault::Memory),
    }
}

/// A text, and the tree of its unit, or the token at which it shows that it has none.
pub fn units(case: &mut Case) {
    let text = case.input();
    if let Some(unit) = unit_of(case, &text) {
        put_unit(case, &unit);
    }
}

/// The text of a method's body, and the tree of a unit around it.
pub fn bodies(case: &mut Case) {
    let body = case.input();
    let text = joined(case, &[b"class A { void m() {\n", &body, b"\n} }"]);
    if let Some(unit) = unit_of(case, &text) {
        put_unit(case, &unit);
    }
}

/// A number, what opens a construct, what stands within, and what closes it; and whether that many of them, one within
/// the other, derive, or the token at which it shows that they don't.
pub fn nesting(case: &mut Case) {
    let count = case.number();
    let (open, middle, close) = (case.input(), case.input(), case.input());
    let (front, end) = (repeated(case, &open, count), repeated(case, &close, count));
    let text = joined(
        case,
        &[b"class A { void m() { ", &front, &middle, &end, b" } }"],
    );
    if unit_of(case, &text).is_some() {
        case.put(b"derives");
    }
}
