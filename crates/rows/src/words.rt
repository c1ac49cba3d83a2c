//! Bytes as rows write them: words that are written one behind the other.
//!
//! - `610a` are bytes in pairs of hexadecimal digits;
//! - `'tank'` are characters and the 0 that ends them;
//! - `<n>` are the decimal digits of how many texts of a repeated one came before;
//! - `<2,1,60,100>` are two bytes, and `<1,0,1,60>` one, of a number that such a count n gives: 1 + n / 60 % 100, and
//!   0 + n / 1 % 60.
use crate::case::CaseFault;
use std::alloc::Global;
use std::io::Write;

/// Puts the bytes that words write behind others, with so many such texts before.
pub fn put_bytes(
    alloc: Global,
    words: &str,
    before: u32,
    bytes: &mut Vec<u8>,
) -> Result<(), CaseFault> {
    for word in words.split_whitespace() {
        put_word(alloc, word, before, bytes)?;
    }
    Ok(())
}

fn put_word(alloc: Global, word: &str, before: u32, bytes: &mut Vec<u8>) -> Result<(), CaseFault> {
    if let Some(name) = between(word, "'", "'") {
        return put_name(name, bytes);
    }
    if let Some(form) = between(word, "<", ">") {
        return put_count(form, before, bytes);
    }
    match hex::decode(alloc, word.as_bytes()) {
        Ok(decoded) => put_all(decoded.as_slice(), bytes),
        Err(_) => Err(CaseFault::BadInput),
    }
}

fn put_name(name: &str, bytes: &mut Vec<u8>) -> Result<(), CaseFault> {
    put_all(name.as_bytes(), bytes)?;
    put_all(&[0], bytes)
}

fn put_all(more: &[u8], bytes: &mut Vec<u8>) -> Result<(), CaseFault> {
    match bytes.extend_from_slice(more) {
        Ok(()) => Ok(()),
        Err(_) => Err(CaseFault::Memory),
    }
}

fn between<'a>(word: &'a str, start: &str, end: &str) -> Option<&'a str> {
    word.strip_prefix(start)?.strip_suffix(end)
}

// What stands between `<` and `>`.
fn put_count(form: &str, before: u32, bytes: &mut Vec<u8>) -> Result<(), CaseFault> {
    if form == "n" {
        return match write!(bytes, "{before}") {
            Ok(()) => Ok(()),
            Err(_) => Err(CaseFault::Memory),
        };
    }
    match counted(form, before) {
        Some((true, number)) => put_all(&number.to_be_bytes(), bytes),
        Some((false, number)) => put_all(&number.to_be_bytes()[1..], bytes),
        None => Err(CaseFault::BadInput),
    }
}

// Whether the form is of two bytes, and the number that goes with a count.
fn counted(form: &str, before: u32) -> Option<(bool, u16)> {
    let (width, form) = form.split_once(',')?;
    let (base, form) = form.split_once(',')?;
    let (divisor, modulus) = form.split_once(',')?;
    let base: u32 = base.parse().ok()?;
    let divisor: u32 = divisor.parse().ok()?;
    let modulus: u32 = modulus.parse().ok()?;
    let number = base.checked_add(before.checked_div(divisor)?.checked_rem(modulus)?)?;
    Some((width == "2", number.try_into().ok()?))
}
