//! Parts of the words of a command line: numbers, names of files, names with commas between them, options.
ghost use Rattle.std.specs.Prelude.{◌≡◌, ◌≤◌, ◌<◌, ℕ, List, [], ◌∷◌, length, string_bytes, IfOk, IfSome, IfNone};
ghost use Rattle.std.specs.List.{list_all};
ghost use Rattle.std.specs.Option.{option_map};
ghost use Rattle.sedona_words.specs.Command as words_of;
ghost use Rattle.sedona_words.specs.Command.{names_within, texts};

use sed_value::limits::{LARGEST_SLOT, MOST_TURNS};
use sed_value::{Memory, read_decimal};
use std::alloc::Global;

// The longest name of a file, in bytes.
const LONGEST_FILE_NAME: usize = 4096;

// The most kits that a program has besides `sys`.
const MOST_KITS: usize = 15;

// The most cycles that can be asked for.
const MOST_CYCLES: u64 = 1_000_000;

// The greatest port.
const GREATEST_PORT: u64 = 65_535;

// The longest period, in milliseconds.
const LONGEST_PERIOD: u64 = 60_000;

/// Whether a word may name a file: it has 1 to as many bytes as the longest name.
pub fn is_file_name(name: &str) -> bool
    ensures { result ≡ words_of.is_file_name name.now }
{
    1 <= name.len() && name.len() <= LONGEST_FILE_NAME
}

// Whether each is the name of a file.
fn all_named(names: &[String]) -> bool
    ensures { result ≡ list_all (λ name. words_of.is_file_name (string_bytes name)) names.now }
{
    names.iter().all(|name| is_file_name(name.as_str()))
}

// The same, said of their bytes.
fn are_file_names(names: &[String]) -> bool
    ensures { result ≡ list_all words_of.is_file_name (texts names.now) }
{
    all_named(names)
}

/// Whether the words are 1 to 15 names of manifests.
pub fn are_manifests(names: &[String]) -> bool
    ensures { result ≡ words_of.are_manifests (texts names.now) }
{
    1 <= names.len() && names.len() <= MOST_KITS && are_file_names(names)
}

// What stands before the first comma of a word and what stands behind it. None where it has no comma.
fn cut(word: &str) -> Option<(&str, &str)>
    ensures some { IfSome result (λ parts.
        words_of.names_within word.now ≡ parts.0.now ∷ words_of.names_within parts.1.now) }
    ensures less { IfSome result (λ parts. length parts.1.now < length word.now) }
    ensures none { IfNone result (words_of.names_within word.now ≡ word.now ∷ []) }
{
    word.split_once(',')
}

/// Whether a word is 1 to 15 names of manifests with commas between them. Takes no memory.
pub fn is_manifests(word: &str) -> bool
    ensures { result ≡ words_of.are_manifests (names_within word.now) }
{
    let mut left = word;
    let mut count = 1;
    'names: while let Some((name, rest)) = cut(left) {
        if count == MOST_KITS || !is_file_name(name) {
            return false;
        }
        count += 1;
        left = rest;
    }
    is_file_name(left)
}

/// The names in a word, with commas between them.
pub fn names_in(alloc: Global, word: &str) -> Result<Vec<String>, Memory>
    ensures { IfOk result (λ names. texts names.items ≡ names_within word.now) }
{
    let mut names = Vec::new(alloc);
    let mut left = word;
    'names: while let Some((name, rest)) = cut(left) {
        names.push(String::from_str(alloc, name)?)?;
        left = rest;
    }
    names.push(String::from_str(alloc, left)?)?;
    Ok(names)
}

/// A number without sign or leading zero, at most so large.
pub fn number_within(digits: &[u8], most: u64) -> Option<u64>
    ensures number { result ≡ words_of.number_within most digits.now }
    ensures most { IfSome result (λ n. n ≤ most) }
{
    if digits.len() != 1 && digits.first() == Some(&b'0') {
        return None;
    }
    read_decimal(digits, most)
}

/// A number of cycles, without a leading zero.
pub fn cycle_count(digits: &[u8]) -> Option<u32>
    ensures count { result ≡ words_of.cycle_count digits.now }
    ensures most { IfSome result (λ count. count ≤ 1000000) }
{
    match number_within(digits, MOST_CYCLES) {
        Some(count) => Some(count as u32),
        None => None,
    }
}

/// The size of a slot, in bytes.
pub fn slot_size(digits: &[u8]) -> Option<u32>
    ensures size { result ≡ words_of.slot_size digits.now }
    ensures some { IfSome result (λ n. 1 ≤ n) }
    ensures most { IfSome result (λ n. n ≤ 4194304) }
{
    match number_within(digits, LARGEST_SLOT) {
        Some(0) => None,
        Some(size) => Some(size as u32),
        None => None,
    }
}

/// The value of an option that words begin with, and the words behind it.
pub fn option_first<'a>(words: &'a [String], name: &str) -> Option<(&'a str, &'a [String])>
    ensures { option_map (λ parts. (parts.0.now, texts parts.1.now)) result
        ≡ words_of.option_first name.now (texts words.now) }
{
    let (word, rest) = words.split_first()?;
    let (value, behind) = rest.split_first()?;
    if word.as_str() == name {
        Some((value.as_str(), behind))
    } else {
        None
    }
}

/// The bytes of data that an application may have.
pub fn data_limit(digits: &[u8]) -> Option<u32>
    ensures limit { result ≡ words_of.data_limit digits.now }
    ensures some { IfSome result (λ n. 1 ≤ n) }
    ensures most { IfSome result (λ n. n ≤ 4194304) }
{
    slot_size(digits)
}

/// The turns of a root call.
pub fn turn_count(digits: &[u8]) -> Option<u32>
    ensures count { result ≡ words_of.turn_count digits.now }
    ensures some { IfSome result (λ n. 1 ≤ n) }
    ensures most { IfSome result (λ n. n ≤ 1000000) }
{
    match number_within(digits, u64::from(MOST_TURNS)) {
        Some(0) => None,
        Some(count) => Some(count as u32),
        None => None,
    }
}

/// A port, by its digits.
pub fn port_number(digits: &[u8]) -> Option<u16>
    ensures port { result ≡ words_of.port_number digits.now }
    ensures some { IfSome result (λ port. 1 ≤ port) }
{
    match number_within(digits, GREATEST_PORT) {
        Some(0) => None,
        Some(port) => Some(port as u16),
        None => None,
    }
}

/// A period in milliseconds, by its digits.
pub fn period_length(digits: &[u8]) -> Option<u32>
    ensures period { result ≡ words_of.period_length digits.now }
    ensures some { IfSome result (λ period. 1 ≤ period) }
    ensures most { IfSome result (λ period. period ≤ 60000) }
{
    match number_within(digits, LONGEST_PERIOD) {
        Some(0) => None,
        Some(period) => Some(period as u32),
        None => None,
    }
}

/// The value of an option that words may begin with, or this one where they do not, and the words behind it.
pub fn option_or<'a>(words: &'a [String], name: &str, value: &'a str) -> (&'a str, &'a [String])
    ensures { (let parts : List ℕ × List (List ℕ) = (result.0.now, texts result.1.now) in parts)
        ≡ words_of.option_or name.now value.now (texts words.now) }
{
    match option_first(words, name) {
        Some(parts) => parts,
        None => (value, words),
    }
}
