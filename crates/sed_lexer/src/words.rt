//! Identifiers, key words and marks.
ghost use Rattle.std.specs.Prelude.{◌≡◌, ◌==◌, ◌||◌, length, map, max, take_while, IsTrue, MatchOption};
ghost use Rattle.std.specs.List.{list_any};
ghost use Rattle.std.specs.Str.{bytes_eq};
ghost use Rattle.sed_value.specs.Characters.{is_word_byte as word_byte, is_letter as letter};
ghost use Rattle.sed_value.specs.Names.{is_identifier};
ghost use Rattle.sed_lexer.specs.Words as spelled;
ghost use Rattle.sed_lexer.specs.Fronts.{FindsLongest};

use sed_value::{is_letter, is_word_byte};

// Words that are no identifiers.
const KEY_WORDS: [&str; 37] = [
    "abstract",
    "action",
    "bool",
    "break",
    "byte",
    "case",
    "class",
    "continue",
    "default",
    "define",
    "do",
    "else",
    "extends",
    "false",
    "final",
    "for",
    "if",
    "inline",
    "int",
    "internal",
    "long",
    "null",
    "override",
    "private",
    "property",
    "protected",
    "public",
    "return",
    "short",
    "static",
    "super",
    "switch",
    "this",
    "true",
    "virtual",
    "void",
    "while",
];

const MARKS: [&str; 46] = [
    "{", "}", "(", ")", "[", "]", ";", ",", ".", ":", "::", "?", "@", "=", "+=", "-=", "*=", "/=",
    "%=", "&=", "|=", "^=", "<<=", ">>=", "||", "&&", "|", "^", "&", "==", "!=", "<", "<=", ">",
    ">=", "<<", ">>", "+", "-", "*", "/", "%", "!", "~", "++", "--",
];

fn is_among(words: &[&str], bytes: &[u8]) -> bool
    ensures { result ≡ list_any (λ word. bytes_eq word.now bytes.now) words.now }
{
    words.iter().any(|word| word.as_bytes() == bytes)
}

/// Whether the bytes are a key word.
pub fn is_key_word(bytes: &[u8]) -> bool
    ensures { result ≡ spelled.is_key_word bytes.now }
{
    is_among(&KEY_WORDS, bytes)
}

fn can_begin_word(b: u8) -> bool
    ensures { result ≡ (letter b || (b == 95)) }
{
    is_letter(b) || b == b'_'
}

fn word_bytes(text: &[u8]) -> usize
    ensures { result ≡ length (take_while word_byte text.now) }
{
    text.iter().take_while(|b| is_word_byte(**b)).count()
}

/// The identifier or key word that begins the text.
pub fn word(text: &[u8]) -> Option<usize>
    ensures { FindsLongest (λ bytes. IsTrue (is_identifier bytes)) text.now result }
{
    let (first, others) = text.split_first()?;
    if can_begin_word(*first) {
        Some(1 + word_bytes(others))
    } else {
        None
    }
}

fn longer(found: Option<usize>, len: usize) -> usize
    ensures { MatchOption found (result ≡ len) (λ n. result ≡ max n len) }
{
    match found {
        None => len,
        Some(n) => n.max(len),
    }
}

/// The longest of these words that begins the text.
pub fn longest_among(words: &[&str], text: &[u8]) -> Option<usize>
    ensures { FindsLongest (λ bytes. IsTrue (spelled.is_among (map (λ word. word.now) words.now) bytes))
        text.now result }
{
    let mut longest = None;
    for word in words {
        if text.starts_with(word.as_bytes()) {
            longest = Some(longer(longest, word.len()));
        }
    }
    longest
}

/// The mark that begins the text.
pub fn mark(text: &[u8]) -> Option<usize>
    ensures { FindsLongest (λ bytes. IsTrue (spelled.is_mark bytes)) text.now result }
{
    longest_among(&MARKS, text)
}
