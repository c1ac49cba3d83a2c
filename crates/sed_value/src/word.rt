//! Identifiers in place.
ghost use Rattle.std.specs.Prelude.{◌≡◌, if◌then◌else◌, Some, None, IsTrue};
ghost use Rattle.sed_value.specs.Names.{is_word, is_identifier};
ghost use Rattle.sed_value.specs.Shown.{quoted};

use crate::characters::{are_word_bytes, is_letter};
use crate::in_place::InPlace;
use crate::shown::show_name;
use std::fmt;
use std::marker::Model;

/// How many characters a word has at most.
pub const LONGEST_WORD: usize = 31;

/// An identifier of 1 to 31 characters: a letter or `_`, then letters, digits or `_`.
///
/// Contracts see it as its bytes, and it compares by them.
#[derive(Clone, Copy, PartialEq, Eq, PartialOrd, Ord)]
pub struct Word {
    text: InPlace<LONGEST_WORD>,
}

impl Model for Word {
    ghost use Rattle.std.specs.Prelude.{ℕ, List, IsTrue};

    ghost Value = { List ℕ };

    ghost use Rattle.sed_value.specs.Names.{is_word};

    ghost view = { λ word. word.text };

    ghost invariant = { λ word. IsTrue (is_word word.text) };

    ghost inverse = { λ bytes. record { text = bytes } };
}

impl Word {
    /// The word with these characters: none exactly where they are not of a word's form.
    pub fn read(bytes: &[u8]) -> Option<Word>
        ensures { result ≡ (if is_word bytes.now then Some bytes.now else None) }
    {
        if bytes.len() > LONGEST_WORD || !is_identifier(bytes) {
            return None;
        }
        Some(Word {
            text: InPlace::new(bytes),
        })
    }

    /// Its characters.
    pub fn as_bytes(&self) -> &[u8]
        ensures same { result.now ≡ self.now }
        ensures form { IsTrue (is_word self.now) }
    {
        self.text.as_bytes()
    }
}

/// Shows its characters in double quotes.
impl fmt::Debug for Word {
    ghost debug_output = { λ word. Some (quoted word) };

    fn fmt<W: fmt::Write>(&self, f: &mut fmt::Formatter<W>) -> fmt::Result {
        show_name(self.as_bytes(), f)
    }
}

fn is_identifier(bytes: &[u8]) -> bool
    ensures { result ≡ is_identifier bytes.now }
{
    let Some((first, later)) = bytes.split_first() else {
        return false;
    };
    (is_letter(*first) || *first == b'_') && are_word_bytes(later)
}
