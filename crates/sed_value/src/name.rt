//! Names of components, in place.
ghost use Rattle.std.specs.Prelude.{◌≡◌, if◌then◌else◌, Some, None, IsTrue};
ghost use Rattle.sed_value.specs.Characters.{is_letter, is_word_byte};
ghost use Rattle.sed_value.specs.Names.{is_name, is_first_then};
ghost use Rattle.sed_value.specs.Shown.{quoted};

use crate::characters::{are_word_bytes, is_letter};
use crate::in_place::InPlace;
use crate::shown::show_name;
use std::fmt;
use std::marker::Model;

/// How many characters a component's name has at most.
pub const LONGEST_NAME: usize = 31;

/// A component's name, of 1 to 31 characters: a letter, then letters, digits or `_`.
///
/// Contracts see it as its bytes, and it compares by them.
#[derive(Clone, Copy, PartialEq, Eq, PartialOrd, Ord)]
pub struct Name {
    text: InPlace<LONGEST_NAME>,
}

impl Model for Name {
    ghost use Rattle.std.specs.Prelude.{ℕ, List, IsTrue};

    ghost Value = { List ℕ };

    ghost use Rattle.sed_value.specs.Names.{is_name};

    ghost view = { λ name. name.text };

    ghost invariant = { λ name. IsTrue (is_name name.text) };

    ghost inverse = { λ bytes. record { text = bytes } };
}

impl Name {
    /// The name with these characters: none exactly where they are not of a name's form.
    pub fn read(bytes: &[u8]) -> Option<Name>
        ensures { result ≡ (if is_name bytes.now then Some bytes.now else None) }
    {
        if bytes.len() > LONGEST_NAME || !has_form(bytes) {
            return None;
        }
        Some(Name {
            text: InPlace::new(bytes),
        })
    }

    /// Its characters.
    pub fn as_bytes(&self) -> &[u8]
        ensures same { result.now ≡ self.now }
        ensures form { IsTrue (is_name self.now) }
    {
        self.text.as_bytes()
    }
}

/// Shows its characters in double quotes.
impl fmt::Debug for Name {
    ghost debug_output = { λ name. Some (quoted name) };

    fn fmt<W: fmt::Write>(&self, f: &mut fmt::Formatter<W>) -> fmt::Result {
        show_name(self.as_bytes(), f)
    }
}

// Whether they are a name's characters, however many.
fn has_form(bytes: &[u8]) -> bool
    ensures { result ≡ is_first_then is_letter is_word_byte bytes.now }
{
    let Some((first, later)) = bytes.split_first() else {
        return false;
    };
    is_letter(*first) && are_word_bytes(later)
}
