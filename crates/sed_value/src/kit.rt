//! Names of kits, in place, and references to kits.
ghost use Rattle.std.specs.Prelude.{◌≡◌, if◌then◌else◌, Some, None, IsTrue};
ghost use Rattle.sed_value.specs.Characters.{is_letter, is_letter_or_digit};
ghost use Rattle.sed_value.specs.Names.{is_kit_name, is_first_then};
ghost use Rattle.sed_value.specs.Shown.{quoted};

use crate::characters::{are_letters_or_digits, is_letter};
use crate::in_place::InPlace;
use crate::shown::show_name;
use std::fmt;
use std::marker::Model;

/// How many characters a kit's name has at most.
pub const LONGEST_KIT_NAME: usize = 24;

/// A kit's name, of 1 to 24 characters: a letter, then letters or digits.
///
/// Contracts see it as its bytes, and it compares by them.
#[derive(Clone, Copy, PartialEq, Eq, PartialOrd, Ord)]
pub struct KitName {
    text: InPlace<LONGEST_KIT_NAME>,
}

impl Model for KitName {
    ghost use Rattle.std.specs.Prelude.{ℕ, List, IsTrue};

    ghost Value = { List ℕ };

    ghost use Rattle.sed_value.specs.Names.{is_kit_name};

    ghost view = { λ name. name.text };

    ghost invariant = { λ name. IsTrue (is_kit_name name.text) };

    ghost inverse = { λ bytes. record { text = bytes } };
}

impl KitName {
    /// The kit's name with these characters: none exactly where they are not of its form.
    pub fn read(bytes: &[u8]) -> Option<KitName>
        ensures { result ≡ (if is_kit_name bytes.now then Some bytes.now else None) }
    {
        if bytes.len() > LONGEST_KIT_NAME || !has_form(bytes) {
            return None;
        }
        Some(KitName {
            text: InPlace::new(bytes),
        })
    }

    /// Its characters.
    pub fn as_bytes(&self) -> &[u8]
        ensures same { result.now ≡ self.now }
        ensures form { IsTrue (is_kit_name self.now) }
    {
        self.text.as_bytes()
    }
}

/// Shows its characters in double quotes.
impl fmt::Debug for KitName {
    ghost debug_output = { λ name. Some (quoted name) };

    fn fmt<W: fmt::Write>(&self, f: &mut fmt::Formatter<W>) -> fmt::Result {
        show_name(self.as_bytes(), f)
    }
}

/// A kit as a schema names it: its name and the checksum of its canonical text.
#[derive(Clone, Copy, Debug, PartialEq, Eq)]
pub struct KitRef {
    pub name: KitName,
    pub checksum: i32,
}

// Whether they are a kit name's characters, however many.
fn has_form(bytes: &[u8]) -> bool
    ensures { result ≡ is_first_then is_letter is_letter_or_digit bytes.now }
{
    let Some((first, later)) = bytes.split_first() else {
        return false;
    };
    is_letter(*first) && are_letters_or_digits(later)
}
