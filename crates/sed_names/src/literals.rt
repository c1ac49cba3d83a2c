//! What integer and character literals spell, as functions of their bytes.
//!
//! The lexer says which number a literal denotes by a relation with at most one answer. A judgement over trees needs
//! the answer as a function, and so that function stands here, with the proof that it is the lexer's answer.
ghost use Rattle.std.specs.Prelude.{◌≡◌};
ghost use Rattle.sed_names.specs.Spelled as spelled;

use sed_lexer::{Number, character_value, integer_value};

/// The number that an integer literal spells; none where it is above the bound of its form, or the bytes are no
/// integer.
pub fn integer_of(bytes: &[u8]) -> Option<Number>
    ensures { result ≡ spelled.integer_of bytes.now }
{
    integer_value(bytes)
}

/// The character that a character literal spells; none where the bytes are no character in quotes.
pub fn character_of(bytes: &[u8]) -> Option<u8>
    ensures { result ≡ spelled.character_of bytes.now }
{
    character_value(bytes)
}
