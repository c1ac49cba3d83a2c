//! The characters of which names are made.
ghost use Rattle.std.specs.Prelude.{◌≡◌};
ghost use Rattle.std.specs.List.{list_all};
ghost use Rattle.sed_value.specs.Characters as characters;

/// Whether the byte is one of A to Z or a to z. `_` is no letter.
pub fn is_letter(byte: u8) -> bool
    ensures { result ≡ characters.is_letter byte }
{
    byte.is_ascii_alphabetic()
}

/// Whether the byte is one of 0 to 9.
pub fn is_digit(byte: u8) -> bool
    ensures { result ≡ characters.is_digit byte }
{
    byte.is_ascii_digit()
}

/// Whether the byte may stand in an identifier after its first: a letter, a digit or `_`.
pub fn is_word_byte(byte: u8) -> bool
    ensures { result ≡ characters.is_word_byte byte }
{
    is_letter(byte) || is_digit(byte) || byte == b'_'
}

pub(crate) fn are_word_bytes(bytes: &[u8]) -> bool
    ensures { result ≡ list_all characters.is_word_byte bytes.now }
{
    bytes.iter().all(|byte| is_word_byte(*byte))
}

pub(crate) fn are_letters_or_digits(bytes: &[u8]) -> bool
    ensures { result ≡ list_all characters.is_letter_or_digit bytes.now }
{
    bytes.iter().all(|byte| is_letter(*byte) || is_digit(*byte))
}
