//! The kinds of tokens.

/// What a token is.
#[derive(Clone, Copy, Debug, PartialEq, Eq)]
pub enum TokenKind {
    /// An identifier that is no key word.
    Id,
    /// A key word.
    Key,
    /// A number.
    Integer,
    /// A character in quotes.
    Character,
    /// A text in double quotes.
    Text,
    /// A mark, as `+=`.
    Mark,
}
