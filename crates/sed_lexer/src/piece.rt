// The piece that a text begins with.
ghost use Rattle.std.specs.Prelude.{◌≡◌, if◌then◌else◌, MatchOption};
ghost use Rattle.sed_lexer.specs.Lexes.{NothingStands};
ghost use Rattle.sed_lexer.specs.Pieces as pieces;
ghost use Rattle.sed_lexer.specs.Words as words;
ghost use Rattle.sed_lexer.specs.Cutting.{IsLongestPiece, NoPiece, Stands};

use crate::TokenKind;
use crate::fronts::rest_of;
use crate::gaps::gap;
use crate::integers::integer;
use crate::spellings::{character, text as text_literal};
use crate::words::{is_key_word, mark, word};
use sed_value::{front_of, is_digit, is_letter};

/// A piece by its length. It is of no kind where it lies between tokens.
#[derive(Clone, Copy)]
pub struct Piece {
    pub kind: Option<TokenKind>,
    pub len: usize,
}

fn kind_of_word(word: &[u8]) -> TokenKind
    ensures { result ≡ (if words.is_key_word word.now then TokenKind.Key else TokenKind.Id) }
{
    if is_key_word(word) {
        TokenKind::Key
    } else {
        TokenKind::Id
    }
}

fn longest(text: &[u8]) -> Option<Piece>
    ensures { MatchOption result (NoPiece text.now) (IsLongestPiece text.now) }
{
    if let Some(len) = gap(text) {
        return Some(Piece { kind: None, len });
    }
    if let Some(len) = word(text) {
        let kind = Some(kind_of_word(front_of(text, len)));
        return Some(Piece { kind, len });
    }
    if let Some(len) = integer(text) {
        let kind = Some(TokenKind::Integer);
        return Some(Piece { kind, len });
    }
    if let Some(len) = character(text) {
        let kind = Some(TokenKind::Character);
        return Some(Piece { kind, len });
    }
    if let Some(len) = text_literal(text) {
        let kind = Some(TokenKind::Text);
        return Some(Piece { kind, len });
    }
    if let Some(len) = mark(text) {
        let kind = Some(TokenKind::Mark);
        return Some(Piece { kind, len });
    }
    None
}

fn can_end(kind: Option<TokenKind>, bytes: &[u8], rest: &[u8]) -> bool
    ensures { result ≡ pieces.can_end kind bytes.now rest.now }
{
    match (kind, rest.first()) {
        (Some(TokenKind::Integer), Some(b)) => !(is_letter(*b) || is_digit(*b)),
        (Some(TokenKind::Mark), Some(b)) => !(bytes == b"/".as_slice() && *b == b'*'),
        _ => true,
    }
}

/// The piece that can stand at the start of the text.
pub fn scan(text: &[u8]) -> Option<Piece>
    ensures { MatchOption result (NothingStands text.now) (Stands text.now) }
{
    let Some(piece) = longest(text) else {
        return None;
    };
    if can_end(
        piece.kind,
        front_of(text, piece.len),
        rest_of(text, piece.len),
    ) {
        Some(piece)
    } else {
        None
    }
}
