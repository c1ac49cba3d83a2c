//! Cutting a text into tokens.
ghost use Rattle.std.specs.Prelude.{◌≡◌, ◌<◌, ◌||◌, ℕ, List, length, IfOk, IsErrOf};
ghost use Rattle.sed_lexer.specs.Token.{Token};
ghost use Rattle.sed_lexer.specs.Gaps as gaps;
ghost use Rattle.sed_lexer.specs.Lexes.{Lexes, FaultsAt};
ghost use Rattle.sed_lexer.specs.Answer.{IsUnlessMemory};
ghost use Rattle.sed_lexer.specs.Cutting.{IsCut};

use crate::Tokens;
use crate::fronts::rest_of;
use crate::gaps::has_line_end;
use crate::piece::{Piece, scan};
use crate::tokens::Span;
use sed_value::front_of;
use std::alloc::{AllocError, AllocFailed, Global};
use thiserror::Error;

/// Why a text has no tokens.
#[derive(Clone, Copy, Debug, PartialEq, Eq, Error)]
pub enum LexRefusal {
    /// The text, cut from its start on, goes on at this place, and nothing begins there.
    #[error("nothing begins at {at}")]
    Fault { at: usize },
    /// Memory was refused.
    #[error("out of memory")]
    Memory,
}

impl From<AllocError> for LexRefusal {
    ghost use Rattle.std.specs.Prelude.{◌≡◌};
    ghost use Rattle.sed_lexer.specs.declared.lexing.LexRefusal.TheVariants.{Memory};

    ghost from_gives = { λ _ e. e ≡ Memory };

    fn from(_: AllocError) -> Self {
        LexRefusal::Memory
    }
}

impl<T: Drop> From<AllocFailed<T>> for LexRefusal {
    ghost use Rattle.std.specs.Prelude.{◌≡◌};
    ghost use Rattle.sed_lexer.specs.declared.lexing.LexRefusal.TheVariants.{Memory};

    ghost from_gives = { λ _ e. e ≡ Memory };

    fn from(_: AllocFailed<T>) -> Self {
        LexRefusal::Memory
    }
}

// Where the cutting of a text has come to, and whether a token that begins there is first on its line.
#[derive(Clone, Copy)]
struct Place {
    at: usize,
    first: bool,
}

// Whether a token that follows this gap is first on its line, where one in its place would be so or not.
fn is_first_after(first: bool, gap: &[u8]) -> bool
    ensures { result ≡ (first || gaps.has_line_end gap.now) }
{
    first || has_line_end(gap)
}

// One piece more.
fn step(text: &[u8], spans: &mut Vec<Span>, place: Place) -> Result<Place, LexRefusal>
    requires inside { place.at < length text.now }
    requires cut { IsCut text.now spans.old.items place.at place.first }
    ensures cut { IfOk result (λ next. IsCut text.now spans.new.items next.at next.first) }
    ensures goes_on { IfOk result (λ next. place.at < next.at) }
    ensures fault { (at : ℕ) → IsErrOf result (LexRefusal.Fault at) → FaultsAt text.now at }
{
    let Place { at, first } = place;
    let Some(piece) = scan(rest_of(text, at)) else {
        return Err(LexRefusal::Fault { at });
    };
    let end = at + piece.len;
    let Some(kind) = piece.kind else {
        let first = is_first_after(first, front_of(rest_of(text, at), piece.len));
        return Ok(Place { at: end, first });
    };
    spans.push(Span {
        kind,
        start: at,
        end,
        first,
    })?;
    Ok(Place {
        at: end,
        first: false,
    })
}

/// The tokens of the text.
///
/// A fault is the place where the text, cut from its start on into the longest pieces, goes on and nothing begins.
pub fn lex(alloc: Global, text: &[u8]) -> Result<Tokens, LexRefusal>
    ensures found { IfOk result (λ tokens. Lexes text.now tokens) }
    ensures only { IfOk result (λ tokens. (others : List Token) → Lexes text.now others → others ≡ tokens) }
    ensures fault { (at : ℕ) → IsErrOf result (LexRefusal.Fault at) → FaultsAt text.now at }
    ensures none { (at : ℕ) → IsErrOf result (LexRefusal.Fault at) → (tokens : List Token) → Lexes text.now tokens → ⊥ }

    // A text that has tokens is answered with them, and one that faults with the place, unless memory is refused.
    ensures lexes { (tokens : List Token) → Lexes text.now tokens → IsUnlessMemory result (Ok tokens) }
    ensures faults { (at : ℕ) → FaultsAt text.now at → IsUnlessMemory result (Err (LexRefusal.Fault at)) }
{
    let mut spans = Vec::new(alloc);
    let mut place = Place { at: 0, first: true };
    while place.at < text.len() {
        place = match step(text, &mut spans, place) {
            Ok(next) => next,
            Err(refusal) => return Err(refusal),
        };
    }
    let text = Vec::from_slice(alloc, text)?;
    Ok(Tokens::new(text, spans))
}
