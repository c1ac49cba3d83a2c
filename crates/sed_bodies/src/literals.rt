//! What literals come to.
ghost use Rattle.std.specs.Prelude.{◌≡◌, IfOk};
ghost use Rattle.sed_terms.specs.Faults.{least_fault};
ghost use Rattle.sed_bodies.specs.Literals as meaning;
ghost use Rattle.sed_names.specs.Spelled as spelled;

use sed_body_rules::Checked;
use sed_lexer::Number;
use sed_names::{Lookup, character_of, integer_of};
use sed_terms::{Found, Judged, broken};
use sed_units::{Literal, LiteralKind};
use sed_value::Memory;
use std::alloc::Global;

fn integer(alloc: Global, at: usize, bytes: &[u8]) -> Result<Checked, Memory>
    ensures { IfOk result (λ r. r ≡ meaning.integer least_fault at (spelled.integer_of bytes.now)) }
{
    match integer_of(bytes) {
        Some(Number::Int(n)) => {
            let x = Found::int(alloc, n)?;
            Ok(Judged::Sound(x))
        }
        Some(Number::Long(n)) => {
            let x = Found::long(alloc, n)?;
            Ok(Judged::Sound(x))
        }
        None => Ok(broken(21, at)),
    }
}

fn character(alloc: Global, at: usize, bytes: &[u8]) -> Result<Checked, Memory>
    ensures { IfOk result (λ r. r ≡ meaning.character least_fault at (spelled.character_of bytes.now)) }
{
    match character_of(bytes) {
        Some(c) => {
            let x = Found::int(alloc, i32::from(c))?;
            Ok(Judged::Sound(x))
        }
        None => Ok(broken(21, at)),
    }
}

fn text<N: Lookup>(alloc: Global, names: &N, at: usize, bytes: &[u8]) -> Result<Checked, Memory>
    ensures { IfOk result (λ r. r ≡ meaning.text least_fault at ((N.names names.now).text bytes.now)) }
{
    match names.text(bytes) {
        Some(number) => {
            let x = Found::text(alloc, number)?;
            Ok(Judged::Sound(x))
        }
        None => Ok(broken(22, at)),
    }
}

/// What a literal comes to.
pub fn literal<N: Lookup>(alloc: Global, names: &N, l: &Literal) -> Result<Checked, Memory>
    ensures { IfOk result (λ r. r ≡ meaning.literal_judged least_fault (N.names names.now) l.now) }
{
    match l.kind {
        LiteralKind::Integer => integer(alloc, l.at, l.bytes.as_slice()),
        LiteralKind::Character => character(alloc, l.at, l.bytes.as_slice()),
        LiteralKind::Text => text(alloc, names, l.at, l.bytes.as_slice()),
        LiteralKind::True => {
            let x = Found::truth(alloc, 1)?;
            Ok(Judged::Sound(x))
        }
        LiteralKind::False => {
            let x = Found::truth(alloc, 0)?;
            Ok(Judged::Sound(x))
        }
        LiteralKind::Null => {
            let x = Found::nothing(alloc)?;
            Ok(Judged::Sound(x))
        }
    }
}
