//! `return`.
ghost use Rattle.std.specs.Prelude.{◌≡◌, IfOk, true};
ghost use Rattle.sed_terms.specs.Faults as faults;
ghost use Rattle.sed_terms.specs.Faults.{IfSound, least_fault};
ghost use Rattle.sed_terms.specs.Sorts.{is_value};
ghost use Rattle.sed_statements.specs.Returns as rules;

use crate::rows::CheckedStmt;
use sed_body_rules::{Checked, placed};
use sed_faults::Fault;
use sed_names::Lookup;
use sed_terms::{Found, FoundStmt, Judged, broken, paired};
use sed_typed::Kind;
use sed_value::Memory;
use std::alloc::Global;

/// `return` alone, at a place, in a method of this result; none where the result is declared with a fault.
pub fn returned_nothing(
    alloc: Global,
    result_kind: Option<Kind>,
    at: usize,
) -> Result<CheckedStmt, Memory>
    ensures { IfOk result (λ r. r ≡ rules.returned_nothing least_fault result_kind at) }
{
    match result_kind {
        Some(Kind::Void) => {
            let x = FoundStmt::returned_nothing(alloc)?;
            Ok(Judged::Sound(x))
        }
        Some(_) => Ok(broken(19, at)),
        None => Ok(Judged::Unknown(None)),
    }
}

fn has_result(result_kind: Option<Kind>, at: usize) -> Judged<Kind, Option<Fault>>
    ensures { result ≡ rules.has_result least_fault result_kind at }
{
    match result_kind {
        Some(Kind::Void) => broken(19, at),
        Some(kind) => Judged::Sound(kind),
        None => Judged::Unknown(None),
    }
}

fn answering<N: Lookup>(
    alloc: Global,
    names: &N,
    to: Kind,
    at: usize,
    x: Found,
) -> Result<Checked, Memory>
    ensures is { IfOk result (λ r. r ≡ rules.answering least_fault (N.names names.now) to at x) }
    ensures value { IfOk result (λ r. IfSound r (λ v. is_value v ≡ true)) }
{
    match placed(alloc, names, to, x)? {
        Some(x) => Ok(Judged::Sound(x)),
        None => Ok(broken(19, at)),
    }
}

/// `return` with a value that stands at this place.
pub fn returned<N: Lookup>(
    alloc: Global,
    names: &N,
    result_kind: Option<Kind>,
    at: usize,
    x: Checked,
) -> Result<CheckedStmt, Memory>
    ensures { IfOk result (λ r. r ≡ rules.returned least_fault (N.names names.now) result_kind at x) }
{
    match paired(has_result(result_kind, at), x) {
        Judged::Sound(both) => {
            let (to, x) = both;
            match answering(alloc, names, to, at, x)? {
                Judged::Sound(x) => {
                    let x = FoundStmt::returned(alloc, x)?;
                    Ok(Judged::Sound(x))
                }
                Judged::Unknown(f) => Ok(Judged::Unknown(f)),
            }
        }
        Judged::Unknown(f) => Ok(Judged::Unknown(f)),
    }
}
