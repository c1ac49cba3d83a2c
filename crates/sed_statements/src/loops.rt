//! Loops.
ghost use Rattle.std.specs.Prelude.{◌≡◌, IfOk, IfSome, true};
ghost use Rattle.sed_terms.specs.Faults as faults;
ghost use Rattle.sed_terms.specs.Faults.{IfSound, least_fault};
ghost use Rattle.sed_terms.specs.Sorts.{is_value};
ghost use Rattle.sed_statements.specs.Loops as rules;

use crate::rows::CheckedStmt;
use sed_body_rules::{Checked, truth};
use sed_faults::Fault;
use sed_terms::{Found, FoundStmt, Judged, paired};
use sed_value::Memory;
use std::alloc::Global;

/// A part of the head of a `for` that may be missing.
pub type CheckedPart = Judged<Option<Found>, Option<Fault>>;

fn test_and_body(t: Checked, x: CheckedStmt) -> Judged<(Found, FoundStmt), Option<Fault>>
    requires { IfSound t (λ u. is_value u ≡ true) }
    ensures pair { result ≡ faults.paired least_fault t x }
    ensures value { IfSound result (λ p. is_value p.0 ≡ true) }
{
    paired(t, x)
}

fn body_and_test(x: CheckedStmt, t: Checked) -> Judged<(FoundStmt, Found), Option<Fault>>
    requires { IfSound t (λ u. is_value u ≡ true) }
    ensures pair { result ≡ faults.paired least_fault x t }
    ensures value { IfSound result (λ p. is_value p.1 ≡ true) }
{
    paired(x, t)
}

/// `while`, with the place of its condition.
pub fn repeated(alloc: Global, at: usize, t: Checked, x: CheckedStmt) -> Result<CheckedStmt, Memory>
    ensures { IfOk result (λ r. r ≡ rules.repeated least_fault at t x) }
{
    let t = truth(alloc, at, t)?;
    match test_and_body(t, x) {
        Judged::Sound(both) => {
            let (t, x) = both;
            let z = FoundStmt::repeated(alloc, t, x)?;
            Ok(Judged::Sound(z))
        }
        Judged::Unknown(f) => Ok(Judged::Unknown(f)),
    }
}

/// `do` and `while`, with the place of the condition.
pub fn done_while(
    alloc: Global,
    x: CheckedStmt,
    at: usize,
    t: Checked,
) -> Result<CheckedStmt, Memory>
    ensures { IfOk result (λ r. r ≡ rules.done_while least_fault x at t) }
{
    let t = truth(alloc, at, t)?;
    match body_and_test(x, t) {
        Judged::Sound(both) => {
            let (x, t) = both;
            let z = FoundStmt::done_while(alloc, x, t)?;
            Ok(Judged::Sound(z))
        }
        Judged::Unknown(f) => Ok(Judged::Unknown(f)),
    }
}

// ---- `for`

/// A condition that is there, with its place.
pub fn test_of(alloc: Global, at: usize, t: Checked) -> Result<CheckedPart, Memory>
    ensures is { IfOk result (λ r. r ≡ rules.test_of least_fault at t) }
    ensures value { IfOk result (λ r. IfSound r (λ u. IfSome u (λ v. is_value v ≡ true))) }
{
    match truth(alloc, at, t)? {
        Judged::Sound(t) => Ok(Judged::Sound(Some(t))),
        Judged::Unknown(f) => Ok(Judged::Unknown(f)),
    }
}

/// A last part that is there. Its value is not used.
pub fn last_of(x: Checked) -> CheckedPart
    ensures { result ≡ rules.last_of x }
{
    match x {
        Judged::Sound(x) => Judged::Sound(Some(x)),
        Judged::Unknown(f) => Judged::Unknown(f),
    }
}

/// What stands before the body of a `for`.
type CheckedHead = Judged<(FoundStmt, (Option<Found>, Option<Found>)), Option<Fault>>;

fn head_of(first: CheckedStmt, test: CheckedPart, last: CheckedPart) -> CheckedHead
    requires { IfSound test (λ u. IfSome u (λ v. is_value v ≡ true)) }
    ensures pair { result ≡ faults.paired least_fault first (faults.paired least_fault test last) }
    ensures value { IfSound result (λ p. IfSome p.1.0 (λ v. is_value v ≡ true)) }
{
    paired(first, paired(test, last))
}

fn head_and_body(
    head: CheckedHead,
    x: CheckedStmt,
) -> Judged<((FoundStmt, (Option<Found>, Option<Found>)), FoundStmt), Option<Fault>>
    requires { IfSound head (λ p. IfSome p.1.0 (λ v. is_value v ≡ true)) }
    ensures pair { result ≡ faults.paired least_fault head x }
    ensures value { IfSound result (λ p. IfSome p.0.1.0 (λ v. is_value v ≡ true)) }
{
    paired(head, x)
}

/// `for`, by its first part, its condition, its last part and its body.
pub fn repeated_for(
    alloc: Global,
    first: CheckedStmt,
    test: CheckedPart,
    last: CheckedPart,
    x: CheckedStmt,
) -> Result<CheckedStmt, Memory>
    requires { IfSound test (λ u. IfSome u (λ v. is_value v ≡ true)) }
    ensures { IfOk result (λ r. r ≡ rules.repeated_for least_fault first test last x) }
{
    match head_and_body(head_of(first, test, last), x) {
        Judged::Sound(parts) => {
            let (head, x) = parts;
            let (first, both) = head;
            let (test, last) = both;
            let z = FoundStmt::repeated_for(alloc, first, test, last, x)?;
            Ok(Judged::Sound(z))
        }
        Judged::Unknown(f) => Ok(Judged::Unknown(f)),
    }
}
