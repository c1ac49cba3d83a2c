//! `if`.
ghost use Rattle.std.specs.Prelude.{◌≡◌, IfOk, true};
ghost use Rattle.sed_terms.specs.Faults as faults;
ghost use Rattle.sed_terms.specs.Faults.{IfSound, least_fault};
ghost use Rattle.sed_terms.specs.Sorts.{is_value};
ghost use Rattle.sed_statements.specs.Loops as rules;

use crate::rows::CheckedStmt;
use sed_body_rules::{Checked, truth};
use sed_faults::Fault;
use sed_terms::{Found, FoundStmt, Judged, paired};
use sed_value::Memory;
use std::alloc::Global;

/// The branches of an `if`.
type CheckedBranches = Judged<(FoundStmt, FoundStmt), Option<Fault>>;

fn test_and_branches(
    t: Checked,
    both: CheckedBranches,
) -> Judged<(Found, (FoundStmt, FoundStmt)), Option<Fault>>
    requires { IfSound t (λ x. is_value x ≡ true) }
    ensures pair { result ≡ faults.paired least_fault t both }
    ensures value { IfSound result (λ p. is_value p.0 ≡ true) }
{
    paired(t, both)
}

/// `if`, with the place of its condition. A branch that is not there is an empty statement.
pub fn conditional(
    alloc: Global,
    at: usize,
    t: Checked,
    x: CheckedStmt,
    y: CheckedStmt,
) -> Result<CheckedStmt, Memory>
    ensures { IfOk result (λ r. r ≡ rules.conditional least_fault at t x y) }
{
    let t = truth(alloc, at, t)?;
    match test_and_branches(t, paired(x, y)) {
        Judged::Sound(parts) => {
            let (t, both) = parts;
            let (x, y) = both;
            let z = FoundStmt::chosen(alloc, t, x, y)?;
            Ok(Judged::Sound(z))
        }
        Judged::Unknown(f) => Ok(Judged::Unknown(f)),
    }
}
