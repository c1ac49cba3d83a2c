//! Statements one after another, and an expression as a statement.
ghost use Rattle.std.specs.Prelude.{◌≡◌, IfOk};
ghost use Rattle.sed_terms.specs.Faults.{least_fault};
ghost use Rattle.sed_statements.specs.Rows as rules;

use sed_body_rules::Checked;
use sed_faults::Fault;
use sed_terms::{FoundStmt, FoundStmts, Judged, paired};
use sed_value::Memory;
use std::alloc::Global;

/// What a statement comes to, with the least fault inside where it is unknown.
pub type CheckedStmt = Judged<FoundStmt, Option<Fault>>;

/// What statements one after another come to.
pub type CheckedRow = Judged<FoundStmts, Option<Fault>>;

/// An expression whose value is not used.
pub fn evaluated(alloc: Global, x: Checked) -> Result<CheckedStmt, Memory>
    ensures { IfOk result (λ r. r ≡ rules.evaluated x) }
{
    match x {
        Judged::Sound(x) => {
            let x = FoundStmt::evaluated(alloc, x)?;
            Ok(Judged::Sound(x))
        }
        Judged::Unknown(f) => Ok(Judged::Unknown(f)),
    }
}

/// The statements so far, with one more.
pub fn followed(xs: CheckedRow, x: CheckedStmt) -> Result<CheckedRow, Memory>
    ensures { IfOk result (λ r. r ≡ rules.followed least_fault xs x) }
{
    match paired(xs, x) {
        Judged::Sound(both) => {
            let (xs, x) = both;
            let xs = xs.with(x)?;
            Ok(Judged::Sound(xs))
        }
        Judged::Unknown(f) => Ok(Judged::Unknown(f)),
    }
}

/// The statements of a block.
pub fn blocked(alloc: Global, xs: CheckedRow) -> Result<CheckedStmt, Memory>
    ensures { IfOk result (λ r. r ≡ rules.blocked xs) }
{
    match xs {
        Judged::Sound(xs) => {
            let x = xs.into_block(alloc)?;
            Ok(Judged::Sound(x))
        }
        Judged::Unknown(f) => Ok(Judged::Unknown(f)),
    }
}
