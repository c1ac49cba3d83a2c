//! The rule on `? :`.
ghost use Rattle.std.specs.Prelude.{◌≡◌, IfOk, true};
ghost use Rattle.sed_terms.specs.Faults as faults;
ghost use Rattle.sed_terms.specs.Faults.{IfSound, least_fault};
ghost use Rattle.sed_terms.specs.Sorts.{is_value};
ghost use Rattle.sed_body_rules.specs.Choices as choices;

use crate::{
    Checked, beside, has_kind, in_width, is_number, meeting, same_kind, truth, wants_operand,
};
use sed_faults::Fault;
use sed_terms::{Found, Judged, broken, paired};
use sed_value::Memory;
use std::alloc::Global;

/// Two branches, with the least fault inside where they are unknown.
type CheckedBranches = Judged<(Found, Found), Option<Fault>>;

// Branches of equal kinds, where an int beside a long is a long.
#[tactic(auto, using(crate::specs::Values::number_value))]
fn equal_branches(
    alloc: Global,
    right: usize,
    x: Found,
    y: Found,
) -> Result<CheckedBranches, Memory>
    ensures is { IfOk result (λ r. r ≡ faults.some_or least_fault (faults.broken 13 right)
        (choices.equal_branches x y)) }
    ensures values { IfOk result (λ r. IfSound r (λ p. (is_value p.0 ≡ true) × (is_value p.1 ≡ true))) }
{
    if is_number(x.sort()) && is_number(y.sort()) {
        let width = meeting(&x, &y);
        let x = in_width(alloc, width, x)?;
        let y = in_width(alloc, width, y)?;
        return Ok(Judged::Sound((x, y)));
    }
    if has_kind(x.sort()) && has_kind(y.sort()) && same_kind(x.kind(), y.kind()) {
        return Ok(Judged::Sound((x, y)));
    }
    Ok(broken(13, right))
}

fn branched(
    alloc: Global,
    left: usize,
    right: usize,
    x: Checked,
    y: Checked,
) -> Result<CheckedBranches, Memory>
    ensures is { IfOk result (λ r. r ≡ choices.branched least_fault left right x y) }
    ensures values { IfOk result (λ r. IfSound r (λ p. (is_value p.0 ≡ true) × (is_value p.1 ≡ true))) }
{
    match paired(wants_operand(left, x), wants_operand(right, y)) {
        Judged::Sound((x, y)) => {
            let first = x.sort();
            let x = beside(alloc, y.sort(), x)?;
            let y = beside(alloc, first, y)?;
            equal_branches(alloc, right, x, y)
        }
        Judged::Unknown(f) => Ok(Judged::Unknown(f)),
    }
}

fn test_and_branches(
    t: Checked,
    both: CheckedBranches,
) -> Judged<(Found, (Found, Found)), Option<Fault>>
    requires test { IfSound t (λ x. is_value x ≡ true) }
    requires branches { IfSound both (λ p. (is_value p.0 ≡ true) × (is_value p.1 ≡ true)) }
    ensures pair { result ≡ faults.paired least_fault t both }
    ensures values { IfSound result (λ p. (is_value p.0 ≡ true) × ((is_value p.1.0 ≡ true) × (is_value p.1.1 ≡ true))) }
{
    paired(t, both)
}

/// `? :`; `at` is the place of the condition, `left` and `right` those of the branches.
pub fn chosen(
    alloc: Global,
    at: usize,
    left: usize,
    right: usize,
    t: Checked,
    x: Checked,
    y: Checked,
) -> Result<Checked, Memory>
    ensures { IfOk result (λ r. r ≡ choices.chosen least_fault at left right t x y) }
{
    let both = branched(alloc, left, right, x, y)?;
    let t = truth(alloc, at, t)?;
    match test_and_branches(t, both) {
        Judged::Sound(parts) => {
            let (t, both) = parts;
            let (x, y) = both;
            let z = Found::choose(alloc, t, x, y)?;
            Ok(Judged::Sound(z))
        }
        Judged::Unknown(f) => Ok(Judged::Unknown(f)),
    }
}
