//! What is wanted of an operand.
ghost use Rattle.std.specs.Prelude.{◌≡◌, IfOk, true};
ghost use Rattle.sed_terms.specs.Faults as faults;
ghost use Rattle.sed_terms.specs.Faults.{IfSound, least_fault};
ghost use Rattle.sed_terms.specs.Sorts.{is_value};
ghost use Rattle.sed_body_rules.specs.Conversions as conversions;
ghost use Rattle.sed_body_rules.specs.Wants as wants;

use crate::conversions::{Checked, beside, is_bool, is_int, is_number, is_operand};
use sed_faults::Fault;
use sed_terms::{Found, Judged, Sort, broken, paired};
use sed_typed::Kind;
use sed_value::Memory;
use std::alloc::Global;

/// A number, at the place of its first byte.
#[tactic(auto, using(crate::specs::Values::number_value))]
pub fn wants_number(at: usize, x: Checked) -> Checked
    ensures is { result ≡ wants.wants least_fault conversions.is_number at x }
    ensures value { IfSound result (λ t. is_value t ≡ true) }
{
    match x {
        Judged::Sound(x) => {
            if is_number(x.sort()) {
                Judged::Sound(x)
            } else {
                broken(13, at)
            }
        }
        Judged::Unknown(f) => Judged::Unknown(f),
    }
}

/// An int.
#[tactic(auto, using(crate::specs::Values::int_value))]
pub fn wants_int(at: usize, x: Checked) -> Checked
    ensures is { result ≡ wants.wants least_fault conversions.is_int at x }
    ensures value { IfSound result (λ t. is_value t ≡ true) }
{
    match x {
        Judged::Sound(x) => {
            if is_int(x.sort()) {
                Judged::Sound(x)
            } else {
                broken(13, at)
            }
        }
        Judged::Unknown(f) => Judged::Unknown(f),
    }
}

/// A value, or `null`.
pub fn wants_operand(at: usize, x: Checked) -> Checked
    ensures { result ≡ wants.wants least_fault conversions.is_operand at x }
{
    match x {
        Judged::Sound(x) => {
            if is_operand(x.sort()) {
                Judged::Sound(x)
            } else {
                broken(13, at)
            }
        }
        Judged::Unknown(f) => Judged::Unknown(f),
    }
}

/// A bool: a condition, or an operand of `!`, `&&` and `||`.
#[tactic(auto, using(crate::specs::Values::bool_value))]
pub fn truth(alloc: Global, at: usize, x: Checked) -> Result<Checked, Memory>
    ensures is { IfOk result (λ r. r ≡ wants.truth least_fault at x) }
    ensures value { IfOk result (λ r. IfSound r (λ t. is_value t ≡ true)) }
{
    match x {
        Judged::Sound(x) => {
            let x = beside(alloc, Sort::Of(Kind::Bool), x)?;
            if is_bool(x.sort()) {
                Ok(Judged::Sound(x))
            } else {
                Ok(broken(13, at))
            }
        }
        Judged::Unknown(f) => Ok(Judged::Unknown(f)),
    }
}

/// Two values together.
pub fn both_values(x: Checked, y: Checked) -> Judged<(Found, Found), Option<Fault>>
    requires left { IfSound x (λ t. is_value t ≡ true) }
    requires right { IfSound y (λ t. is_value t ≡ true) }
    ensures pair { result ≡ faults.paired least_fault x y }
    ensures values { IfSound result (λ p. (is_value p.0 ≡ true) × (is_value p.1 ≡ true)) }
{
    paired(x, y)
}
