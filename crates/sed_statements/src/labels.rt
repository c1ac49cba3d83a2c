//! `switch` and its labels.
ghost use Rattle.std.specs.Prelude.{◌≡◌, IfOk, OnErr, true};
ghost use Rattle.std.specs.List.{list_any};
ghost use Rattle.sed_typed.specs.TypedStmt as typed;
ghost use Rattle.sed_terms.specs.Faults as faults;
ghost use Rattle.sed_terms.specs.Faults.{IfSound, least_fault};
ghost use Rattle.sed_terms.specs.Sorts.{is_value};
ghost use Rattle.sed_statements.specs.Labels as rules;

use crate::rows::{CheckedRow, CheckedStmt};
use sed_body_rules::{Checked, wants_int};
use sed_faults::Fault;
use sed_terms::{Found, FoundCases, FoundStmt, FoundStmts, Judged, broken, paired};
use sed_typed::Label;
use sed_value::Memory;
use std::alloc::Global;

/// A label of a `switch`.
pub type CheckedLabel = Judged<Label, Option<Fault>>;

/// The labels of a `switch`, each with the statements behind it.
pub type CheckedCases = Judged<FoundCases, Option<Fault>>;

fn same_label(value: i32, l: Label) -> bool
    ensures { result ≡ typed.same_label value l }
{
    match l {
        Label::Case(other) => value == other,
        Label::Default => false,
    }
}

fn is_default(l: Label) -> bool
    ensures { result ≡ typed.is_default l }
{
    match l {
        Label::Case(_) => false,
        Label::Default => true,
    }
}

fn has_case(labels: &[Label], value: i32) -> bool
    ensures { result ≡ list_any (typed.same_label value) labels.now }
{
    labels.iter().any(|l| same_label(value, *l))
}

fn has_default(labels: &[Label]) -> bool
    ensures { result ≡ list_any typed.is_default labels.now }
{
    labels.iter().any(|l| is_default(*l))
}

fn new_case(labels: &[Label], at: usize, value: i32) -> CheckedLabel
    ensures { result ≡ rules.new_case least_fault labels.now at value }
{
    if has_case(labels, value) {
        broken(20, at)
    } else {
        Judged::Sound(Label::Case(value))
    }
}

fn spelled_case(labels: &[Label], at: usize, spelled: Option<i32>) -> CheckedLabel
    ensures { result ≡ rules.spelled_case least_fault labels.now at spelled }
{
    match spelled {
        Some(value) => new_case(labels, at, value),
        None => broken(20, at),
    }
}

/// A case at a place, behind these labels: the int that its expression spells, if it is an int literal or a define of
/// an int, and what the expression comes to.
pub fn case_of(labels: &[Label], at: usize, spelled: Option<i32>, x: &Checked) -> CheckedLabel
    ensures { result ≡ rules.case_of least_fault labels.now at spelled x.now }
{
    match x {
        Judged::Sound(_) => spelled_case(labels, at, spelled),
        Judged::Unknown(f) => Judged::Unknown(*f),
    }
}

/// `default` at a place, behind these labels.
pub fn default_of(labels: &[Label], at: usize) -> CheckedLabel
    ensures { result ≡ rules.default_of least_fault labels.now at }
{
    if has_default(labels) {
        broken(20, at)
    } else {
        Judged::Sound(Label::Default)
    }
}

/// Puts a label that is sound behind those before it. Want of memory changes nothing.
pub fn with_label(labels: &mut Vec<Label>, l: &CheckedLabel) -> Result<(), Memory>
    ensures more { IfOk result (λ _. labels.new.items ≡ rules.with_label labels.old.items l.now) }
    ensures kept { OnErr result (labels.new.items ≡ labels.old.items) }
{
    match l {
        Judged::Sound(l) => {
            labels.push(*l)?;
            Ok(())
        }
        Judged::Unknown(_) => Ok(()),
    }
}

/// The labels so far and their statements, with one more label and the row of statements behind it.
pub fn with_case(xs: CheckedCases, l: CheckedLabel, all: CheckedRow) -> Result<CheckedCases, Memory>
    ensures { IfOk result (λ r. r ≡ rules.with_case least_fault xs l all) }
{
    match paired(xs, paired(l, all)) {
        Judged::Sound(parts) => {
            let (xs, both) = parts;
            let (l, all) = both;
            let xs = xs.with(l, all)?;
            Ok(Judged::Sound(xs))
        }
        Judged::Unknown(f) => Ok(Judged::Unknown(f)),
    }
}

fn value_and_cases(x: Checked, cases: CheckedCases) -> Judged<(Found, FoundCases), Option<Fault>>
    requires { IfSound x (λ t. is_value t ≡ true) }
    ensures pair { result ≡ faults.paired least_fault x cases }
    ensures value { IfSound result (λ p. is_value p.0 ≡ true) }
{
    paired(x, cases)
}

/// `switch` of a value, with its place.
pub fn switched(
    alloc: Global,
    at: usize,
    x: Checked,
    cases: CheckedCases,
) -> Result<CheckedStmt, Memory>
    ensures { IfOk result (λ r. r ≡ rules.switched least_fault at x cases) }
{
    match value_and_cases(wants_int(at, x), cases) {
        Judged::Sound(both) => {
            let (x, cases) = both;
            let z = FoundStmt::switched(alloc, x, cases)?;
            Ok(Judged::Sound(z))
        }
        Judged::Unknown(f) => Ok(Judged::Unknown(f)),
    }
}
