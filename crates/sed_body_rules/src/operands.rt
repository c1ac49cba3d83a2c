//! The rules on operands.
ghost use Rattle.std.specs.Prelude.{◌≡◌, ◌&&◌, IfOk, true};
ghost use Rattle.sed_terms.specs.Faults as faults;
ghost use Rattle.sed_terms.specs.Faults.{IfSound, least_fault};
ghost use Rattle.sed_terms.specs.Forms as forms;
ghost use Rattle.sed_terms.specs.Sorts.{is_value, sort_of};
ghost use Rattle.sed_body_rules.specs.Conversions as conversions;
ghost use Rattle.sed_body_rules.specs.Wants.{wants};
ghost use Rattle.sed_body_rules.specs.Operands as operands;

use crate::{
    Checked, beside, both_values, in_width, is_bool, is_number, is_reference, meeting, truth,
    wants_int, wants_number, width_of,
};
use sed_faults::Fault;
use sed_terms::{Found, Judged, Sort, broken, paired};
use sed_typed::{Arithmetic, Binary, Comparison, Kind, Unary, Width};
use sed_units::BinaryOp;
use sed_value::{Memory, Prim};
use std::alloc::Global;

// ---- one operand

/// `!`, with the place of its operand.
pub fn negated(alloc: Global, at: usize, x: Checked) -> Result<Checked, Memory>
    ensures { IfOk result (λ r. r ≡ operands.negated least_fault at x) }
{
    match truth(alloc, at, x)? {
        Judged::Sound(x) => {
            let x = Found::unary(alloc, Unary::Not, x)?;
            Ok(Judged::Sound(x))
        }
        Judged::Unknown(f) => Ok(Judged::Unknown(f)),
    }
}

/// `-` in front, with the place of its operand.
pub fn opposite(alloc: Global, at: usize, x: Checked) -> Result<Checked, Memory>
    ensures { IfOk result (λ r. r ≡ operands.opposite least_fault at x) }
{
    match wants_number(at, x) {
        Judged::Sound(x) => {
            let width = width_of(&x);
            let x = Found::unary(alloc, Unary::Negate(width), x)?;
            Ok(Judged::Sound(x))
        }
        Judged::Unknown(f) => Ok(Judged::Unknown(f)),
    }
}

/// `~`, with the place of its operand.
pub fn flipped(alloc: Global, at: usize, x: Checked) -> Result<Checked, Memory>
    ensures { IfOk result (λ r. r ≡ operands.flipped least_fault at x) }
{
    match wants_number(at, x) {
        Judged::Sound(x) => {
            let width = width_of(&x);
            let x = Found::unary(alloc, Unary::Flip(width), x)?;
            Ok(Judged::Sound(x))
        }
        Judged::Unknown(f) => Ok(Judged::Unknown(f)),
    }
}

// A number as another primitive.
fn cast_to(alloc: Global, prim: Prim, width: Width, x: Found) -> Result<Found, Memory>
    requires { is_value x ≡ true }
    ensures { IfOk result (λ r. r ≡ operands.cast_to prim width x) }
{
    match (prim, width) {
        (Prim::Byte, _) => Found::unary(alloc, Unary::LowByte(width), x),
        (Prim::Short, _) => Found::unary(alloc, Unary::LowShort(width), x),
        (Prim::Int, Width::Long) => Found::unary(alloc, Unary::ToInt, x),
        (Prim::Long, Width::Int) => Found::unary(alloc, Unary::ToLong, x),
        _ => Ok(x),
    }
}

fn cast_kind(at: usize, prim: Prim) -> Judged<Prim, Option<Fault>>
    ensures { result ≡ faults.unless least_fault (operands.is_cast prim) (faults.broken 13 at) prim }
{
    match prim {
        Prim::Bool => broken(13, at),
        _ => Judged::Sound(prim),
    }
}

fn cast_parts(prim: Judged<Prim, Option<Fault>>, x: Checked) -> Judged<(Prim, Found), Option<Fault>>
    requires { IfSound x (λ t. is_value t ≡ true) }
    ensures pair { result ≡ faults.paired least_fault prim x }
    ensures value { IfSound result (λ p. is_value p.1 ≡ true) }
{
    paired(prim, x)
}

/// A cast, with its place and that of its operand.
pub fn cast(
    alloc: Global,
    at: usize,
    prim: Prim,
    right: usize,
    x: Checked,
) -> Result<Checked, Memory>
    ensures { IfOk result (λ r. r ≡ operands.cast least_fault at prim right x) }
{
    match cast_parts(cast_kind(at, prim), wants_number(right, x)) {
        Judged::Sound(pair) => {
            let (prim, x) = pair;
            let width = width_of(&x);
            let x = cast_to(alloc, prim, width, x)?;
            Ok(Judged::Sound(x))
        }
        Judged::Unknown(f) => Ok(Judged::Unknown(f)),
    }
}

// ---- two operands

fn calculated(alloc: Global, op: Arithmetic, x: Found, y: Found) -> Result<Found, Memory>
    requires left { is_value x ≡ true }
    requires right { is_value y ≡ true }
    ensures { IfOk result (λ r. r ≡ operands.calculated op (conversions.meeting x y) x y) }
{
    let width = meeting(&x, &y);
    let x = in_width(alloc, width, x)?;
    let y = in_width(alloc, width, y)?;
    Found::binary(alloc, Binary::Arithmetic(op, width), x, y)
}

fn compared(alloc: Global, op: Comparison, x: Found, y: Found) -> Result<Found, Memory>
    requires left { is_value x ≡ true }
    requires right { is_value y ≡ true }
    ensures { IfOk result (λ r. r ≡ operands.compared op (conversions.meeting x y) x y) }
{
    let width = meeting(&x, &y);
    let x = in_width(alloc, width, x)?;
    let y = in_width(alloc, width, y)?;
    Found::binary(alloc, Binary::Compare(op, width), x, y)
}

fn numbers(
    alloc: Global,
    op: Arithmetic,
    at: usize,
    right: usize,
    x: Checked,
    y: Checked,
) -> Result<Checked, Memory>
    ensures { IfOk result (λ r. r ≡ operands.operated least_fault (operands.Numbers op) at right x y) }
{
    match both_values(wants_number(at, x), wants_number(right, y)) {
        Judged::Sound(pair) => {
            let (x, y) = pair;
            let z = calculated(alloc, op, x, y)?;
            Ok(Judged::Sound(z))
        }
        Judged::Unknown(f) => Ok(Judged::Unknown(f)),
    }
}

fn shift(
    alloc: Global,
    op: Arithmetic,
    at: usize,
    right: usize,
    x: Checked,
    y: Checked,
) -> Result<Checked, Memory>
    ensures { IfOk result (λ r. r ≡ operands.operated least_fault (operands.Shift op) at right x y) }
{
    match both_values(wants_number(at, x), wants_int(right, y)) {
        Judged::Sound(pair) => {
            let (x, y) = pair;
            let width = width_of(&x);
            let z = Found::binary(alloc, Binary::Arithmetic(op, width), x, y)?;
            Ok(Judged::Sound(z))
        }
        Judged::Unknown(f) => Ok(Judged::Unknown(f)),
    }
}

fn order(
    alloc: Global,
    op: Comparison,
    at: usize,
    right: usize,
    x: Checked,
    y: Checked,
) -> Result<Checked, Memory>
    ensures { IfOk result (λ r. r ≡ operands.operated least_fault (operands.Order op) at right x y) }
{
    match both_values(wants_number(at, x), wants_number(right, y)) {
        Judged::Sound(pair) => {
            let (x, y) = pair;
            let z = compared(alloc, op, x, y)?;
            Ok(Judged::Sound(z))
        }
        Judged::Unknown(f) => Ok(Judged::Unknown(f)),
    }
}

fn are_numbers(x: Sort, y: Sort) -> bool
    ensures { result ≡ (conversions.is_number x && conversions.is_number y) }
{
    is_number(x) && is_number(y)
}

fn are_bools(x: Sort, y: Sort) -> bool
    ensures { result ≡ (conversions.is_bool x && conversions.is_bool y) }
{
    is_bool(x) && is_bool(y)
}

fn are_references(x: Sort, y: Sort) -> bool
    ensures { result ≡ (conversions.is_reference x && conversions.is_reference y) }
{
    is_reference(x) && is_reference(y)
}

// What `==` or `!=` is of numbers, of bools and of references.
#[derive(Clone, Copy)]
struct EqualityOps {
    numbers: Comparison,
    truths: Binary,
    references: Binary,
}

const EQUAL: EqualityOps = EqualityOps {
    numbers: Comparison::Equal,
    truths: Binary::SameTruth,
    references: Binary::SameReference,
};

const NOT_EQUAL: EqualityOps = EqualityOps {
    numbers: Comparison::NotEqual,
    truths: Binary::OtherTruth,
    references: Binary::OtherReference,
};

// Two numbers, two bools or two references.
#[tactic(auto, using(crate::proofs::Values::values))]
fn equated_pair(
    alloc: Global,
    op: EqualityOps,
    at: usize,
    x: Found,
    y: Found,
) -> Result<Checked, Memory>
    ensures { IfOk result (λ r. r ≡ faults.some_or least_fault (faults.broken 13 at)
        (operands.equated_pair op.numbers op.truths op.references x y)) }
{
    if are_numbers(x.sort(), y.sort()) {
        let z = compared(alloc, op.numbers, x, y)?;
        return Ok(Judged::Sound(z));
    }
    if are_bools(x.sort(), y.sort()) {
        let z = Found::binary(alloc, op.truths, x, y)?;
        return Ok(Judged::Sound(z));
    }
    if are_references(x.sort(), y.sort()) {
        let z = Found::binary(alloc, op.references, x, y)?;
        return Ok(Judged::Sound(z));
    }
    Ok(broken(13, at))
}

fn equality(
    alloc: Global,
    op: EqualityOps,
    at: usize,
    right: usize,
    x: Checked,
    y: Checked,
) -> Result<Checked, Memory>
    ensures { IfOk result (λ r. r ≡ operands.operated least_fault
        (operands.Equality op.numbers op.truths op.references) at right x y) }
{
    match paired(x, y) {
        Judged::Sound((x, y)) => {
            let left = x.sort();
            let x = beside(alloc, y.sort(), x)?;
            let y = beside(alloc, left, y)?;
            equated_pair(alloc, op, at, x, y)
        }
        Judged::Unknown(f) => Ok(Judged::Unknown(f)),
    }
}

fn both(alloc: Global, at: usize, right: usize, x: Checked, y: Checked) -> Result<Checked, Memory>
    ensures { IfOk result (λ r. r ≡ operands.operated least_fault operands.Both at right x y) }
{
    let x = truth(alloc, at, x)?;
    let y = truth(alloc, right, y)?;
    match both_values(x, y) {
        Judged::Sound(pair) => {
            let (x, y) = pair;
            let z = Found::and(alloc, x, y)?;
            Ok(Judged::Sound(z))
        }
        Judged::Unknown(f) => Ok(Judged::Unknown(f)),
    }
}

fn either(alloc: Global, at: usize, right: usize, x: Checked, y: Checked) -> Result<Checked, Memory>
    ensures { IfOk result (λ r. r ≡ operands.operated least_fault operands.Either at right x y) }
{
    let x = truth(alloc, at, x)?;
    let y = truth(alloc, right, y)?;
    match both_values(x, y) {
        Judged::Sound(pair) => {
            let (x, y) = pair;
            let z = Found::or(alloc, x, y)?;
            Ok(Judged::Sound(z))
        }
        Judged::Unknown(f) => Ok(Judged::Unknown(f)),
    }
}

/// An operator between two operands; `at` is the place of the left one, and of the whole, and `right` that of the right
/// one.
pub fn operated(
    alloc: Global,
    op: BinaryOp,
    at: usize,
    right: usize,
    x: Checked,
    y: Checked,
) -> Result<Checked, Memory>
    ensures { IfOk result (λ r. r ≡ operands.operated least_fault (operands.form_of op) at right x y) }
{
    match op {
        BinaryOp::Or => either(alloc, at, right, x, y),
        BinaryOp::And => both(alloc, at, right, x, y),
        BinaryOp::Equal => equality(alloc, EQUAL, at, right, x, y),
        BinaryOp::NotEqual => equality(alloc, NOT_EQUAL, at, right, x, y),
        BinaryOp::Less => order(alloc, Comparison::Less, at, right, x, y),
        BinaryOp::LessOrEqual => order(alloc, Comparison::LessOrEqual, at, right, x, y),
        BinaryOp::Greater => order(alloc, Comparison::Greater, at, right, x, y),
        BinaryOp::GreaterOrEqual => order(alloc, Comparison::GreaterOrEqual, at, right, x, y),
        BinaryOp::BitOr => numbers(alloc, Arithmetic::BitOr, at, right, x, y),
        BinaryOp::BitXor => numbers(alloc, Arithmetic::BitXor, at, right, x, y),
        BinaryOp::BitAnd => numbers(alloc, Arithmetic::BitAnd, at, right, x, y),
        BinaryOp::ShiftLeft => shift(alloc, Arithmetic::ShiftLeft, at, right, x, y),
        BinaryOp::ShiftRight => shift(alloc, Arithmetic::ShiftRight, at, right, x, y),
        BinaryOp::Add => numbers(alloc, Arithmetic::Add, at, right, x, y),
        BinaryOp::Subtract => numbers(alloc, Arithmetic::Subtract, at, right, x, y),
        BinaryOp::Multiply => numbers(alloc, Arithmetic::Multiply, at, right, x, y),
        BinaryOp::Divide => numbers(alloc, Arithmetic::Divide, at, right, x, y),
        BinaryOp::Remainder => numbers(alloc, Arithmetic::Remainder, at, right, x, y),
    }
}

// ---- an index

fn has_elements(sort: Sort) -> bool
    ensures { result ≡ forms.has_elements sort }
{
    matches!(sort, Sort::Array(_) | Sort::Bytes)
}

fn wants_elements(at: usize, x: Checked) -> Checked
    ensures is { result ≡ wants least_fault forms.has_elements at x }
    ensures elements { IfSound result (λ t. forms.has_elements (sort_of t) ≡ true) }
{
    match x {
        Judged::Sound(x) => {
            if has_elements(x.sort()) {
                Judged::Sound(x)
            } else {
                broken(13, at)
            }
        }
        Judged::Unknown(f) => Judged::Unknown(f),
    }
}

fn array_and_index(x: Checked, y: Checked) -> Judged<(Found, Found), Option<Fault>>
    requires left { IfSound x (λ t. forms.has_elements (sort_of t) ≡ true) }
    requires right { IfSound y (λ t. is_value t ≡ true) }
    ensures pair { result ≡ faults.paired least_fault x y }
    ensures parts { IfSound result (λ p. (forms.has_elements (sort_of p.0) ≡ true) × (is_value p.1 ≡ true)) }
{
    paired(x, y)
}

/// An element, with the place of what is indexed and that of the index.
pub fn element(
    alloc: Global,
    at: usize,
    right: usize,
    x: Checked,
    y: Checked,
) -> Result<Checked, Memory>
    ensures { IfOk result (λ r. r ≡ operands.element least_fault at right x y) }
{
    match array_and_index(wants_elements(at, x), wants_int(right, y)) {
        Judged::Sound(pair) => {
            let (x, y) = pair;
            let z = Found::indexed(alloc, x, y)?;
            Ok(Judged::Sound(z))
        }
        Judged::Unknown(f) => Ok(Judged::Unknown(f)),
    }
}
