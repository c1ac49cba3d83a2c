//! The rules on stores.
ghost use Rattle.std.specs.Prelude.{◌≡◌, ◌&&◌, IfOk, true};
ghost use Rattle.sed_typed.specs.declared.operators.Gives.TheVariants as gives;
ghost use Rattle.sed_terms.specs.Faults as faults;
ghost use Rattle.sed_terms.specs.Faults.{IfSound, least_fault};
ghost use Rattle.sed_terms.specs.Forms as forms;
ghost use Rattle.sed_terms.specs.Ones as ones;
ghost use Rattle.sed_terms.specs.Sorts as sorts;
ghost use Rattle.sed_terms.specs.Sorts.{is_value};
ghost use Rattle.sed_body_rules.specs.Conversions as conversions;
ghost use Rattle.sed_body_rules.specs.Stores as stores;

use crate::{Checked, in_width, is_long, is_number, placed, wants_int, wants_number, width_of};
use sed_faults::{Fault, joined};
use sed_names::Lookup;
use sed_terms::{Found, Judged, broken, paired};
use sed_typed::{Arithmetic, Gives, Kind, Update, Width};
use sed_units::AssignOp;
use sed_value::Memory;
use std::alloc::Global;

// ---- `=`

// Whether it is a place, where its source may name one.
fn names_place(may: bool, x: &Found) -> bool
    ensures is { result ≡ may && sorts.is_place x.now }
    ensures place { result ≡ true → sorts.is_place x.now ≡ true }
{
    may && x.is_place()
}

fn target(at: usize, may: bool, x: Checked) -> Checked
    ensures is { result ≡ stores.target least_fault at may x }
    ensures place { IfSound result (λ t. sorts.is_place t ≡ true) }
{
    match x {
        Judged::Sound(x) => {
            if names_place(may, &x) {
                Judged::Sound(x)
            } else {
                broken(14, at)
            }
        }
        Judged::Unknown(f) => Judged::Unknown(f),
    }
}

fn target_and_value(x: Checked, y: Checked) -> Judged<(Found, Found), Option<Fault>>
    requires { IfSound x (λ t. sorts.is_place t ≡ true) }
    ensures pair { result ≡ faults.paired least_fault x y }
    ensures place { IfSound result (λ p. sorts.is_place p.0 ≡ true) }
{
    paired(x, y)
}

/// A value that goes to a place of a kind.
pub fn going<N: Lookup>(
    alloc: Global,
    names: &N,
    to: Kind,
    at: usize,
    x: Found,
) -> Result<Checked, Memory>
    ensures is { IfOk result (λ r. r ≡ stores.going least_fault (N.names names.now).below to at x) }
    ensures value { IfOk result (λ r. IfSound r (λ v. is_value v ≡ true)) }
{
    match placed(alloc, names, to, x)? {
        Some(x) => Ok(Judged::Sound(x)),
        None => Ok(broken(15, at)),
    }
}

/// `=`, with the place of the whole and that of the value; `may` says whether the source may name a place.
pub fn assigned<N: Lookup>(
    alloc: Global,
    names: &N,
    at: usize,
    may: bool,
    right: usize,
    x: Checked,
    y: Checked,
) -> Result<Checked, Memory>
    ensures { IfOk result (λ r. r ≡ stores.assigned least_fault (N.names names.now).below at may right x y) }
{
    match target_and_value(target(at, may, x), y) {
        Judged::Sound(pair) => {
            let (x, y) = pair;
            match going(alloc, names, x.kind(), right, y)? {
                Judged::Sound(y) => {
                    let z = Found::set(alloc, x, y)?;
                    Ok(Judged::Sound(z))
                }
                Judged::Unknown(f) => Ok(Judged::Unknown(f)),
            }
        }
        Judged::Unknown(f) => Ok(Judged::Unknown(f)),
    }
}

// ---- `op=`, `++` and `--`

fn is_target(at: usize, left: usize, place: bool, number: bool) -> Judged<bool, Option<Fault>>
    ensures is { result ≡ stores.is_target least_fault at left place number }
    ensures place { IfSound result (λ _. place ≡ true) }
{
    match (place, number) {
        (true, true) => Judged::Sound(number),
        (true, false) => broken(13, left),
        (false, true) => broken(14, at),
        (false, false) => Judged::Unknown(joined(
            Some(Fault { at, rule: 14 }),
            Some(Fault { at: left, rule: 13 }),
        )),
    }
}

fn number_target(at: usize, may: bool, left: usize, x: Checked) -> Checked
    ensures is { result ≡ stores.number_target least_fault at may left x }
    ensures place { IfSound result (λ t. sorts.is_place t ≡ true) }
{
    match x {
        Judged::Sound(x) => {
            match is_target(at, left, names_place(may, &x), is_number(x.sort())) {
                Judged::Sound(_) => Judged::Sound(x),
                Judged::Unknown(f) => Judged::Unknown(f),
            }
        }
        Judged::Unknown(f) => Judged::Unknown(f),
    }
}

fn target_and_operand(x: Checked, y: Checked) -> Judged<(Found, Found), Option<Fault>>
    requires place { IfSound x (λ t. sorts.is_place t ≡ true) }
    requires value { IfSound y (λ t. is_value t ≡ true) }
    ensures pair { result ≡ faults.paired least_fault x y }
    ensures parts { IfSound result (λ p. (sorts.is_place p.0 ≡ true) × (is_value p.1 ≡ true)) }
{
    paired(x, y)
}

fn storing(arithmetic: Arithmetic, width: Width) -> Update
    ensures { result ≡ stores.storing arithmetic width }
{
    Update {
        arithmetic,
        width,
        gives: Gives::New,
    }
}

fn is_shift(op: Arithmetic) -> bool
    ensures { result ≡ stores.is_shift op }
{
    matches!(op, Arithmetic::ShiftLeft | Arithmetic::ShiftRight)
}

fn is_no_longer(x: &Found, y: &Found) -> bool
    ensures { result ≡ stores.is_no_longer x.now y.now }
{
    is_long(x.sort()) || !is_long(y.sort())
}

// What stores in a place, with its operand.
fn updated(alloc: Global, op: Arithmetic, x: Found, y: Found) -> Result<Found, Memory>
    requires place { sorts.is_place x ≡ true }
    requires value { is_value y ≡ true }
    ensures { IfOk result (λ r. r ≡ forms.updated (stores.storing op (conversions.width_of x)) x y) }
{
    let width = width_of(&x);
    Found::update(alloc, storing(op, width), x, y)
}

// The same, with the operand in the width of the place.
fn updated_in_width(alloc: Global, op: Arithmetic, x: Found, y: Found) -> Result<Found, Memory>
    requires place { sorts.is_place x ≡ true }
    requires value { is_value y ≡ true }
    ensures { IfOk result (λ r. r ≡ forms.updated (stores.storing op (conversions.width_of x))
        x (conversions.in_width (conversions.width_of x) y)) }
{
    let y = in_width(alloc, width_of(&x), y)?;
    updated(alloc, op, x, y)
}

// The stored operand of `op=`, where it is no shift.
fn lengthened(
    alloc: Global,
    op: Arithmetic,
    right: usize,
    x: Found,
    y: Found,
) -> Result<Checked, Memory>
    requires place { sorts.is_place x ≡ true }
    requires value { is_value y ≡ true }
    ensures { IfOk result (λ r. r ≡ stores.lengthened least_fault op right x y) }
{
    if is_no_longer(&x, &y) {
        let z = updated_in_width(alloc, op, x, y)?;
        Ok(Judged::Sound(z))
    } else {
        Ok(broken(15, right))
    }
}

// `op=` with a shift, of a place of a number and an int.
fn shifted(alloc: Global, op: Arithmetic, x: Checked, y: Checked) -> Result<Checked, Memory>
    requires place { IfSound x (λ t. sorts.is_place t ≡ true) }
    requires value { IfSound y (λ t. is_value t ≡ true) }
    ensures { IfOk result (λ r. r ≡ faults.joined least_fault x y
        (λ s t. Judged.Sound (forms.updated (stores.storing op (conversions.width_of s)) s t))) }
{
    match target_and_operand(x, y) {
        Judged::Sound(pair) => {
            let (x, y) = pair;
            let z = updated(alloc, op, x, y)?;
            Ok(Judged::Sound(z))
        }
        Judged::Unknown(f) => Ok(Judged::Unknown(f)),
    }
}

// `op=` with another operator, of a place of a number and a number.
fn computed(
    alloc: Global,
    op: Arithmetic,
    right: usize,
    x: Checked,
    y: Checked,
) -> Result<Checked, Memory>
    requires place { IfSound x (λ t. sorts.is_place t ≡ true) }
    requires value { IfSound y (λ t. is_value t ≡ true) }
    ensures { IfOk result (λ r. r ≡ faults.joined least_fault x y
        (λ s t. stores.lengthened least_fault op right s t)) }
{
    match target_and_operand(x, y) {
        Judged::Sound(pair) => {
            let (x, y) = pair;
            lengthened(alloc, op, right, x, y)
        }
        Judged::Unknown(f) => Ok(Judged::Unknown(f)),
    }
}

/// `op=`, with the place of the whole and that of the operand.
pub fn compound(
    alloc: Global,
    op: Arithmetic,
    at: usize,
    may: bool,
    right: usize,
    x: Checked,
    y: Checked,
) -> Result<Checked, Memory>
    ensures { IfOk result (λ r. r ≡ stores.compound least_fault op at may right x y) }
{
    let x = number_target(at, may, at, x);
    if is_shift(op) {
        shifted(alloc, op, x, wants_int(right, y))
    } else {
        computed(alloc, op, right, x, wants_number(right, y))
    }
}

/// The operator of `op=`; `=` has none.
pub fn arithmetic_of(op: AssignOp) -> Option<Arithmetic>
    ensures { result ≡ stores.arithmetic_of op }
{
    match op {
        AssignOp::Set => None,
        AssignOp::Add => Some(Arithmetic::Add),
        AssignOp::Subtract => Some(Arithmetic::Subtract),
        AssignOp::Multiply => Some(Arithmetic::Multiply),
        AssignOp::Divide => Some(Arithmetic::Divide),
        AssignOp::Remainder => Some(Arithmetic::Remainder),
        AssignOp::BitAnd => Some(Arithmetic::BitAnd),
        AssignOp::BitOr => Some(Arithmetic::BitOr),
        AssignOp::BitXor => Some(Arithmetic::BitXor),
        AssignOp::ShiftLeft => Some(Arithmetic::ShiftLeft),
        AssignOp::ShiftRight => Some(Arithmetic::ShiftRight),
    }
}

// The 1 of a width.
fn one_in(alloc: Global, width: Width) -> Result<Found, Memory>
    ensures is { IfOk result (λ r. r ≡ ones.one_in width) }
    ensures value { IfOk result (λ r. is_value r ≡ true) }
{
    match width {
        Width::Int => Found::int(alloc, 1),
        Width::Long => Found::long(alloc, 1),
    }
}

/// `++` and `--` in front, with the place of the whole and that of the operand.
pub fn counted_first(
    alloc: Global,
    op: Arithmetic,
    at: usize,
    may: bool,
    left: usize,
    x: Checked,
) -> Result<Checked, Memory>
    ensures { IfOk result (λ r. r ≡ stores.counted least_fault op gives.New at may left x) }
{
    match number_target(at, may, left, x) {
        Judged::Sound(x) => {
            let width = width_of(&x);
            let one = one_in(alloc, width)?;
            let z = Found::update(alloc, storing(op, width), x, one)?;
            Ok(Judged::Sound(z))
        }
        Judged::Unknown(f) => Ok(Judged::Unknown(f)),
    }
}

/// `++` and `--` behind their operand, which give the value before.
pub fn counted(
    alloc: Global,
    op: Arithmetic,
    at: usize,
    may: bool,
    left: usize,
    x: Checked,
) -> Result<Checked, Memory>
    ensures { IfOk result (λ r. r ≡ stores.counted least_fault op gives.Old at may left x) }
{
    match number_target(at, may, left, x) {
        Judged::Sound(x) => {
            let width = width_of(&x);
            let z = Found::counted(alloc, op, width, x)?;
            Ok(Judged::Sound(z))
        }
        Judged::Unknown(f) => Ok(Judged::Unknown(f)),
    }
}
