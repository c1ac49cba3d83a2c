//! Which values go to which places, and what two operands have in common.
ghost use Rattle.std.specs.Prelude.{◌≡◌, IfOk, IfSome, true};
ghost use Rattle.sed_terms.specs.Sorts as sorts;
ghost use Rattle.sed_terms.specs.Sorts.{is_value, sort_of};
ghost use Rattle.sed_body_rules.specs.Conversions as conversions;

use sed_faults::Fault;
use sed_names::Lookup;
use sed_terms::{Found, Judged, Sort};
use sed_typed::{Kind, TypeNo, Unary, Width};
use sed_value::Memory;
use std::alloc::Global;

/// What an expression comes to, with the least fault inside where it is unknown.
pub type Checked = Judged<Found, Option<Fault>>;

// ---- what a sort is

/// Whether it is an int or a long.
pub fn is_number(sort: Sort) -> bool
    ensures { result ≡ conversions.is_number sort }
{
    matches!(sort, Sort::Of(Kind::Int | Kind::Long))
}

/// Whether it is an int.
pub fn is_int(sort: Sort) -> bool
    ensures { result ≡ conversions.is_int sort }
{
    matches!(sort, Sort::Of(Kind::Int))
}

/// Whether it is a long.
pub fn is_long(sort: Sort) -> bool
    ensures { result ≡ conversions.is_long sort }
{
    matches!(sort, Sort::Of(Kind::Long))
}

/// Whether it is a bool that has a kind, so no `null`.
pub fn is_bool(sort: Sort) -> bool
    ensures { result ≡ conversions.is_bool sort }
{
    matches!(sort, Sort::Of(Kind::Bool))
}

/// Whether it is an object or a Str.
pub fn is_reference(sort: Sort) -> bool
    ensures { result ≡ conversions.is_reference sort }
{
    matches!(sort, Sort::Of(Kind::Text | Kind::Object(_)))
}

/// Whether it is a value or `null`: no array, and nothing of a Buf.
pub fn is_operand(sort: Sort) -> bool
    ensures { result ≡ conversions.is_operand sort }
{
    matches!(sort, Sort::Of(_) | Sort::Nothing)
}

/// Whether it is a value of a kind.
pub fn has_kind(sort: Sort) -> bool
    ensures { result ≡ sorts.is_kind sort }
{
    matches!(sort, Sort::Of(_))
}

/// Whether two kinds are one.
pub fn same_kind(a: Kind, b: Kind) -> bool
    ensures { result ≡ conversions.same_kind a b }
{
    match (a, b) {
        (Kind::Void, Kind::Void) | (Kind::Bool, Kind::Bool) | (Kind::Int, Kind::Int) => true,
        (Kind::Long, Kind::Long) | (Kind::Text, Kind::Text) => true,
        (Kind::Object(a), Kind::Object(b)) => a.0 == b.0,
        _ => false,
    }
}

// ---- widths

/// The width of a number.
pub fn width_of(x: &Found) -> Width
    ensures { result ≡ conversions.width_of x.now }
{
    if is_long(x.sort()) {
        Width::Long
    } else {
        Width::Int
    }
}

/// The width in which two numbers meet.
pub fn meeting(x: &Found, y: &Found) -> Width
    ensures { result ≡ conversions.meeting x.now y.now }
{
    if is_long(x.sort()) || is_long(y.sort()) {
        Width::Long
    } else {
        Width::Int
    }
}

/// A number in a width.
pub fn in_width(alloc: Global, width: Width, x: Found) -> Result<Found, Memory>
    requires { is_value x ≡ true }
    ensures is { IfOk result (λ r. r ≡ conversions.in_width width x) }
    ensures value { IfOk result (λ r. is_value r ≡ true) }
{
    match (x.kind(), width) {
        (Kind::Int, Width::Long) => Found::unary(alloc, Unary::ToLong, x),
        _ => Ok(x),
    }
}

// ---- `null`

/// `null` in a place of a kind, if it goes there.
pub fn null_in(alloc: Global, kind: Kind) -> Result<Option<Found>, Memory>
    ensures is { IfOk result (λ r. r ≡ conversions.null_in kind) }
    ensures value { IfOk result (λ r. IfSome r (λ v. is_value v ≡ true)) }
{
    match kind {
        Kind::Bool => {
            let x = Found::truth(alloc, 2)?;
            Ok(Some(x))
        }
        Kind::Text | Kind::Object(_) => {
            let x = Found::null(alloc, kind)?;
            Ok(Some(x))
        }
        Kind::Void | Kind::Int | Kind::Long => Ok(None),
    }
}

/// An operand beside one that comes to this.
pub fn beside(alloc: Global, other: Sort, x: Found) -> Result<Found, Memory>
    ensures { IfOk result (λ r. r ≡ conversions.beside other (sort_of x) x) }
{
    match (other, x.sort()) {
        (Sort::Of(kind), Sort::Nothing) => match null_in(alloc, kind)? {
            Some(null) => Ok(null),
            None => Ok(x),
        },
        (Sort::Nothing, Sort::Nothing) => Found::null(alloc, Kind::Object(TypeNo(0))),
        _ => Ok(x),
    }
}

// ---- places

// A value of a kind in a place of another.
fn converted<N: Lookup>(
    alloc: Global,
    names: &N,
    to: Kind,
    from: Kind,
    x: Found,
) -> Result<Option<Found>, Memory>
    requires { is_value x ≡ true }
    ensures is { IfOk result (λ r. r ≡ conversions.converted (N.names names.now).below to from x) }
    ensures value { IfOk result (λ r. IfSome r (λ v. is_value v ≡ true)) }
{
    match (to, from) {
        (Kind::Long, Kind::Int) => {
            let x = Found::unary(alloc, Unary::ToLong, x)?;
            Ok(Some(x))
        }
        (Kind::Object(above), Kind::Object(class)) => {
            if names.is_below(above, class) {
                Ok(Some(x))
            } else {
                Ok(None)
            }
        }
        (to, from) => {
            if same_kind(to, from) {
                Ok(Some(x))
            } else {
                Ok(None)
            }
        }
    }
}

/// What stands in a place of a kind, if the expression goes there.
pub fn placed<N: Lookup>(
    alloc: Global,
    names: &N,
    to: Kind,
    x: Found,
) -> Result<Option<Found>, Memory>
    ensures is { IfOk result (λ r. r ≡ conversions.placed (N.names names.now).below to x) }
    ensures value { IfOk result (λ r. IfSome r (λ v. is_value v ≡ true)) }
{
    match x.sort() {
        Sort::Of(from) => converted(alloc, names, to, from, x),
        Sort::Nothing => null_in(alloc, to),
        Sort::Array(_) => Ok(None),
        Sort::Buf => Ok(None),
        Sort::Bytes => Ok(None),
    }
}
