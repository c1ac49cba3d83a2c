// The kinds that operators and accesses give.
ghost use Rattle.std.specs.Prelude.{◌≡◌};
ghost use Rattle.sed_typed.specs.Kinds as kinds;
ghost use Rattle.sed_terms.specs.SortKind as sort_kinds;

use crate::sort::Sort;
use sed_typed::{Binary, Kind, TextCall, Unary, Width};
use sed_value::Prim;

fn width_kind(width: Width) -> Kind
    ensures { result ≡ kinds.width_kind width }
{
    match width {
        Width::Int => Kind::Int,
        Width::Long => Kind::Long,
    }
}

/// The kind of what a unary operator gives.
pub fn unary_kind(op: Unary) -> Kind
    ensures { result ≡ kinds.unary_kind op }
{
    match op {
        Unary::Not => Kind::Bool,
        Unary::Negate(width) | Unary::Flip(width) => width_kind(width),
        Unary::ToLong => Kind::Long,
        Unary::ToInt | Unary::LowByte(_) | Unary::LowShort(_) => Kind::Int,
    }
}

/// The kind of what a binary operator gives.
pub fn binary_kind(op: Binary) -> Kind
    ensures { result ≡ kinds.binary_kind op }
{
    match op {
        Binary::Arithmetic(_, width) => width_kind(width),
        _ => Kind::Bool,
    }
}

/// The kind that a primitive is read as: byte and short as int.
pub fn read_kind(prim: Prim) -> Kind
    ensures { result ≡ kinds.read_kind prim }
{
    match prim {
        Prim::Bool => Kind::Bool,
        Prim::Byte | Prim::Short | Prim::Int => Kind::Int,
        Prim::Long => Kind::Long,
    }
}

/// The kind of what a call on a Str gives.
pub fn text_kind(op: TextCall) -> Kind
    ensures { result ≡ kinds.text_kind op }
{
    match op {
        TextCall::Length | TextCall::Get => Kind::Int,
        TextCall::Set | TextCall::Copy => Kind::Void,
        TextCall::Equals => Kind::Bool,
    }
}

/// The kind of a value; void of what is none.
pub fn kind_in(sort: Sort) -> Kind
    ensures { result ≡ sort_kinds.kind_in sort }
{
    match sort {
        Sort::Of(kind) => kind,
        Sort::Nothing | Sort::Array(_) | Sort::Buf | Sort::Bytes => Kind::Void,
    }
}
