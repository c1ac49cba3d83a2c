//! Which instructions stand for an operator and a field, and how many bytes they have.
ghost use Rattle.std.specs.Prelude.{◌≡◌};
ghost use Rattle.scode_emit.specs.Instructions as meant;
ghost use Rattle.scode_emit.specs.Rows.{seen};
ghost use Rattle.sed_typed.specs.declared.operators.Width.TheVariants.{Int, Long};

use crate::site::{Site, class_of};
use scode_ops::Op;
use sed_typed::{Arithmetic, Binary, Comparison, Kind, TextCall, Unary, Width};
use sed_value::Prim;

pub(crate) fn arithmetic_op(op: Arithmetic, width: Width) -> Op
    ensures { result ≡ meant.arithmetic_op op width }
{
    match width {
        Width::Int => int_op(op),
        Width::Long => long_op(op),
    }
}

fn int_op(op: Arithmetic) -> Op
    ensures { result ≡ meant.arithmetic_op op Int }
{
    match op {
        Arithmetic::Add => Op::IntAdd,
        Arithmetic::Subtract => Op::IntSub,
        Arithmetic::Multiply => Op::IntMul,
        Arithmetic::Divide => Op::IntDiv,
        Arithmetic::Remainder => Op::IntRem,
        Arithmetic::BitAnd => Op::IntAnd,
        Arithmetic::BitOr => Op::IntOr,
        Arithmetic::BitXor => Op::IntXor,
        Arithmetic::ShiftLeft => Op::IntShl,
        Arithmetic::ShiftRight => Op::IntShr,
    }
}

fn long_op(op: Arithmetic) -> Op
    ensures { result ≡ meant.arithmetic_op op Long }
{
    match op {
        Arithmetic::Add => Op::LongAdd,
        Arithmetic::Subtract => Op::LongSub,
        Arithmetic::Multiply => Op::LongMul,
        Arithmetic::Divide => Op::LongDiv,
        Arithmetic::Remainder => Op::LongRem,
        Arithmetic::BitAnd => Op::LongAnd,
        Arithmetic::BitOr => Op::LongOr,
        Arithmetic::BitXor => Op::LongXor,
        Arithmetic::ShiftLeft => Op::LongShl,
        Arithmetic::ShiftRight => Op::LongShr,
    }
}

fn comparison_op(op: Comparison, width: Width) -> Op
    ensures { result ≡ meant.comparison_op op width }
{
    match width {
        Width::Int => int_comparison(op),
        Width::Long => long_comparison(op),
    }
}

fn int_comparison(op: Comparison) -> Op
    ensures { result ≡ meant.comparison_op op Int }
{
    match op {
        Comparison::Equal => Op::IntEq,
        Comparison::NotEqual => Op::IntNe,
        Comparison::Less => Op::IntLt,
        Comparison::LessOrEqual => Op::IntLe,
        Comparison::Greater => Op::IntGt,
        Comparison::GreaterOrEqual => Op::IntGe,
    }
}

fn long_comparison(op: Comparison) -> Op
    ensures { result ≡ meant.comparison_op op Long }
{
    match op {
        Comparison::Equal => Op::LongEq,
        Comparison::NotEqual => Op::LongNe,
        Comparison::Less => Op::LongLt,
        Comparison::LessOrEqual => Op::LongLe,
        Comparison::Greater => Op::LongGt,
        Comparison::GreaterOrEqual => Op::LongGe,
    }
}

pub(crate) fn binary_op(op: Binary) -> Op
    ensures { result ≡ meant.binary_op op }
{
    match op {
        Binary::Arithmetic(op, width) => arithmetic_op(op, width),
        Binary::Compare(op, width) => comparison_op(op, width),
        Binary::SameTruth => Op::BoolEq,
        Binary::OtherTruth => Op::BoolNe,
        Binary::SameReference => Op::RefEq,
        Binary::OtherReference => Op::RefNe,
    }
}

pub(crate) fn unary_size(op: Unary) -> usize
    ensures { result ≡ meant.unary_size op }
{
    match op {
        Unary::LowByte(Width::Long) | Unary::LowShort(Width::Long) => 2,
        _ => 1,
    }
}

pub(crate) fn text_op(call: TextCall) -> Op
    ensures { result ≡ meant.text_op call }
{
    match call {
        TextCall::Length => Op::StrLen,
        TextCall::Get => Op::StrGet,
        TextCall::Set => Op::StrSet,
        TextCall::Equals => Op::StrEq,
        TextCall::Copy => Op::StrCopy,
    }
}

pub(crate) fn zero_op(kind: Kind) -> Op
    ensures { result ≡ meant.zero_op kind }
{
    match kind {
        Kind::Bool => Op::Bool(0),
        Kind::Int => Op::Int(0),
        Kind::Long => Op::Long(0),
        _ => Op::Null,
    }
}

pub(crate) fn zero_size(kind: Kind) -> usize
    ensures { result ≡ meant.zero_size kind }
{
    match kind {
        Kind::Bool => 2,
        Kind::Int => 5,
        Kind::Long => 9,
        _ => 1,
    }
}

/// How many bytes it takes to take a value of a kind off the stack; of void there is none.
pub fn pop_size(kind: Kind) -> usize
    ensures { result ≡ meant.pop_size kind }
{
    match kind {
        Kind::Void => 0,
        _ => 1,
    }
}

pub(crate) fn get_op(prim: Prim, offset: u16) -> Op
    ensures { result ≡ meant.get_op prim offset }
{
    match prim {
        Prim::Bool => Op::GetBool(offset),
        Prim::Byte => Op::GetByte(offset),
        Prim::Short => Op::GetShort(offset),
        Prim::Int => Op::GetInt(offset),
        Prim::Long => Op::GetLong(offset),
    }
}

pub(crate) fn put_op(prim: Prim, offset: u16) -> Op
    ensures { result ≡ meant.put_op prim offset }
{
    match prim {
        Prim::Bool => Op::PutBool(offset),
        Prim::Byte => Op::PutByte(offset),
        Prim::Short => Op::PutShort(offset),
        Prim::Int => Op::PutInt(offset),
        Prim::Long => Op::PutLong(offset),
    }
}

pub(crate) fn get_element_op(prim: Prim, offset: u16, count: u16) -> Op
    ensures { result ≡ meant.get_element_op prim offset count }
{
    match prim {
        Prim::Bool => Op::ArrayGetBool { offset, count },
        Prim::Byte => Op::ArrayGetByte { offset, count },
        Prim::Short => Op::ArrayGetShort { offset, count },
        Prim::Int => Op::ArrayGetInt { offset, count },
        Prim::Long => Op::ArrayGetLong { offset, count },
    }
}

pub(crate) fn put_element_op(prim: Prim, offset: u16, count: u16) -> Op
    ensures { result ≡ meant.put_element_op prim offset count }
{
    match prim {
        Prim::Bool => Op::ArrayPutBool { offset, count },
        Prim::Byte => Op::ArrayPutByte { offset, count },
        Prim::Short => Op::ArrayPutShort { offset, count },
        Prim::Int => Op::ArrayPutInt { offset, count },
        Prim::Long => Op::ArrayPutLong { offset, count },
    }
}

pub(crate) fn part_op(kind: Kind, offset: u16, size: u16) -> Op
    ensures { result ≡ meant.part_op kind offset size }
{
    match kind {
        Kind::Text => Op::Str { offset, size },
        _ => Op::Inner {
            offset,
            class: class_of(kind),
        },
    }
}

pub(crate) fn narrow_size(prim: Prim) -> usize
    ensures { result ≡ meant.narrow_size prim }
{
    match prim {
        Prim::Byte | Prim::Short => 1,
        _ => 0,
    }
}

pub(crate) fn invoke_op(site: &Site<'_>, kind: Kind, method: u16) -> Op
    ensures { result ≡ meant.invoke_op (seen site.now) kind method }
{
    if site.is_virtual(method) {
        Op::VirtualCall {
            class: class_of(kind),
            place: site.table_place(kind, method),
        }
    } else {
        Op::Call(method)
    }
}

pub(crate) fn invoke_size(site: &Site<'_>, method: u16) -> usize
    ensures { result ≡ meant.invoke_size (seen site.now) method }
{
    if site.is_virtual(method) { 4 } else { 3 }
}
