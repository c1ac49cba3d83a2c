//! Instructions by their numbers.
ghost use Rattle.std.specs.Prelude.{◌≡◌, ◌||◌, ◌==◌, IsTrue, Some};
ghost use Rattle.sed_value.specs.Characters.{is_between};
ghost use Rattle.scode_ops.specs.Codes as codes;
ghost use Rattle.scode_ops.specs.Forms as forms;
ghost use Rattle.scode_ops.specs.declared.operands.Operands.TheVariants as kinds;

use crate::op::Op;
use crate::operands::Operands;

// The instruction of this number with these operands, which are of its form.
pub(crate) fn instruction(number: u8, operands: Operands) -> Op
    requires { forms.form_of number ≡ Some (forms.kind_of operands) }
    ensures number { codes.number_of result ≡ number }
    ensures operands { codes.operands_of result ≡ operands }
{
    match operands {
        Operands::Empty => plain(number),
        Operands::U1(first) => with_u1(number, first),
        Operands::U2(first) => with_u2(number, first),
        Operands::U2U1(class, place) => Op::VirtualCall { class, place },
        Operands::U2U2(first, second) => with_two_u2(number, first, second),
        Operands::I4(value) => Op::Int(value),
        Operands::I8(value) => Op::Long(value),
    }
}

fn plain(number: u8) -> Op
    requires { IsTrue (forms.is_empty number) }
    ensures number { codes.number_of result ≡ number }
    ensures operands { codes.operands_of result ≡ kinds.Empty }
{
    match number {
        0x10..=0x1b => of_ints(number),
        0x20..=0x2b => of_longs(number),
        0x30..=0x3f => comparison(number),
        0x40..=0x44 => conversion(number),
        _ => other(number),
    }
}

fn of_ints(number: u8) -> Op
    requires { IsTrue (is_between 0x10 0x1b number) }
    ensures number { codes.number_of result ≡ number }
    ensures operands { codes.operands_of result ≡ kinds.Empty }
{
    match number {
        0x10 => Op::IntAdd,
        0x11 => Op::IntSub,
        0x12 => Op::IntMul,
        0x13 => Op::IntDiv,
        0x14 => Op::IntRem,
        0x15 => Op::IntAnd,
        0x16 => Op::IntOr,
        0x17 => Op::IntXor,
        0x18 => Op::IntShl,
        0x19 => Op::IntShr,
        0x1a => Op::IntNeg,
        _ => Op::IntNot,
    }
}

fn of_longs(number: u8) -> Op
    requires { IsTrue (is_between 0x20 0x2b number) }
    ensures number { codes.number_of result ≡ number }
    ensures operands { codes.operands_of result ≡ kinds.Empty }
{
    match number {
        0x20 => Op::LongAdd,
        0x21 => Op::LongSub,
        0x22 => Op::LongMul,
        0x23 => Op::LongDiv,
        0x24 => Op::LongRem,
        0x25 => Op::LongAnd,
        0x26 => Op::LongOr,
        0x27 => Op::LongXor,
        0x28 => Op::LongShl,
        0x29 => Op::LongShr,
        0x2a => Op::LongNeg,
        _ => Op::LongNot,
    }
}

fn comparison(number: u8) -> Op
    requires { IsTrue (is_between 0x30 0x3f number) }
    ensures number { codes.number_of result ≡ number }
    ensures operands { codes.operands_of result ≡ kinds.Empty }
{
    match number {
        0x30 => Op::IntEq,
        0x31 => Op::IntNe,
        0x32 => Op::IntLt,
        0x33 => Op::IntLe,
        0x34 => Op::IntGt,
        0x35 => Op::IntGe,
        0x36 => Op::LongEq,
        0x37 => Op::LongNe,
        0x38 => Op::LongLt,
        0x39 => Op::LongLe,
        0x3a => Op::LongGt,
        0x3b => Op::LongGe,
        0x3c => Op::BoolEq,
        0x3d => Op::BoolNe,
        0x3e => Op::RefEq,
        _ => Op::RefNe,
    }
}

fn conversion(number: u8) -> Op
    requires { IsTrue (is_between 0x40 0x44 number) }
    ensures number { codes.number_of result ≡ number }
    ensures operands { codes.operands_of result ≡ kinds.Empty }
{
    match number {
        0x40 => Op::IntToLong,
        0x41 => Op::LongToInt,
        0x42 => Op::Not,
        0x43 => Op::IntToByte,
        _ => Op::IntToShort,
    }
}

fn other(number: u8) -> Op
    requires { IsTrue ((number == 0x04) || (number == 0x06) || is_between 0x09 0x0a number || (number == 0x4b)
        || is_between 0x72 0x79 number) }
    ensures number { codes.number_of result ≡ number }
    ensures operands { codes.operands_of result ≡ kinds.Empty }
{
    match number {
        0x04 => Op::Null,
        0x06 => Op::Statics,
        0x09 => Op::Dup,
        0x0a => Op::Pop,
        0x4b => Op::Turn,
        0x72 => Op::Return,
        0x73 => Op::ReturnValue,
        0x74 => Op::Ticks,
        0x75 => Op::StrLen,
        0x76 => Op::StrGet,
        0x77 => Op::StrSet,
        0x78 => Op::StrEq,
        _ => Op::StrCopy,
    }
}

fn with_u1(number: u8, first: u8) -> Op
    requires { IsTrue (forms.is_u1 number) }
    ensures number { codes.number_of result ≡ number }
    ensures operands { codes.operands_of result ≡ kinds.U1 first }
{
    match number {
        0x03 => Op::Bool(first),
        0x07 => Op::Load(first),
        _ => Op::Store(first),
    }
}

fn with_u2(number: u8, first: u16) -> Op
    requires { IsTrue (forms.is_u2 number) }
    ensures number { codes.number_of result ≡ number }
    ensures operands { codes.operands_of result ≡ kinds.U2 first }
{
    match number {
        0x05 => Op::Text(first),
        0x48 => Op::Jump(first),
        0x49 => Op::JumpFalse(first),
        0x4a => Op::JumpTrue(first),
        0x50 => Op::GetBool(first),
        0x51 => Op::GetByte(first),
        0x52 => Op::GetShort(first),
        0x53 => Op::GetInt(first),
        0x54 => Op::GetLong(first),
        0x55 => Op::PutBool(first),
        0x56 => Op::PutByte(first),
        0x57 => Op::PutShort(first),
        0x58 => Op::PutInt(first),
        0x59 => Op::PutLong(first),
        0x5c => Op::BufSize(first),
        _ => Op::Call(first),
    }
}

fn with_two_u2(number: u8, first: u16, second: u16) -> Op
    requires { IsTrue (forms.is_u2u2 number) }
    ensures number { codes.number_of result ≡ number }
    ensures operands { codes.operands_of result ≡ kinds.U2U2 first second }
{
    match number {
        0x5a => Op::Inner {
            offset: first,
            class: second,
        },
        0x5b => Op::Str {
            offset: first,
            size: second,
        },
        0x5d => Op::BufGet {
            offset: first,
            capacity: second,
        },
        0x60 => Op::ArrayGetBool {
            offset: first,
            count: second,
        },
        0x61 => Op::ArrayGetByte {
            offset: first,
            count: second,
        },
        0x62 => Op::ArrayGetShort {
            offset: first,
            count: second,
        },
        0x63 => Op::ArrayGetInt {
            offset: first,
            count: second,
        },
        0x64 => Op::ArrayGetLong {
            offset: first,
            count: second,
        },
        0x65 => Op::ArrayPutBool {
            offset: first,
            count: second,
        },
        0x66 => Op::ArrayPutByte {
            offset: first,
            count: second,
        },
        0x67 => Op::ArrayPutShort {
            offset: first,
            count: second,
        },
        0x68 => Op::ArrayPutInt {
            offset: first,
            count: second,
        },
        _ => Op::ArrayPutLong {
            offset: first,
            count: second,
        },
    }
}
