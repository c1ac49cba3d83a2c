//! Operands of instructions.
ghost use Rattle.std.specs.Prelude.{◌≡◌, ◌∷◌, length};
ghost use Rattle.scode_ops.specs.Codes as codes;
ghost use Rattle.scode_ops.specs.Forms as forms;
ghost use Rattle.scode_ops.specs.Reading as reading;

use crate::op::Op;
use sed_value::InPlace;

/// How many bytes an instruction has at most.
pub const LONGEST_CODE: usize = 9;

/// The operands of an instruction, by the widths in which its bytes have them.
#[derive(Clone, Copy)]
pub(crate) enum Operands {
    Empty,
    U1(u8),
    U2(u16),
    U2U1(u16, u8),
    U2U2(u16, u16),
    I4(i32),
    I8(i64),
}

/// Their widths alone.
#[derive(Clone, Copy)]
pub(crate) enum Form {
    Empty,
    U1,
    U2,
    U2U1,
    U2U2,
    I4,
    I8,
}

// The operands of an instruction.
pub(crate) fn operands_of(op: Op) -> Operands
    ensures { result ≡ codes.operands_of op }
{
    match op {
        Op::Bool(number) | Op::Load(number) | Op::Store(number) => Operands::U1(number),
        Op::Text(number)
        | Op::Jump(number)
        | Op::JumpFalse(number)
        | Op::JumpTrue(number)
        | Op::GetBool(number)
        | Op::GetByte(number)
        | Op::GetShort(number)
        | Op::GetInt(number)
        | Op::GetLong(number)
        | Op::PutBool(number)
        | Op::PutByte(number)
        | Op::PutShort(number)
        | Op::PutInt(number)
        | Op::PutLong(number)
        | Op::BufSize(number)
        | Op::Call(number) => Operands::U2(number),
        Op::VirtualCall {
            class: first,
            place: second,
        } => Operands::U2U1(first, second),
        Op::Inner {
            offset: first,
            class: second,
        }
        | Op::Str {
            offset: first,
            size: second,
        }
        | Op::BufGet {
            offset: first,
            capacity: second,
        }
        | Op::ArrayGetBool {
            offset: first,
            count: second,
        }
        | Op::ArrayGetByte {
            offset: first,
            count: second,
        }
        | Op::ArrayGetShort {
            offset: first,
            count: second,
        }
        | Op::ArrayGetInt {
            offset: first,
            count: second,
        }
        | Op::ArrayGetLong {
            offset: first,
            count: second,
        }
        | Op::ArrayPutBool {
            offset: first,
            count: second,
        }
        | Op::ArrayPutByte {
            offset: first,
            count: second,
        }
        | Op::ArrayPutShort {
            offset: first,
            count: second,
        }
        | Op::ArrayPutInt {
            offset: first,
            count: second,
        }
        | Op::ArrayPutLong {
            offset: first,
            count: second,
        } => Operands::U2U2(first, second),
        Op::Int(number) => Operands::I4(number),
        Op::Long(number) => Operands::I8(number),
        _ => Operands::Empty,
    }
}

// Which operands the instruction of a number has, if there is one.
pub(crate) fn form_of(number: u8) -> Option<Form>
    ensures { result ≡ forms.form_of number }
{
    match number {
        0x04 | 0x06 | 0x09..=0x0a | 0x10..=0x1b | 0x20..=0x2b | 0x30..=0x44 | 0x4b | 0x72..=0x79 =>
            Some(Form::Empty),
        0x03 | 0x07..=0x08 => Some(Form::U1),
        0x05 | 0x48..=0x4a | 0x50..=0x59 | 0x5c | 0x70 => Some(Form::U2),
        0x71 => Some(Form::U2U1),
        0x5a..=0x5b | 0x5d | 0x60..=0x69 => Some(Form::U2U2),
        0x01 => Some(Form::I4),
        0x02 => Some(Form::I8),
        _ => None,
    }
}

// How many bytes operands have.
pub(crate) fn width(form: Form) -> usize
    ensures { result ≡ forms.width_of form }
{
    match form {
        Form::Empty => 0,
        Form::U1 => 1,
        Form::U2 => 2,
        Form::U2U1 => 3,
        Form::U2U2 | Form::I4 => 4,
        Form::I8 => 8,
    }
}

// A number and the bytes of operands behind it.
pub(crate) fn code(number: u8, operands: Operands) -> InPlace<LONGEST_CODE>
    ensures { result ≡ number ∷ codes.bytes_of operands }
{
    match operands {
        Operands::Empty => InPlace::new(&[number]),
        Operands::U1(first) => InPlace::new(&[number, first]),
        Operands::U2(first) => {
            let [a, b] = first.to_be_bytes();
            InPlace::new(&[number, a, b])
        }
        Operands::U2U1(first, second) => {
            let [a, b] = first.to_be_bytes();
            InPlace::new(&[number, a, b, second])
        }
        Operands::U2U2(first, second) => {
            let [a, b] = first.to_be_bytes();
            let [c, d] = second.to_be_bytes();
            InPlace::new(&[number, a, b, c, d])
        }
        Operands::I4(first) => {
            let [a, b, c, d] = first.to_be_bytes();
            InPlace::new(&[number, a, b, c, d])
        }
        Operands::I8(first) => {
            let [a, b, c, d, e, f, g, h] = first.to_be_bytes();
            InPlace::new(&[number, a, b, c, d, e, f, g, h])
        }
    }
}

// The operands of a form with which the bytes begin, if there are enough.
pub(crate) fn read(form: Form, bytes: &[u8]) -> Option<Operands>
    ensures { result ≡ reading.read form bytes.now }
{
    if bytes.len() < width(form) {
        return None;
    }
    Some(match form {
        Form::Empty => Operands::Empty,
        Form::U1 => Operands::U1(bytes[0]),
        Form::U2 => Operands::U2(u2(bytes[0], bytes[1])),
        Form::U2U1 => Operands::U2U1(u2(bytes[0], bytes[1]), bytes[2]),
        Form::U2U2 => Operands::U2U2(u2(bytes[0], bytes[1]), u2(bytes[2], bytes[3])),
        Form::I4 => Operands::I4(i32::from_be_bytes([bytes[0], bytes[1], bytes[2], bytes[3]])),
        Form::I8 => Operands::I8(i64::from_be_bytes([
            bytes[0], bytes[1], bytes[2], bytes[3], bytes[4], bytes[5], bytes[6], bytes[7],
        ])),
    })
}

fn u2(high: u8, low: u8) -> u16
    ensures { result ≡ reading.short high low }
{
    u16::from_be_bytes([high, low])
}
