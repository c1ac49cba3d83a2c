//! Instructions as bytes.
ghost use Rattle.std.specs.Prelude.{◌≡◌, ◌+◌, ◌++◌, length, IsTrue, OnOk, OnErr, IfSome, IfNone};
ghost use Rattle.scode_ops.specs.Codes.{code_of, is_spelled, StandsAt};

use crate::instruction::instruction;
use crate::number::number;
use crate::op::Op;
use crate::operands::{code, form_of, operands_of, read, width};
use sed_value::Memory;

/// Puts the bytes of an instruction behind those that are there. Where memory is wanted they stay as they were.
pub fn encode(op: Op, into: &mut Vec<u8>) -> Result<(), Memory>
    requires { IsTrue (is_spelled op) }
    ensures ok { OnOk result (into.new.items ≡ into.old.items ++ code_of op) }
    ensures err { OnErr result (into.new.items ≡ into.old.items) }
{
    into.extend_from_slice(code(number(op), operands_of(op)).as_bytes())?;
    Ok(())
}

/// The instruction that stands at a place, and the place behind it: none exactly where no instruction stands there.
pub fn decode(bytes: &[u8], at: usize) -> Option<(Op, usize)>
    ensures found { IfSome result (λ r. StandsAt bytes.now at r.0 × (r.1 ≡ at + length (code_of r.0))) }
    ensures none { IfNone result ((op : Op) → StandsAt bytes.now at op → ⊥) }
{
    if at >= bytes.len() {
        return None;
    }
    let number = bytes[at];
    let Some(form) = form_of(number) else {
        return None;
    };
    let Some(operands) = read(form, &bytes[at + 1..]) else {
        return None;
    };
    let op = instruction(number, operands);
    if !is_allowed(op) {
        return None;
    }
    Some((op, at + 1 + width(form)))
}

// Whether it is no bool above 2.
fn is_allowed(op: Op) -> bool
    ensures { result ≡ is_spelled op }
{
    match op {
        Op::Bool(truth) => truth <= 2,
        _ => true,
    }
}
