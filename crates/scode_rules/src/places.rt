//! Places of code: which instruction stands at one, and where it leads.
ghost use Rattle.std.specs.Prelude.{◌≡◌, ◌<◌, ◌+◌, IfSome, length, option_map, OnSome};
ghost use Rattle.scode_code.specs.CodeRules as rules;
ghost use Rattle.scode_ops.specs.Decoding as decoding;

use scode_image::ImageMethod;
use scode_ops::{Op, decode, instructions_are_found};

/// Whether nothing goes on behind an instruction.
pub fn is_end(op: Op) -> bool
    ensures { result ≡ rules.is_end op }
{
    match op {
        Op::Jump(_) | Op::Return | Op::ReturnValue => true,
        _ => false,
    }
}

/// Where an instruction may jump to.
pub fn jumps_to(op: Op) -> Option<u16>
    ensures { result ≡ rules.jumps_to op }
{
    match op {
        Op::Jump(to) | Op::JumpFalse(to) | Op::JumpTrue(to) => Some(to),
        _ => None,
    }
}

/// The instruction at a place, and the place behind it.
pub fn op_at(code: &[u8], place: usize) -> Option<(Op, usize)>
    ensures found { option_map (λ r. r.0) result ≡ decoding.op_at code.now place }
    ensures behind { IfSome result (λ r. r.1 ≡ place + decoding.size_of r.0) }
    ensures within { OnSome result (place < length code.now) }
{
    instructions_are_found();
    decode(code, place)
}

/// Whether an instruction goes on where the code ends.
pub fn runs_past(method: &ImageMethod, place: usize, behind: usize, op: Op) -> bool
    requires { behind ≡ place + decoding.size_of op }
    ensures { result ≡ rules.runs_past method.now place op }
{
    behind >= method.code.len() && !is_end(op)
}

fn is_turn(op: Option<(Op, usize)>) -> bool
    ensures { result ≡ rules.is_turn (option_map (λ r. r.0) op) }
{
    match op {
        Some((Op::Turn, _)) => true,
        _ => false,
    }
}

/// Whether an instruction jumps to its own place or back, to another instruction than `turn`.
pub fn goes_back(method: &ImageMethod, place: usize, op: Op) -> bool
    ensures { result ≡ rules.goes_back method.now place op }
{
    match jumps_to(op) {
        Some(to) => {
            usize::from(to) <= place && !is_turn(op_at(method.code.as_slice(), usize::from(to)))
        }
        None => false,
    }
}
