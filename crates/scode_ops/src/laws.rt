//! Laws of the bytes of instructions.
ghost use Rattle.std.specs.Prelude.{◌≡◌, ◌<◌, ℕ, List, ◌++◌, slice_index, Some};
ghost use Rattle.scode_ops.specs.Codes.{code_of, IsOp, StandsAt};
ghost use Rattle.scode_ops.specs.Decoding.{op_at};

use crate::op::Op;

/// Each instruction has one spelling, and no instruction's bytes are a front of another's.
pub fn spellings_differ()
    ensures { (op other : Op) (rest : List ℕ) → IsOp op → IsOp other
        → code_of other ≡ code_of op ++ rest → op ≡ other }
{}

/// At most one instruction stands at a place.
pub fn one_instruction_stands()
    ensures { (bytes : List ℕ) (at : ℕ) (op other : Op) → StandsAt bytes at op → StandsAt bytes at other → op ≡ other }
{}

/// The instruction that is found among all by its number is the one that stands at the place, and each that stands is
/// found.
pub fn instructions_are_found()
    ensures found { (bytes : List ℕ) (at : ℕ) (op : Op) → StandsAt bytes at op → op_at bytes at ≡ Some op }
    ensures stands { (bytes : List ℕ) (at : ℕ) (op : Op) → ((i : ℕ) → slice_index bytes i < 256)
        → op_at bytes at ≡ Some op → StandsAt bytes at op }
{}
