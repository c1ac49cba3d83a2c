//! Starts of instructions.
ghost use Rattle.std.specs.Prelude.{◌≡◌, false, true, IfOk, replicate, slice_index_or, slice_set};
ghost use Rattle.scode_code.specs.CodeRules as rules;
ghost use Rattle.scode_verify.specs.Words as words;

use scode_rules::op_at;
use sed_value::Memory;
use std::alloc::{AllocError, Global};

fn none_told(alloc: Global, count: usize) -> Result<Vec<bool>, AllocError>
    ensures { IfOk result (λ told. told.items ≡ replicate count false) }
{
    vec![in alloc; false; count]
}

// Marks one place, if it is there.
fn mark(told: &mut Vec<bool>, place: usize)
    ensures { told.new.items ≡ slice_set told.old.items place true }
{
    if place < told.len() {
        told[place] = true;
    }
}

/// Which places of code are starts of instructions.
pub(crate) fn starts(alloc: Global, code: &[u8]) -> Result<Vec<bool>, Memory>
    ensures { IfOk result (λ told. words.AreStarts told.items code.now) }
{
    let mut told = none_told(alloc, code.len())?;
    let mut place = 0;
    for _ in 0..code.len() {
        match op_at(code, place) {
            Some((_, behind)) => {
                mark(&mut told, place);
                place = behind;
            }
            None => return Ok(told),
        }
    }
    Ok(told)
}

/// Whether a place is the start of an instruction.
pub(crate) fn is_start(told: &[bool], place: u16) -> bool
    ensures { result ≡ slice_index_or told.now place false }
{
    let place = usize::from(place);
    if place < told.len() {
        return told[place];
    }
    false
}
