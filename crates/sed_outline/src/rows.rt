//! Rows with an item for each class.
ghost use Rattle.std.specs.Prelude.{◌≡◌, ◌+◌, IfOk, IsTrue, replicate, false};
ghost use Rattle.sed_outline.specs.Rounds.{capped, item};

use sed_value::Memory;
use std::alloc::Global;

/// What a row has at a place; behind its end nothing is known.
pub fn is_known(known: &[bool], class: usize) -> bool
    ensures { result ≡ item false known.now class }
{
    match known.get(class) {
        Some(known) => *known,
        None => false,
    }
}

/// What a row of sizes has at a place; 0 behind its end.
pub fn size_at(sizes: &[u64], class: usize) -> u64
    ensures { result ≡ item 0 sizes.now class }
{
    match sizes.get(class) {
        Some(size) => *size,
        None => 0,
    }
}

/// So many places of which nothing is known.
pub fn none_known(alloc: Global, count: usize) -> Result<Vec<bool>, Memory>
    ensures { IfOk result (λ v. v.items ≡ replicate count false) }
{
    Ok(vec![in alloc; false; count]?)
}

/// So many sizes of 0.
pub fn no_sizes(alloc: Global, count: usize) -> Result<Vec<u64>, Memory>
    ensures { IfOk result (λ v. v.items ≡ replicate count 0) }
{
    Ok(vec![in alloc; 0; count]?)
}

/// Whether two rows are the same.
pub fn are_same_known(a: &[bool], b: &[bool]) -> bool
    ensures { IsTrue result → a.now ≡ b.now }
{
    a == b
}

/// Whether two rows of sizes are the same.
pub fn are_same_sizes(a: &[u64], b: &[u64]) -> bool
    ensures { IsTrue result → a.now ≡ b.now }
{
    a == b
}

/// A sum that stands still at the end of its type.
pub fn add(sum: u64, more: u64) -> u64
    ensures { result ≡ capped (sum + more) }
{
    sum.saturating_add(more)
}
