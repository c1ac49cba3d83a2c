//! The children of one row.
ghost use Rattle.std.specs.Prelude.{◌≡◌, ◌<◌, ◌↔◌, ℕ, IsTrue, Some, Err, List, MatchOption, IfOk, length};
ghost use Rattle.row_tree.specs.TreeRows.{Ascend};
ghost use Rattle.row_tree.specs.Chains.{IsChain, IsChild};
ghost use Rattle.row_tree.specs.declared.refusal.TreeRefusal.TheVariants.{NoTree};

use crate::order::place_of;
use crate::refusal::TreeRefusal;
use crate::tree_rows::{TreeRow, row_at};
use sed_value::Items;
use std::alloc::Global;

// The places of the children of a row with an id, from a first one on, in their order.
pub(crate) fn chain(
    alloc: Global,
    rows: &[TreeRow],
    up: u16,
    first: Option<u16>,
) -> Result<Items<usize>, TreeRefusal>
    requires { Ascend rows.now }
    ensures chain { IfOk result (λ places. IsChain rows.now up first places) }
    ensures none { result ≡ Err NoTree → (places : List ℕ) → IsChain rows.now up first places → ⊥ }
{
    let mut places = Vec::new(alloc);
    let mut at = first;
    for _ in 0..rows.len() {
        let Some(id) = at else {
            return Ok(Items::new(places));
        };
        let Some(place) = child_at(rows, up, id) else {
            return Err(TreeRefusal::NoTree);
        };
        places.push(place)?;
        let row = row_at(rows, place);
        at = row.next_sibling;
    }
    match at {
        None => Ok(Items::new(places)),
        Some(_) => Err(TreeRefusal::NoTree),
    }
}

// The place of the row with an id, where it has this parent.
fn child_at(rows: &[TreeRow], up: u16, id: u16) -> Option<usize>
    requires { Ascend rows.now }
    ensures child { MatchOption result ((place : ℕ) → IsChild rows.now up (Some id) place
        → ⊥) (λ place. IsChild rows.now up (Some id) place) }
    ensures within { MatchOption result (Unit {0}) (λ place. place < length rows.now) }
{
    match place_of(rows, id) {
        Some(place) => {
            let row = row_at(rows, place);
            if is_under(row, up) {
                return Some(place);
            }
            None
        }
        None => None,
    }
}

fn is_under(row: TreeRow, up: u16) -> bool
    ensures { IsTrue result ↔ (row.parent ≡ Some up) }
{
    row.parent == Some(up)
}
