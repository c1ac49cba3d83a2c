//! The tree.
ghost use Rattle.std.specs.Prelude.{◌≡◌, ◌↔◌, ℕ, List, Err, IfOk, IsTrue, length};
ghost use Rattle.row_tree.specs.Reached.{StayWithin};
ghost use Rattle.row_tree.specs.TreeRows.{Ascend};
ghost use Rattle.row_tree.specs.Root.{HasRoot};
ghost use Rattle.row_tree.specs.Tree.{IsTreeOf, children_in};
ghost use Rattle.row_tree.specs.declared.refusal.TreeRefusal.TheVariants.{NoTree};

use crate::lists::lists;
use crate::reach::reach;
use crate::refusal::TreeRefusal;
use crate::tree_rows::TreeRow;
use sed_value::Items;
use std::alloc::Global;

/// The children of each row, by their places among the rows, in their order: row 0 is the App's, without parent and
/// sibling, and from it each row is reached.
///
/// `NoTree` comes only where there are no such children, whatever lists one might take, and `Memory` where memory was
/// wanted and refused.
pub fn children(alloc: Global, rows: &[TreeRow]) -> Result<Items<Items<usize>>, TreeRefusal>
    requires { Ascend rows.now }
    ensures tree { IfOk result (λ lists. IsTreeOf rows.now (children_in rows.now lists)) }
    ensures only { IfOk result (λ lists. (others : ℕ → List ℕ) → IsTreeOf rows.now others
        → (id : ℕ) → others id ≡ children_in rows.now lists id) }
    ensures size { IfOk result (λ lists. length lists ≡ length rows.now) }
    ensures within { IfOk result (λ lists. StayWithin lists) }
    ensures none { result ≡ Err NoTree → (others : ℕ → List ℕ) → IsTreeOf rows.now others → ⊥ }
{
    if !has_root(rows) {
        return Err(TreeRefusal::NoTree);
    }
    let lists = match lists(alloc, rows) {
        Ok(lists) => lists,
        Err(refusal) => return Err(refusal),
    };
    match reach(alloc, lists.as_slice()) {
        Ok(all) => {
            if all {
                return Ok(lists);
            }
            Err(TreeRefusal::NoTree)
        }
        Err(_) => Err(TreeRefusal::Memory),
    }
}

// Whether the first row is the App's.
fn has_root(rows: &[TreeRow]) -> bool
    ensures { IsTrue result ↔ HasRoot rows.now }
{
    match rows.first() {
        Some(row) => row.id == 0 && row.parent == None && row.next_sibling == None,
        None => false,
    }
}
