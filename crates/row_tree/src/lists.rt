//! The children of all rows.
ghost use Rattle.std.specs.Prelude.{◌≡◌, Err, IfOk};
ghost use Rattle.row_tree.specs.TreeRows.{Ascend};
ghost use Rattle.row_tree.specs.Chains.{AreLists, LacksChain};
ghost use Rattle.row_tree.specs.declared.refusal.TreeRefusal.TheVariants.{NoTree};

use crate::chain::chain;
use crate::refusal::TreeRefusal;
use crate::tree_rows::{TreeRow, row_at};
use sed_value::Items;
use std::alloc::Global;

// The places of the children of each row.
pub(crate) fn lists(alloc: Global, rows: &[TreeRow]) -> Result<Items<Items<usize>>, TreeRefusal>
    requires { Ascend rows.now }
    ensures lists { IfOk result (λ lists. AreLists rows.now lists) }
    ensures none { result ≡ Err NoTree → LacksChain rows.now }
{
    let mut lists = Vec::new(alloc);
    for place in 0..rows.len() {
        let row = row_at(rows, place);
        match chain(alloc, rows, row.id, row.first_child) {
            Ok(places) => lists.push(places)?,
            Err(refusal) => return Err(refusal),
        }
    }
    Ok(Items::new(lists))
}
