//! The order of rows, and places by ids.
ghost use Rattle.std.specs.Prelude.{◌≡◌, ◌↔◌, IsTrue};
ghost use Rattle.row_tree.specs.TreeRows.{Ascend, place_of as first_place};

use crate::tree_rows::{TreeRow, row_at};

/// Whether the ids of rows ascend, so that no two are equal.
pub fn are_ascending(rows: &[TreeRow]) -> bool
    ensures { IsTrue result ↔ Ascend rows.now }
{
    for place in 1..rows.len() {
        let last = row_at(rows, place - 1);
        let next = row_at(rows, place);
        if next.id <= last.id {
            return false;
        }
    }
    true
}

/// The place of the row with an id, where there is one.
pub fn place_of(rows: &[TreeRow], id: u16) -> Option<usize>
    requires { Ascend rows.now }
    ensures { result ≡ first_place rows.now id }
{
    let mut low = 0;
    let mut high = rows.len();
    while low < high {
        let middle = low + (high - low) / 2;
        let row = row_at(rows, middle);
        if row.id == id {
            return Some(middle);
        }
        if row.id < id {
            low = middle + 1;
        } else {
            high = middle;
        }
    }
    None
}
