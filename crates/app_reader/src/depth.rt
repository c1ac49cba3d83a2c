//! How deep a row stands.
ghost use Rattle.std.specs.Prelude.{◌≡◌, length};
ghost use Rattle.sed_typed.specs.Classes.{reached};
ghost use Rattle.comp_tree.specs.Order.{most_levels};
ghost use Rattle.row_tree.specs.TreeRows.{Ascend, parent_in};

use row_tree::{TreeRow, place_of};
use sed_value::limits::GREATEST_DEPTH;

// How deep the row with an id stands, the App's at 0; no more than there may be levels.
pub(crate) fn depth(rows: &[TreeRow], id: u16) -> usize
    requires { Ascend rows.now }
    ensures { result ≡ length (reached (parent_in rows.now) most_levels (parent_in rows.now id)) }
{
    let mut at = parent_of(rows, id);
    for depth in 0..GREATEST_DEPTH + 1 {
        let Some(up) = at else {
            return depth;
        };
        at = parent_of(rows, up);
    }
    GREATEST_DEPTH + 1
}

// The parent of the row with an id.
fn parent_of(rows: &[TreeRow], id: u16) -> Option<u16>
    requires { Ascend rows.now }
    ensures { result ≡ parent_in rows.now id }
{
    match place_of(rows, id) {
        Some(place) => match rows.get(place) {
            Some(row) => row.parent,
            None => None,
        },
        None => None,
    }
}
