//! Rows.
ghost use Rattle.std.specs.Prelude.{◌≡◌, ◌<◌, Some, length, slice_get};

/// What a row tells of the tree: an id, and the ids of the parent, of the first child and of the sibling behind it,
/// where there is one.
#[derive(Clone, Copy, Debug, PartialEq, Eq)]
pub struct TreeRow {
    pub id: u16,
    pub parent: Option<u16>,
    pub first_child: Option<u16>,
    pub next_sibling: Option<u16>,
}

// The row at a place.
pub(crate) fn row_at(rows: &[TreeRow], place: usize) -> TreeRow
    requires { place < length rows.now }
    ensures { slice_get rows.now place ≡ Some result }
{
    rows[place]
}
