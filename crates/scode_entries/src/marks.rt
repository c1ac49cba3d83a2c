//! Where code goes on whichever way it is reached.
ghost use Rattle.std.specs.Prelude.{◌≡◌, ◌≤◌, ◌++◌, ◌∷◌, [], OnOk, IfOk};
ghost use Rattle.scode_entries.specs.Below.{kinds_on};
ghost use Rattle.scode_entries.specs.Entries as entries;

use crate::cells::Below;
use scode_image::ImageKind;
use sed_value::{Items, Memory};
use std::alloc::Global;

/// A place of the code, and the kinds of what stands on the stack there, the top first.
#[derive(Drop)]
pub struct Mark {
    pub place: u16,
    pub stack: Items<ImageKind>,
}

// The kinds on a stack as a row.
fn row_of(alloc: Global, below: &Below<'_>) -> Result<Vec<ImageKind>, Memory>
    ensures { IfOk result (λ row. row.items ≡ kinds_on below.now) }
{
    let mut row = Vec::new(alloc);
    let mut rest = *below;
    while let Below::Cell(kind, more) = rest {
        row.push(kind)?;
        rest = *more;
    }
    Ok(row)
}

// A place is marked.
pub(crate) fn put_mark(marks: &mut Vec<Mark>, place: usize, below: &Below<'_>) -> Result<(), Memory>
    requires { place ≤ 65535 }
    ensures { OnOk result (marks.new.items ≡ marks.old.items ++ entries.mark place (kinds_on below.now) ∷ []) }
{
    let row = row_of(*marks.allocator(), below)?;
    marks.push(Mark {
        place: place as u16,
        stack: Items::new(row),
    })?;
    Ok(())
}
