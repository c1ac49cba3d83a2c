//! The entries of which a tree of components is built.
ghost use Rattle.std.specs.Prelude.{◌≡◌, ◌<◌, IfOk, length};
ghost use Rattle.row_tree.specs.Reached.{StayWithin};
ghost use Rattle.row_tree.specs.TreeRows.{Ascend};
ghost use Rattle.app_reader.specs.FormedFile.{tree_rows};
ghost use Rattle.app_reader.specs.Entries.{AreWithin, entries_of, entry_with, id_there, ids_there};

use app_front::FileRow;
use comp_tree::Loaded;
use sed_value::{Id, Items};
use std::alloc::{AllocError, Global};

// The entry of each row, with its children by their places: the ids of the rows ascend.
pub(crate) fn entries(
    alloc: Global,
    rows: &[FileRow],
    lists: &[Items<usize>],
) -> Result<Items<Loaded>, AllocError>
    requires ascend { Ascend (tree_rows rows.now) }
    requires size { length lists.now ≡ length rows.now }
    requires within { StayWithin lists.now }
    ensures { IfOk result (λ entries. entries ≡ entries_of rows.now lists.now) }
{
    let mut entries = Vec::new(alloc);
    for place in 0..rows.len() {
        let entry = entry(alloc, rows, &rows[place], lists[place].as_slice())?;
        entries.push(entry)?;
    }
    Ok(Items::new(entries))
}

// The entry of a row whose children stand at these places.
fn entry(
    alloc: Global,
    rows: &[FileRow],
    row: &FileRow,
    places: &[usize],
) -> Result<Loaded, AllocError>
    requires { AreWithin rows.now places.now }
    ensures { IfOk result (λ entry. entry ≡ entry_with rows.now row.now places.now) }
{
    let children = ids_at(alloc, rows, places)?;
    let config = Vec::from_slice(alloc, row.config.as_slice())?;
    Ok(Loaded {
        id: row.id,
        kind: row.kind,
        name: row.name,
        parent: row.parent,
        children: Items::new(children),
        config: Items::new(config),
    })
}

// The ids of the rows at these places.
fn ids_at(alloc: Global, rows: &[FileRow], places: &[usize]) -> Result<Vec<Id>, AllocError>
    requires { AreWithin rows.now places.now }
    ensures { IfOk result (λ ids. ids.items ≡ ids_there rows.now places.now) }
{
    let mut ids = Vec::new(alloc);
    for place in places {
        ids.push(id_at(rows, *place))?;
    }
    Ok(ids)
}

// The id of the row at a place.
fn id_at(rows: &[FileRow], place: usize) -> Id
    requires { place < length rows.now }
    ensures { result ≡ id_there rows.now place }
{
    rows[place].id
}
