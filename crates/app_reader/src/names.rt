//! The names of rows.
ghost use Rattle.std.specs.Prelude.{◌≡◌, ◌≤◌, ◌<◌, ◌↔◌, ℕ, not, true, IfOk, OnOk, IsTrue, length, map as map_list};
ghost use Rattle.std.specs.Prelude.{slice_get};
ghost use Rattle.std.specs.BTreeSet.{Updates, contains};
ghost use Rattle.std.specs.Cmp.Lexicographic.{slice_cmp};
ghost use Rattle.std.specs.List.{All, IsDistinct};
ghost use Rattle.std.specs.Ordering.{nat_cmp};
ghost use Rattle.std.specs.Str.{bytes_eq};
ghost use Rattle.app_reader.specs.Checks.{SiblingsDiffer, name_at as name_there};
ghost use Rattle.app_front.specs.declared.rows.FileRow.{FileRow as AnyRow};

use app_front::FileRow;
use sed_value::{InPlace, Items, LONGEST_NAME};
use std::alloc::{AllocError, Global};
use std::collections::BTreeSet;

/// Whether each name has at most 7 characters.
pub(crate) fn are_short(rows: &[FileRow]) -> bool
    ensures { IsTrue result ↔ All (λ (r : AnyRow). length r.name ≤ 7) rows.now }
{
    for row in rows {
        if row.name.as_bytes().len() > 7 {
            return false;
        }
    }
    true
}

/// Whether no two rows at the places of one list have one name. Each list takes memory for a set of its names, so that
/// the time is about that of sorting them.
pub(crate) fn siblings_differ(
    alloc: Global,
    rows: &[FileRow],
    lists: &[Items<usize>],
) -> Result<bool, AllocError>
    ensures { IfOk result (λ differ. IsTrue differ ↔ SiblingsDiffer rows.now lists.now) }
{
    for place in 0..lists.len() {
        let apart = are_apart(alloc, rows, lists[place].as_slice())?;
        if !apart {
            return Ok(false);
        }
    }
    Ok(true)
}

// Whether no two rows at these places have one name.
fn are_apart(alloc: Global, rows: &[FileRow], places: &[usize]) -> Result<bool, AllocError>
    ensures { IfOk result (λ apart. IsTrue apart ↔ IsDistinct bytes_eq (map_list (name_there rows.now) places.now)) }
{
    let mut names = BTreeSet::new(alloc);
    for n in 0..places.len() {
        let name = name_at(rows, places[n]);
        let is_new = put(&mut names, name)?;
        if !is_new {
            return Ok(false);
        }
    }
    Ok(true)
}

// Puts a name among others, and says whether it is new.
fn put(
    names: &mut BTreeSet<InPlace<LONGEST_NAME>, Global>,
    name: InPlace<LONGEST_NAME>,
) -> Result<bool, AllocError>
    ensures new { IfOk result (λ is_new. is_new ≡ not (contains (slice_cmp nat_cmp) names.old name)) }
    ensures put { OnOk result (Updates (slice_cmp nat_cmp) names.old names.new name true) }
{
    match names.insert(name) {
        Ok(is_new) => Ok(is_new),
        Err(_) => Err(AllocError),
    }
}

// The name of the row at a place.
fn name_at(rows: &[FileRow], place: usize) -> InPlace<LONGEST_NAME>
    ensures { result ≡ name_there rows.now place }
{
    match rows.get(place) {
        Some(row) => InPlace::new(row.name.as_bytes()),
        None => InPlace::new(&[]),
    }
}
