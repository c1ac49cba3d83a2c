//! Entries from marks: each place once.
ghost use Rattle.std.specs.Prelude.{◌≡◌, IfOk, OnOk, map, reverse};
ghost use Rattle.scode_entries.specs.Entries.{each_once};
ghost use Rattle.scode_entries.specs.EntryLists.{ends_at as ends_at_in, with_entry};
ghost use Rattle.scode_entries.specs.Method.{entry_of as entry_in};

use crate::marks::Mark;
use scode_image::{ImageEntry, ImageKind};
use sed_value::{Items, Memory};
use std::alloc::Global;

// Kinds in the other order.
fn reversed(alloc: Global, kinds: &[ImageKind]) -> Result<Vec<ImageKind>, Memory>
    ensures { IfOk result (λ all. all.items ≡ reverse kinds.now) }
{
    let mut all = Vec::from_slice(alloc, kinds)?;
    all.reverse();
    Ok(all)
}

// The entry of a mark, where the locals have these kinds.
fn entry_of(alloc: Global, locals: &[ImageKind], mark: &Mark) -> Result<ImageEntry, Memory>
    ensures { IfOk result (λ entry. entry ≡ entry_in locals.now mark.now) }
{
    let stack = reversed(alloc, mark.stack.as_slice())?;
    let kinds = Vec::from_slice(alloc, locals)?;
    Ok(ImageEntry {
        place: mark.place,
        locals: Items::new(kinds),
        stack: Items::new(stack),
    })
}

// Whether the last entry stands at a place.
fn ends_at(entries: &[ImageEntry], place: u16) -> bool
    ensures { result ≡ ends_at_in entries.now place }
{
    match entries.last() {
        Some(entry) => entry.place == place,
        None => false,
    }
}

// One more entry, if it does not stand where the last one does.
fn put_entry(entries: &mut Vec<ImageEntry>, locals: &[ImageKind], mark: &Mark) -> Result<(), Memory>
    ensures { OnOk result (entries.new.items ≡ with_entry locals.now entries.old.items mark.now) }
{
    if ends_at(entries, mark.place) {
        return Ok(());
    }
    let entry = entry_of(*entries.allocator(), locals, mark)?;
    entries.push(entry)?;
    Ok(())
}

// The entries of marks, where the locals have these kinds. A place that was told last is not told again.
#[tactic(auto, using(crate::proofs::Once::entries_are))]
pub(crate) fn entries_of(
    alloc: Global,
    locals: &[ImageKind],
    marks: &[Mark],
) -> Result<Vec<ImageEntry>, Memory>
    ensures { IfOk result (λ entries. entries.items ≡ map (entry_in locals.now) (each_once marks.now)) }
{
    let mut entries = Vec::new(alloc);
    for mark in marks {
        put_entry(&mut entries, locals, mark)?;
    }
    Ok(entries)
}
