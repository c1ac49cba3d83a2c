//! Which kinds changed since they were known to go to those of an entry, so that only these are asked again.
ghost use Rattle.std.specs.Prelude.{◌≡◌, ◌≤◌, ◌+◌, ◌++◌, [], ◌∷◌, drop, IfOk, IfSome, length, OnOk, replicate};
ghost use Rattle.std.specs.Prelude.{slice_get, slice_index_or, slice_set};
ghost use Rattle.std.specs.List.{list_all};
ghost use Rattle.scode_code.specs.CodeRules as rules;
ghost use Rattle.scode_code.specs.Kinds as kinds;
ghost use Rattle.scode_rules.specs.Words.{shape};
ghost use Rattle.scode_verify.specs.Words as words;

use scode_image::{ImageEntry, ImageKind};
use scode_rules::{Indexed, goes_to, goes_to_entry};
use sed_value::Memory;
use std::alloc::{AllocError, Global};

/// A local, or a cell of the stack, the lowest with number 0.
#[derive(Clone, Copy, Debug, PartialEq, Eq)]
pub(crate) enum Cell {
    Local(usize),
    Stack(usize),
}

/// Which kinds changed, one after the other; how many changes there were when all changed last; and of each entry, how
/// many when the kinds were last known to go to its own.
#[derive(Drop)]
pub(crate) struct Changes {
    pub cells: Vec<Cell>,
    pub begun: usize,
    pub seen: Vec<usize>,
}

fn none_seen(alloc: Global, count: usize) -> Result<Vec<usize>, AllocError>
    ensures { IfOk result (λ seen. seen.items ≡ replicate count 0) }
{
    vec![in alloc; 0; count]
}

/// All kinds are new, and known to go to those of no entry.
pub(crate) fn all_new(alloc: Global, entries: usize) -> Result<Changes, Memory>
    ensures { IfOk result words.AreNew }
{
    let mut cells = Vec::new(alloc);
    cells.push(Cell::Local(0))?;
    Ok(Changes {
        cells,
        begun: 1,
        seen: none_seen(alloc, entries)?,
    })
}

/// All kinds change.
pub(crate) fn change_all(changes: &mut Changes) -> Result<(), Memory>
    ensures seen { OnOk result (changes.new.seen ≡ changes.old.seen) }
    ensures cells { OnOk result (length changes.new.cells.items ≡ length changes.old.cells.items + 1) }
    ensures begun { OnOk result (changes.new.begun ≡ length changes.new.cells.items) }
{
    changes.cells.push(Cell::Local(0))?;
    changes.begun = changes.cells.len();
    Ok(())
}

/// A local or a cell of the stack changes.
pub(crate) fn change(changes: &mut Changes, cell: Cell) -> Result<(), Memory>
    ensures seen { OnOk result (changes.new.seen ≡ changes.old.seen) }
    ensures cells { OnOk result (changes.new.cells.items ≡ changes.old.cells.items ++ cell ∷ []) }
    ensures begun { OnOk result (changes.new.begun ≡ changes.old.begun) }
{
    changes.cells.push(cell)?;
    Ok(())
}

/// The kinds as they are now go to those of an entry.
pub(crate) fn see(changes: &mut Changes, entry: usize)
    ensures seen { changes.new.seen.items ≡ slice_set changes.old.seen.items entry (length changes.old.cells.items) }
    ensures cells { changes.new.cells ≡ changes.old.cells }
    ensures begun { changes.new.begun ≡ changes.old.begun }
{
    if entry < changes.seen.len() {
        changes.seen[entry] = changes.cells.len();
    }
}

fn seen_at(seen: &[usize], entry: usize) -> usize
    ensures { result ≡ slice_index_or seen.now entry 0 }
{
    if entry < seen.len() {
        return seen[entry];
    }
    0
}

// What changed since the kinds were known to go to those of an entry, if they were.
fn changed_since(changes: &Changes, entry: usize) -> Option<&[Cell]>
    requires { slice_index_or changes.now.seen.items entry 0 ≤ length changes.now.cells.items }
    ensures known { IfSome result (λ _. changes.now.begun ≤ slice_index_or changes.now.seen.items entry 0) }
    ensures cells { IfSome result (λ cells.
        cells.now ≡ drop (slice_index_or changes.now.seen.items entry 0) changes.now.cells.items) }
{
    let seen = seen_at(changes.seen.as_slice(), entry);
    if seen < changes.begun {
        return None;
    }
    Some(&changes.cells[seen..])
}

fn kind_at(row: &[ImageKind], place: usize) -> Option<ImageKind>
    ensures { result ≡ slice_get row.now place }
{
    row.get(place).copied()
}

fn goes_where(image: &Indexed<'_>, kind: Option<ImageKind>, to: Option<ImageKind>) -> bool
    ensures { result ≡ words.goes_where image.now kind to }
{
    match kind {
        Some(kind) => match to {
            Some(to) => goes_to(image, kind, to),
            None => true,
        },
        None => true,
    }
}

// Whether a local or a cell goes to an entry's, if both are there.
fn goes_at(
    image: &Indexed<'_>,
    locals: &[ImageKind],
    stack: &[ImageKind],
    entry: &ImageEntry,
    cell: Cell,
) -> bool
    ensures { result ≡ words.goes_at image.now locals.now stack.now entry.now cell }
{
    match cell {
        Cell::Local(place) => goes_where(
            image,
            kind_at(locals, place),
            kind_at(entry.locals.as_slice(), place),
        ),
        Cell::Stack(place) => goes_where(
            image,
            kind_at(stack, place),
            kind_at(entry.stack.as_slice(), place),
        ),
    }
}

fn all_go_at(
    image: &Indexed<'_>,
    locals: &[ImageKind],
    stack: &[ImageKind],
    entry: &ImageEntry,
    cells: &[Cell],
) -> bool
    ensures { result ≡ list_all (words.goes_at image.now locals.now stack.now entry.now) cells.now }
{
    cells
        .iter()
        .all(|cell| goes_at(image, locals, stack, entry, *cell))
}

/// Whether kinds go to those of the entry of a number. Asks those alone that
/// changed since they did, where these are few.
#[tactic(auto, using(crate::proofs::Going::goes_on))]
pub(crate) fn goes_again(
    image: &Indexed<'_>,
    changes: &Changes,
    locals: &[ImageKind],
    stack: &[ImageKind],
    number: usize,
    entry: &ImageEntry,
) -> bool
    requires seen { slice_index_or changes.now.seen.items number 0 ≤ length changes.now.cells.items }
    requires known { changes.now.begun ≤ slice_index_or changes.now.seen.items number 0
        → words.GoBut image.now (drop (slice_index_or changes.now.seen.items number 0) changes.now.cells.items)
        locals.now stack.now entry.now }
    ensures { result ≡ kinds.shape_goes image.now (shape locals.now stack.now) (rules.entry_shape entry.now) }
{
    if locals.len() != entry.locals.len() || stack.len() != entry.stack.len() {
        return false;
    }
    match changed_since(changes, number) {
        Some(cells) => {
            if cells.len() > stack.len() && cells.len() > locals.len() {
                return goes_to_entry(image, locals, stack, entry);
            }
            all_go_at(image, locals, stack, entry, cells)
        }
        None => goes_to_entry(image, locals, stack, entry),
    }
}
