//! Kinds of cells, and which may stand where.
ghost use Rattle.std.specs.Prelude.{◌≡◌};
ghost use Rattle.std.specs.List.{list_all, zip};
ghost use Rattle.scode_code.specs.Kinds as kinds;
ghost use Rattle.scode_code.specs.TableRules as rules;
ghost use Rattle.scode_tables.specs.Words as words;

use crate::lookup::NO_BASE;
use scode_image::{Image, ImageEntry, ImageKind, ImageMethod};

// The kind of no result.
pub(crate) const VOID: ImageKind = ImageKind { kind: 0, class: 0 };

// The kinds of a bool, an int and a long.
pub(crate) const BOOL: ImageKind = ImageKind { kind: 1, class: 0 };

pub(crate) const INT: ImageKind = ImageKind { kind: 2, class: 0 };

pub(crate) const LONG: ImageKind = ImageKind { kind: 3, class: 0 };

/// Whether two kinds are one.
pub fn is_same_kind(a: ImageKind, b: ImageKind) -> bool
    ensures { result ≡ kinds.same_kind a b }
{
    a.kind == b.kind && a.class == b.class
}

// Whether as many as both rows have are equal one by one.
pub(crate) fn are_equal_along(front: &[ImageKind], all: &[ImageKind]) -> bool
    ensures { result ≡ list_all (words.same_pair kinds.same_kind) (zip front.now all.now) }
{
    front
        .iter()
        .zip(all.iter())
        .all(|(a, b)| is_same_kind(*a, *b))
}

/// Whether two rows of kinds are one.
#[tactic(auto, using(crate::proofs::Rows::same_kinds_along))]
pub fn are_same_kinds(a: &[ImageKind], b: &[ImageKind]) -> bool
    ensures { result ≡ rules.same_kinds a.now b.now }
{
    a.len() == b.len() && are_equal_along(a, b)
}

// Whether a row of kinds begins with another one.
#[tactic(auto, using(crate::proofs::Rows::begins_along))]
pub(crate) fn begins_with(all: &[ImageKind], front: &[ImageKind]) -> bool
    ensures { result ≡ rules.begins kinds.same_kind front.now all.now }
{
    front.len() <= all.len() && are_equal_along(front, all)
}

/// Whether a class of this number is there.
pub fn has_class(image: &Image, class: u16) -> bool
    ensures { result ≡ rules.has_class image.now class }
{
    usize::from(class) < image.classes.len()
}

// Whether a kind of class 0xffff, of the static block, is of an object that may be there.
fn has_object(image: &Image, statics: bool, kind: ImageKind) -> bool
    ensures { result ≡ words.has_object image.now statics kind }
{
    has_class(image, kind.class) || statics && kind.class == NO_BASE
}

// Whether a cell may be of a kind, and of that of the static block where this is asked for.
fn is_kind_of_cell(image: &Image, statics: bool, kind: ImageKind) -> bool
    ensures { result ≡ rules.is_kind_of_cell image.now statics kind }
{
    if kind.kind < 1 || kind.kind > 6 {
        return false;
    }
    if kind.kind == 6 {
        return has_object(image, statics, kind);
    }
    kind.class == 0
}

fn is_kind_of_result(image: &Image, kind: ImageKind) -> bool
    ensures { result ≡ rules.is_kind_of_result image.now kind }
{
    kind.kind == 0 && kind.class == 0 || is_kind_of_cell(image, false, kind)
}

fn are_kinds_of_cells(image: &Image, statics: bool, all: &[ImageKind]) -> bool
    ensures { result ≡ list_all (rules.is_kind_of_cell image.now statics) all.now }
{
    all.iter()
        .all(|kind| is_kind_of_cell(image, statics, *kind))
}

fn entry_kinds_are_there(image: &Image, entry: &ImageEntry) -> bool
    ensures { result ≡ words.entry_kinds_are_there image.now entry.now }
{
    are_kinds_of_cells(image, true, entry.locals.as_slice())
        && are_kinds_of_cells(image, true, entry.stack.as_slice())
}

fn all_entry_kinds_are_there(image: &Image, entries: &[ImageEntry]) -> bool
    ensures { result ≡ list_all (words.entry_kinds_are_there image.now) entries.now }
{
    entries
        .iter()
        .all(|entry| entry_kinds_are_there(image, entry))
}

/// Whether the kinds of a method are of classes that are there; locals and entries may have the static block.
pub fn kinds_are_there(image: &Image, method: &ImageMethod) -> bool
    ensures { result ≡ rules.kinds_are_there image.now method.now }
{
    are_kinds_of_cells(image, false, method.params.as_slice())
        && is_kind_of_result(image, method.result)
        && are_kinds_of_cells(image, true, method.locals.as_slice())
        && all_entry_kinds_are_there(image, method.entries.as_slice())
}
