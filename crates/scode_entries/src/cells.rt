//! The kinds of cells.
ghost use Rattle.std.specs.Prelude.{◌≡◌, ◌∷◌};
ghost use Rattle.scode_entries.specs.Entries as entries;
ghost use Rattle.scode_entries.specs.Below.{kinds_on};
ghost use Rattle.scode_code.specs.Kinds as image;

use scode_emit::{kind_of, place_kind};
use scode_image::ImageKind;
use sed_typed::{Gives, Kind, Place};

/// The kinds of the cells on a stack, the top first.
#[derive(Clone, Copy)]
pub enum Below<'a> {
    Nothing,
    Cell(ImageKind, &'a Below<'a>),
}

fn plain(kind: u8) -> ImageKind
    ensures { result ≡ image.plain kind }
{
    ImageKind { kind, class: 0 }
}

// An object of a class.
pub(crate) fn object(class: u16) -> ImageKind
    ensures { result ≡ image.object class }
{
    ImageKind { kind: 6, class }
}

// The cell of a kind.
pub(crate) fn cell_of(kind: Kind) -> ImageKind
    ensures { result ≡ entries.cell_of kind }
{
    match kind {
        Kind::Void => plain(0),
        Kind::Bool => plain(1),
        Kind::Int => plain(2),
        Kind::Long => plain(3),
        Kind::Text => plain(4),
        Kind::Object(class) => object(class.0),
    }
}

// A bool above what is on the stack.
pub(crate) fn with_bool<'a>(below: &'a Below<'a>) -> Below<'a>
    ensures { kinds_on result ≡ image.bool ∷ kinds_on below.now }
{
    Below::Cell(plain(1), below)
}

// An object of a class above what is on the stack.
pub(crate) fn with_object<'a>(class: u16, below: &'a Below<'a>) -> Below<'a>
    ensures { kinds_on result ≡ image.object class ∷ kinds_on below.now }
{
    Below::Cell(object(class), below)
}

// The static block above what is on the stack.
pub(crate) fn with_statics<'a>(below: &'a Below<'a>) -> Below<'a>
    ensures { kinds_on result ≡ image.statics ∷ kinds_on below.now }
{
    Below::Cell(object(0xffff), below)
}

// A value of a kind above what is on the stack; there is none of void.
pub(crate) fn above<'a>(kind: Kind, below: &'a Below<'a>) -> Below<'a>
    ensures { kinds_on result ≡ entries.above kind (kinds_on below.now) }
{
    match kind {
        Kind::Void => *below,
        _ => Below::Cell(cell_of(kind), below),
    }
}

// The object or the static block that what is assigned to lies in.
pub(crate) fn with_holder<'a>(target: &Place, below: &'a Below<'a>) -> Below<'a>
    ensures { kinds_on result ≡ entries.with_holder target.now (kinds_on below.now) }
{
    match target {
        Place::Local(_, _) => *below,
        Place::Static(_, _) => with_statics(below),
        Place::Field(_, object, _) => above(kind_of(object), below),
        Place::Element(_, _, object, _, _) => above(kind_of(object), below),
        Place::StaticElement(_, _, _, _) => with_statics(below),
    }
}

// And the index above it.
pub(crate) fn with_index<'a>(target: &Place, below: &'a Below<'a>) -> Below<'a>
    ensures { kinds_on result ≡ entries.with_index target.now (kinds_on below.now) }
{
    match target {
        Place::Local(_, _) => *below,
        Place::Static(_, _) => *below,
        Place::Field(_, _, _) => *below,
        Place::Element(_, _, _, _, index) => above(kind_of(index), below),
        Place::StaticElement(_, _, _, index) => above(kind_of(index), below),
    }
}

// The value of a local that is wanted afterwards.
pub(crate) fn with_wanted<'a>(gives: Gives, target: &Place, below: &'a Below<'a>) -> Below<'a>
    ensures { kinds_on result ≡ entries.with_wanted gives target.now (kinds_on below.now) }
{
    match (gives, target) {
        (Gives::Old, Place::Local(kind, _)) => above(*kind, below),
        _ => *below,
    }
}
