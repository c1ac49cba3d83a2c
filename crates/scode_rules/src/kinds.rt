//! Which kinds go to which.
ghost use Rattle.std.specs.Prelude.{◌≡◌};
ghost use Rattle.std.specs.List.{list_all, zip};
ghost use Rattle.scode_code.specs.Kinds as kinds;
ghost use Rattle.scode_rules.specs.Words as words;

use crate::indexed::Indexed;
use scode_image::ImageKind;
use scode_tables::is_same_kind;

// The class of the static block.
const STATIC_BLOCK: u16 = 0xffff;

pub(crate) const BOOL: ImageKind = ImageKind { kind: 1, class: 0 };

pub(crate) const INT: ImageKind = ImageKind { kind: 2, class: 0 };

pub(crate) const LONG: ImageKind = ImageKind { kind: 3, class: 0 };

pub(crate) const STR: ImageKind = ImageKind { kind: 4, class: 0 };

pub(crate) const NULL: ImageKind = ImageKind { kind: 5, class: 0 };

pub(crate) const STATICS: ImageKind = ImageKind {
    kind: 6,
    class: STATIC_BLOCK,
};

// The kind of an object of a class.
pub(crate) fn object(class: u16) -> ImageKind
    ensures { result ≡ kinds.object class }
{
    ImageKind { kind: 6, class }
}

pub(crate) fn is_null(kind: ImageKind) -> bool
    ensures { result ≡ kinds.is_null kind }
{
    kind.kind == 5
}

pub(crate) fn is_str(kind: ImageKind) -> bool
    ensures { result ≡ kinds.is_str kind }
{
    kind.kind == 4
}

pub(crate) fn is_object(kind: ImageKind) -> bool
    ensures { result ≡ kinds.is_object kind }
{
    kind.kind == 6
}

pub(crate) fn is_statics(kind: ImageKind) -> bool
    ensures { result ≡ kinds.is_statics kind }
{
    is_object(kind) && kind.class == STATIC_BLOCK
}

/// Whether a cell of one kind may stand where another is needed: each kind goes to itself, null to Strs and objects,
/// and an object's class to those above it.
pub fn goes_to(image: &Indexed<'_>, kind: ImageKind, to: ImageKind) -> bool
    ensures { result ≡ kinds.goes_to image.now kind to }
{
    is_same_kind(kind, to)
        || is_null(kind) && (is_str(to) || is_object(to) && !is_statics(to))
        || is_object(kind) && is_object(to) && image.is_at_or_above(to.class, kind.class)
}

fn go_along(image: &Indexed<'_>, row: &[ImageKind], to: &[ImageKind]) -> bool
    ensures { result ≡ list_all (words.goes_along image.now) (zip row.now to.now) }
{
    row.iter()
        .zip(to.iter())
        .all(|(kind, other)| goes_to(image, *kind, *other))
}

/// Whether a row of kinds goes to another one, as long as it, one by one.
#[tactic(auto, using(crate::proofs::Rows::all_go_along))]
pub fn all_go(image: &Indexed<'_>, row: &[ImageKind], to: &[ImageKind]) -> bool
    ensures { result ≡ kinds.all_go image.now row.now to.now }
{
    row.len() == to.len() && go_along(image, row, to)
}
