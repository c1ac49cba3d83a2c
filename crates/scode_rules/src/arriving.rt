//! The rule on entries: the kinds that arrive at one go to its own.
ghost use Rattle.std.specs.Prelude.{◌≡◌, ◌≤◌, length, List, reverse};
ghost use Rattle.scode_image.specs.declared.image.ImageKind.{ImageKind as AnyKind};
ghost use Rattle.scode_code.specs.CodeRules as rules;
ghost use Rattle.scode_code.specs.Kinds as kinds;
ghost use Rattle.scode_rules.specs.Words as words;

use crate::indexed::Indexed;
use crate::kinds::all_go;
use scode_image::{ImageEntry, ImageKind};

/// Whether kinds go to those of an entry.
#[tactic(auto, using(crate::proofs::Turned::all_go_turned))]
pub fn goes_to_entry(
    image: &Indexed<'_>,
    locals: &[ImageKind],
    stack: &[ImageKind],
    entry: &ImageEntry,
) -> bool
    ensures { result ≡ kinds.shape_goes image.now (words.shape locals.now stack.now) (rules.entry_shape entry.now) }
{
    all_go(image, locals, entry.locals.as_slice()) && all_go(image, stack, entry.stack.as_slice())
}
