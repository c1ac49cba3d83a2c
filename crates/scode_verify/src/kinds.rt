//! The kinds at one place.
ghost use Rattle.std.specs.Prelude.{◌≡◌, IfOk, OnOk, option_copied, Some};
ghost use Rattle.scode_image.specs.declared.image.Image.{Image as AnyImage};
ghost use Rattle.scode_image.specs.declared.image.ImageMethod.{ImageMethod as AnyMethod};
ghost use Rattle.scode_code.specs.CodeRules as rules;
ghost use Rattle.scode_verify.specs.Words as words;

use crate::changes::{Changes, change_all};
use scode_image::{ImageEntry, ImageKind};
use scode_rules::{Indexed, goes_to_entry};
use sed_value::Memory;

/// The kinds of the locals, and of the cells on the stack with the lowest first, where any stand; and what is known of
/// entries that they go to.
#[derive(Drop)]
pub(crate) struct Kinds {
    pub stands: bool,
    pub locals: Vec<ImageKind>,
    pub stack: Vec<ImageKind>,
    pub changes: Changes,
}

// Puts a row in the place of another.
fn replace(into: &mut Vec<ImageKind>, row: &[ImageKind]) -> Result<(), Memory>
    ensures { OnOk result (into.new.items ≡ row.now) }
{
    into.clear();
    into.extend_from_slice(row)?;
    Ok(())
}

#[tactic(auto, using(crate::proofs::Watching::all_changed))]
fn take_entry(kinds: &mut Kinds, entry: &ImageEntry) -> Result<(), Memory>
    ensures kinds { OnOk result (words.kinds_of kinds.new ≡ Some (rules.entry_shape entry.now)) }
    ensures watched { (image : AnyImage) (m : AnyMethod) → words.IsWatched image m kinds.old
        → OnOk result (words.IsWatched image m kinds.new) }
{
    replace(&mut kinds.locals, entry.locals.as_slice())?;
    replace(&mut kinds.stack, entry.stack.as_slice())?;
    kinds.stands = true;
    change_all(&mut kinds.changes)
}

fn differs(image: &Indexed<'_>, kinds: &Kinds, entry: &ImageEntry) -> bool
    ensures { result ≡ rules.carried_wrong image.now (Some entry.now) (words.kinds_of kinds.now) }
{
    kinds.stands
        && !goes_to_entry(
            image,
            kinds.locals.as_slice(),
            kinds.stack.as_slice(),
            entry,
        )
}

/// Puts the kinds of an entry, if there is one, in the place of those that arrive; and whether these do not go to it.
pub(crate) fn arrive(
    image: &Indexed<'_>,
    kinds: &mut Kinds,
    entry: Option<&ImageEntry>,
) -> Result<bool, Memory>
    ensures wrong { IfOk result (λ w.
        w ≡ rules.carried_wrong image.now (option_copied entry.entry) (words.kinds_of kinds.old)) }
    ensures kinds { OnOk result (words.kinds_of kinds.new
        ≡ rules.shape_at (option_copied entry.entry) (words.kinds_of kinds.old)) }
    ensures watched { (m : AnyMethod) → words.IsWatched image.now m kinds.old
        → OnOk result (words.IsWatched image.now m kinds.new) }
{
    match entry {
        Some(entry) => {
            let wrong = differs(image, kinds, entry);
            take_entry(kinds, entry)?;
            Ok(wrong)
        }
        None => Ok(false),
    }
}
