//! Cells of a stack, which has the lowest first.
ghost use Rattle.std.specs.Prelude.{◌≡◌, reverse, slice_get};

use scode_image::ImageKind;

/// The kind of the cell so deep under the top.
#[tactic(auto, using(crate::proofs::Rows::get_from_top))]
pub(crate) fn cell_at(stack: &[ImageKind], depth: usize) -> Option<ImageKind>
    ensures { result ≡ slice_get (reverse stack.now) depth }
{
    if depth < stack.len() {
        return Some(stack[stack.len() - 1 - depth]);
    }
    None
}

// The kind of a local.
pub(crate) fn local_at(locals: &[ImageKind], number: u8) -> Option<ImageKind>
    ensures { result ≡ slice_get locals.now number }
{
    locals.get(usize::from(number)).copied()
}
