//! The laws of verified images. Each is the contract of a function that does nothing.
ghost use Rattle.sed_engine.specs.Asked.{MayAsk};
ghost use Rattle.sed_engine.specs.Code.{Question};
ghost use Rattle.sed_engine.specs.Whole.{AnswersWell, IsWhole};
ghost use Rattle.scode_image.specs.declared.image.Image.{Image as AnyImage};
ghost use Rattle.scode_code.specs.Faults.{IsVerified};
ghost use Rattle.scode_code.specs.Image.{code_of, meaning_of};
ghost use Rattle.scode_whole.specs.Whole.{IsWholeButForRoots};

use sed_engine::masked_codes_are_whole;

/// An image that breaks no rule means a whole code, but for what root calls leave and how they end.
///
/// Its tables are those of a whole code: limits, names, numbers and components; bases, slots and the fields behind
/// them; and first contents, which fit. What it may not be asked it answers as such, and so does not end well.
pub fn verified_images_are_whole_but_for_roots()
    ensures { (image : AnyImage) → IsVerified image → IsWholeButForRoots (meaning_of image) }
{}

/// An image that breaks no rule means a whole code, where it answers well whatever it may be asked.
pub fn verified_images_that_answer_are_whole()
    ensures { (image : AnyImage) → IsVerified image
        → ((q : Question) → MayAsk (code_of image) q → AnswersWell (code_of image) q) → IsWhole (meaning_of image) }
{
    masked_codes_are_whole();
}
