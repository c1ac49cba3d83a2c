//! The laws of calls of verified images. Each is the contract of a function that does nothing.
ghost use Rattle.std.specs.Prelude.{◌≡◌, ◌<◌, ◌≤◌, ℕ, slice_get, Some, Ok};
ghost use Rattle.sed_engine.specs.Asked.{MayAsk};
ghost use Rattle.sed_engine.specs.Code.{Question};
ghost use Rattle.sed_engine.specs.Root.{argument_of};
ghost use Rattle.sed_engine.specs.Values.{Val};
ghost use Rattle.sed_engine.specs.Whole.{AnswersWell, IsWhole};
ghost use Rattle.scode_image.specs.declared.image.Image.{Image as AnyImage};
ghost use Rattle.scode_code.specs.Faults.{IsVerified};
ghost use Rattle.scode_code.specs.Fields.{Setting};
ghost use Rattle.scode_code.specs.Image.{code_of, meaning_of};
ghost use Rattle.scode_code.specs.Machine.{At, Machine};
ghost use Rattle.scode_code.specs.Root.{begins, most_steps, root_method};
ghost use Rattle.scode_code.specs.Steps.{step};
ghost use Rattle.scode_code.specs.Verified.{KindsIn};
ghost use Rattle.scode_sound.specs.Cells.{Concrete};
ghost use Rattle.scode_sound.specs.Fine.{Fine, FineAt};
ghost use Rattle.scode_sound.specs.Over.{IsOverWithin, setting_of, shared_of};
ghost use Rattle.scode_sound.specs.Potential.{potential};

use scode_code::images_without_fault_are_verified;
use scode_whole::verified_images_that_answer_are_whole;

/// Where a fine machine of a verified image is at work, its next step leads to a fine point, with fewer steps left: it
/// is never stuck. A root call that may be asked begins as such a point, with no more steps left than the bound.
pub fn fine_machines_go_on()
    ensures goes_on { (w : Setting) (given : ℕ) (x : Machine) → IsVerified w.image → Concrete w.image w.class
        → FineAt w given (KindsIn w.image) x → Fine w given (KindsIn w.image) (step w (At x)) }
    ensures falls { (w : Setting) (given : ℕ) (x : Machine) → IsVerified w.image → Concrete w.image w.class
        → FineAt w given (KindsIn w.image) x → potential w (step w (At x)) < potential w (At x) }
    ensures begins_fine { (image : AnyImage) (q : Question) (number : ℕ) (value : Val) → IsVerified image
        → MayAsk (code_of image) q → root_method image q.class q.which ≡ Ok (Some number)
        → argument_of q.argument ≡ Ok value
        → Fine (setting_of image q) q.turns (KindsIn image)
        (begins (slice_get image.methods number) number value (shared_of q)) }
    ensures begins_within { (image : AnyImage) (q : Question) (number : ℕ) (value : Val) → IsVerified image
        → MayAsk (code_of image) q → root_method image q.class q.which ≡ Ok (Some number)
        → argument_of q.argument ≡ Ok value
        → potential (setting_of image q) (begins (slice_get image.methods number) number value (shared_of q))
        ≤ most_steps image q.turns }
{
    images_without_fault_are_verified();
}

/// A root call of a verified image that may be asked ends well: by a value, with no more turns left than it was given,
/// or by one of the five traps, so that it is never stuck and over within its bound. What it leaves fits.
pub fn verified_calls_end()
    ensures { (image : AnyImage) (q : Question) → IsVerified image → MayAsk (code_of image) q
        → AnswersWell (code_of image) q }
{
    images_without_fault_are_verified();
}

/// The machine of a root call that may be asked is over within the bound, by a value or a trap, and is stuck at no
/// point on the way: so many instructions as the longest method has for each turn, and for the time before the first.
pub fn verified_calls_are_over()
    ensures { (image : AnyImage) (q : Question) (number : ℕ) (value : Val) → IsVerified image
        → MayAsk (code_of image) q → root_method image q.class q.which ≡ Ok (Some number)
        → argument_of q.argument ≡ Ok value
        → IsOverWithin (setting_of image q) (most_steps image q.turns)
        (begins (slice_get image.methods number) number value (shared_of q)) }
{
    images_without_fault_are_verified();
}

/// The code that a verified image means is whole: what everything above a code relies on.
pub fn verified_images_are_whole()
    ensures { (image : AnyImage) → IsVerified image → IsWhole (meaning_of image) }
{
    verified_calls_end();
    verified_images_that_answer_are_whole();
}
