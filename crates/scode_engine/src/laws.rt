//! What a root call leaves. Each law is the contract of a function that does nothing.
ghost use Rattle.std.specs.Prelude.{◌≡◌, ◌≤◌, ℕ, ℤ, IsTrue, Some};
ghost use Rattle.std.specs.FinMap as finite;
ghost use Rattle.std.specs.Int.{w64};
ghost use Rattle.sed_value.specs.Value.{is_signed};
ghost use Rattle.sed_value.specs.declared.value.Value.{Value};
ghost use Rattle.sed_engine.specs.declared.call.Place.{Place};
ghost use Rattle.sed_engine.specs.declared.call.Root.{Root as AnyRoot};
ghost use Rattle.sed_engine.specs.Asked.{MayAsk};
ghost use Rattle.sed_engine.specs.Code.{Object, asked_of, called, may_call, root_of};
ghost use Rattle.scode_image.specs.declared.image.Image.{Image as AnyImage};
ghost use Rattle.scode_code.specs.Image.{code_of, meaning_of};
ghost use Rattle.scode_mem.specs.Blocks.{Held};
ghost use Rattle.scode_engine.specs.Loaded.{IsLeftBy, IsLoaded, live_of, statics_of};

use scode_sound::verified_images_are_whole;
use sed_engine::what_is_kept_fits;

/// A root of its class may be called on each live object. Where its block and the static one hold what the call leaves,
/// and the others are as they were, the place has the object that the call leaves; the others keep theirs, and all is
/// as an engine may keep it.
pub fn root_calls_leave_objects()
    ensures asked { (image : AnyImage) (h : Held) (p : Place) (o : Object) (which : AnyRoot) (argument : Value)
        (turns : ℕ) (moment : ℤ) → IsLoaded image h → finite.get (live_of image h) p.0 ≡ Some o
        → IsTrue (may_call (meaning_of image) o.class which argument) → 1 ≤ turns → turns ≤ 1000000
        → IsTrue (is_signed w64 moment)
        → MayAsk (code_of image) (asked_of o (statics_of image h) which argument turns moment) }
    ensures left { (image : AnyImage) (old new : Held) (p : Place) (o : Object) (which : AnyRoot) (argument : Value)
        (turns : ℕ) (moment : ℤ) → finite.get (live_of image old) p.0 ≡ Some o
        → IsLeftBy image o.class p (root_of (meaning_of image) o (statics_of image old) which argument turns moment)
        old new
        → live_of image new ≡ finite.insert (live_of image old) p.0
        (called o (root_of (meaning_of image) o (statics_of image old) which argument turns moment)) }
    ensures loaded { (image : AnyImage) (old new : Held) (p : Place) (o : Object) (which : AnyRoot) (argument : Value)
        (turns : ℕ) (moment : ℤ) → IsLoaded image old → finite.get (live_of image old) p.0 ≡ Some o
        → IsLeftBy image o.class p (root_of (meaning_of image) o (statics_of image old) which argument turns moment)
        old new
        → IsLoaded image new }
{
    verified_images_are_whole();
    what_is_kept_fits();
}
