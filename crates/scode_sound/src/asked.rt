//! The law of what a root call runs. It is the contract of a function that does nothing.
ghost use Rattle.std.specs.Prelude.{ℕ};
ghost use Rattle.sed_engine.specs.Asked.{MayAsk};
ghost use Rattle.sed_engine.specs.Code.{Question};
ghost use Rattle.scode_image.specs.declared.image.Image.{Image as AnyImage};
ghost use Rattle.scode_code.specs.Faults.{IsVerified};
ghost use Rattle.scode_code.specs.Image.{code_of};
ghost use Rattle.scode_sound.specs.Cells.{Concrete};
ghost use Rattle.scode_sound.specs.Rooted.{HasRoot};

/// A root call of a verified image that may be asked runs a method that is there, with as many arguments as it takes; a
/// callback without a method runs none, is over with all turns left, and changes nothing. Objects may be of the class
/// that it is asked of.
pub fn has_root()
    ensures root { (image : AnyImage) (q : Question) → IsVerified image → MayAsk (code_of image) q → HasRoot image q }
    ensures class { (image : AnyImage) (q : Question) → IsVerified image → MayAsk (code_of image) q
        → Concrete image q.class }
{}
