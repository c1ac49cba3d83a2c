//! Laws of what is compiled. Each is the contract of a function that does nothing.
ghost use Rattle.std.specs.Prelude.{◌≡◌, ℕ, All, List};
ghost use Rattle.sed_typed.specs.declared.program.Program.{Program as AnyProgram};
ghost use Rattle.sed_engine.specs.Program.{meaning_of};
ghost use Rattle.scode_image.specs.declared.image.Image.{Image as AnyImage};
ghost use Rattle.scode_image.specs.Grammar.{IsImage};
ghost use Rattle.scode_code.specs.Faults.{IsVerified};
ghost use Rattle.scode_code.specs.Image as made;
ghost use Rattle.scode_gen.specs.Generated.{IsFirstTooLong, IsShort};
ghost use Rattle.scode_compile.specs.Alike.{HaveSameMethods};
ghost use Rattle.scode_compile.specs.Compiled.{IsImageOf};

use scode_image::images_have_one_text;

/// Of two programs with the same methods, wherever the bodies of these lie in memory, the same method is the first that
/// is too long, or all methods of both are short.
pub fn programs_alike_are_refused_alike()
    ensures one { (p q : AnyProgram) (n m : ℕ) → HaveSameMethods p q → IsFirstTooLong p n → IsFirstTooLong q m → n ≡ m }
    ensures none { (p q : AnyProgram) (n : ℕ) → HaveSameMethods p q
        → All (IsShort p) p.methods → IsFirstTooLong q n → ⊥ }
{}

/// Whatever image the text of a program's image is read as, it breaks no rule and means what the program means. So a
/// node that is run from the file that `compile` wrote runs the program.
pub fn images_are_read_as_their_programs()
    ensures { (program : AnyProgram) (text : List ℕ) (image : AnyImage) → IsImageOf program text → IsImage text image
        → IsVerified image × (made.meaning_of image ≡ meaning_of program) }
{
    images_have_one_text();
}
