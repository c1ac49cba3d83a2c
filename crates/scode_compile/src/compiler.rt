//! The verified image of a program.
ghost use Rattle.std.specs.Prelude.{◌≡◌, ◌⊎◌, ℕ, All, Err, IfErr, IfOk};
ghost use Rattle.sed_typed.specs.Typed.{Typed};
ghost use Rattle.sed_engine.specs.Carries.{Carries};
ghost use Rattle.sed_engine.specs.Program.{code_of, meaning_of};
ghost use Rattle.scode_image.specs.Grammar.{HasText};
ghost use Rattle.scode_code.specs.Faults.{IsVerified};
ghost use Rattle.scode_code.specs.Image as made;
ghost use Rattle.scode_gen.specs.Generated.{IsFirstTooLong, IsShort, image_of};
ghost use Rattle.scode_compile.specs.declared.refusal.CompileRefusal.TheVariants.{Memory as WantOfMemory};
ghost use Rattle.scode_compile.specs.declared.refusal.CompileRefusal.TheVariants.{MethodTooLong};

use crate::refusal::CompileRefusal;
use crate::right::image_is_right;
use scode_code::first_broken_is_least;
use scode_gen::{GenRefusal, generate};
use scode_image::Image;
use scode_verify::{Verified, VerifyRefusal, verify};
use sed_typed::Program;
use std::alloc::Global;

// An image that is known to break no rule, as a verified one.
fn verified(alloc: Global, image: Image) -> Result<Verified, CompileRefusal>
    requires { IsVerified image }
    ensures ok { IfOk result (λ verified. verified ≡ image) }
    ensures err { IfErr result (λ refusal. refusal ≡ WantOfMemory) }
{
    first_broken_is_least();
    match verify(alloc, image) {
        Ok(verified) => Ok(verified),
        Err(VerifyRefusal::Memory) => Err(CompileRefusal::Memory),
        Err(VerifyRefusal::Fault { .. }) => unreachable!(),
    }
}

/// The verified image of a typed program. It can be written, and whatever runs it runs the program: it carries the
/// program and means the same.
///
/// `MethodTooLong` comes where the code of a method passes 65,535 bytes, and names the first of these by its number in
/// the program's list. `Memory` comes where memory is refused. There is no other answer: no program is refused for a
/// fault of its image.
pub fn verified_image(alloc: Global, program: &Program) -> Result<Verified, CompileRefusal>
    requires { Typed program.now }
    ensures made { IfOk result (λ image. image ≡ image_of program.now) }
    ensures text { IfOk result (λ image. HasText image) }
    ensures carries { IfOk result (λ image. Carries (made.code_of image) (code_of program.now)) }
    ensures means { IfOk result (λ image. made.meaning_of image ≡ meaning_of program.now) }
    ensures short { IfOk result (λ _. All (IsShort program.now) program.now.methods) }
    ensures too_long { (n : ℕ) → result ≡ Err (MethodTooLong n) → IsFirstTooLong program.now n }
    ensures named { (n : ℕ) → IsFirstTooLong program.now n
        → (result ≡ Err (MethodTooLong n)) ⊎ (result ≡ Err WantOfMemory) }
    ensures no_other { All (IsShort program.now) program.now.methods
        → IfErr result (λ refusal. refusal ≡ WantOfMemory) }
{
    image_is_right(program);
    match generate(alloc, program) {
        Ok(image) => verified(alloc, image),
        Err(GenRefusal::MethodTooLong(number)) => Err(CompileRefusal::MethodTooLong {
            method: usize::from(number),
        }),
        Err(GenRefusal::Memory) => Err(CompileRefusal::Memory),
    }
}
