//! Programs with their images.
ghost use Rattle.std.specs.Prelude.{◌≡◌, ◌++◌, ℕ, List, All, Err, IfErr, IfOk, OnErr, OnOk};
ghost use Rattle.std.specs.FinMap as map;
ghost use Rattle.sed_typed.specs.Typed.{Typed};
ghost use Rattle.sed_engine.specs.Program.{meaning_of};
ghost use Rattle.scode_code.specs.Image as made;
ghost use Rattle.scode_gen.specs.Generated.{IsFirstTooLong, IsShort, image_of};
ghost use Rattle.scode_compile.specs.Compiled.{IsImageOf};
ghost use Rattle.scode_compile.specs.declared.refusal.CompileRefusal.TheVariants.{Memory as WantOfMemory};
ghost use Rattle.scode_compile.specs.declared.refusal.CompileRefusal.TheVariants.{MethodTooLong};

use crate::compiler::verified_image;
use crate::refusal::CompileRefusal;
use crate::right::image_is_right;
use scode_engine::Machine;
use scode_image::write_image;
use scode_verify::Verified;
use sed_engine::Engine;
use sed_typed::Program;
use sed_value::Memory;
use std::alloc::Global;
use std::marker::Model;

/// A typed program with the verified image that the compiler makes of it. It is seen as the program.
#[derive(Drop)]
pub struct Compiled {
    program: Program,
    image: Verified,
}

impl Model for Compiled {
    ghost use Rattle.sed_typed.specs.declared.program.Program.{Program as AnyProgram};
    ghost use Rattle.sed_typed.specs.contracts.program.Program as program_code;
    ghost use Rattle.scode_compile.specs.Compiled.{IsCompiled};

    ghost Value = { AnyProgram };

    ghost coded = { program_code.the_row.coded };

    ghost view = { λ c. c.program };

    ghost invariant = { λ c. IsCompiled c.program c.image };
}

impl Compiled {
    // A program with its image, which is verified.
    pub(crate) fn of(program: Program, image: Verified) -> Compiled
        requires typed { Typed program }
        requires short { All (IsShort program) program.methods }
        requires image { image ≡ image_of program }
        ensures { result ≡ program }
    {
        image_is_right(&program);
        Compiled { program, image }
    }

    /// The program, which is typed and whose methods are short.
    pub fn program(&self) -> &Program
        ensures same { result.now ≡ self.now }
        ensures typed { Typed self.now }
        ensures short { All (IsShort self.now) self.now.methods }
    {
        &self.program
    }

    /// The engine that runs the image, and so the program: without objects, and with the statics as they begin. Its
    /// objects may have `limit` bytes together. No call of the engine takes memory.
    pub fn machine(self, alloc: Global, limit: u32) -> Result<Machine, Memory>
        ensures meaning { IfOk result (λ m. ⟦<Machine as Engine>⟧.meaning m ≡ meaning_of self) }
        ensures empty { IfOk result (λ m. ⟦<Machine as Engine>⟧.live m ≡ map.empty) }
        ensures statics { IfOk result
            (λ m. ⟦<Machine as Engine>⟧.statics m ≡ (meaning_of self).initial_statics) }
        ensures limit { IfOk result (λ m. ⟦<Machine as Engine>⟧.limit m ≡ limit) }
    {
        let Compiled { program, image } = self;
        drop(program);
        Machine::new(alloc, image, limit)
    }

    /// The verified image alone, which means what the program means.
    pub fn into_verified(self) -> Verified
        ensures means { made.meaning_of result ≡ meaning_of self }
    {
        let Compiled { program, image } = self;
        drop(program);
        image
    }

    /// Puts the text of the image behind the bytes that are there. It is the text of an image that carries the program.
    /// Where memory is wanted the bytes stay as they were.
    pub fn write(&self, into: &mut Vec<u8>) -> Result<(), Memory>
        ensures ok { OnOk result
            ((text : List ℕ) × IsImageOf self.now text × (into.new.items ≡ into.old.items ++ text)) }
        ensures err { OnErr result (into.new.items ≡ into.old.items) }
    {
        image_is_right(&self.program);
        write_image(self.image.image(), into)
    }
}

/// A typed program with its image.
///
/// `MethodTooLong` comes where the code of a method passes 65,535 bytes, and names the first of these by its number in
/// the program's list. `Memory` comes where memory is refused. There is no other answer.
pub fn compile(alloc: Global, program: Program) -> Result<Compiled, CompileRefusal>
    requires { Typed program }
    ensures same { IfOk result (λ compiled. compiled ≡ program) }
    ensures short { IfOk result (λ _. All (IsShort program) program.methods) }
    ensures too_long { (n : ℕ) → result ≡ Err (MethodTooLong n) → IsFirstTooLong program n }
    ensures no_other { All (IsShort program) program.methods → IfErr result (λ refusal. refusal ≡ WantOfMemory) }
{
    match verified_image(alloc, &program) {
        Ok(image) => Ok(Compiled::of(program, image)),
        Err(refusal) => Err(refusal),
    }
}
