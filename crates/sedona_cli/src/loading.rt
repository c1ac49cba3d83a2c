//! The loading and compiling of programs, as a step of a command.
ghost use Rattle.std.specs.Prelude.{◌≡◌, ◌≤◌, length, IfOk};
ghost use Rattle.sed_outside.specs.Reads.{HasReads};
ghost use Rattle.sed_outside.specs.Steps.{UnlessFree};
ghost use Rattle.sed_engine.specs.Runnable.{IsRunnable};
ghost use Rattle.sed_typed.specs.Typed.{Typed};
ghost use Rattle.sedona_words.specs.Command.{texts};
ghost use Rattle.sedona_cli.specs.Refusals as meaning;
ghost use Rattle.sedona_cli.specs.Steps.{IsGenerated, KitsGenerated, TextGenerated};

use crate::refusal::{Refusal, of_compiling, of_kits};
use scode_compile::{Compiled, compile};
use sed_check::{load_kits, load_text};
use sed_outside::Files;
use sed_typed::Program;
use std::alloc::Global;

// A program with its image, or the first of its methods that is too long.
fn compiled(alloc: Global, program: Program) -> Result<Compiled, Refusal>
    requires { Typed program }
    ensures generated { UnlessFree meaning.is_want (IsGenerated program) result }
    ensures same { IfOk result (λ compiled. compiled ≡ program) }
{
    match compile(alloc, program) {
        Ok(compiled) => Ok(compiled),
        Err(refusal) => Err(of_compiling(refusal)),
    }
}

/// The program of the kits of the manifests of these names, with its image.
pub fn kits_program<F: Files>(
    alloc: Global,
    names: &[String],
    files: &mut F,
) -> Result<Compiled, Refusal>
    requires { length names.now ≤ 15 }
    ensures { HasReads F.Files files.old files.new
        (λ reads. UnlessFree meaning.is_want (KitsGenerated (texts names.now) reads) result) }
{
    match load_kits(alloc, names, files) {
        Ok(program) => compiled(alloc, program),
        Err(refusal) => Err(of_kits(refusal)),
    }
}

/// The program of the source of this name alone, with its image.
pub fn text_program<F: Files>(alloc: Global, name: &str, files: &mut F) -> Result<Compiled, Refusal>
    ensures loaded { HasReads F.Files files.old files.new
        (λ reads. UnlessFree meaning.is_want (TextGenerated name.now reads) result) }
    ensures runnable { IfOk result IsRunnable }
{
    match load_text(alloc, name, files) {
        Ok(program) => compiled(alloc, program),
        Err(refusal) => Err(of_kits(refusal)),
    }
}
