//! What a command that only reads comes to, before it is put.
ghost use Rattle.std.specs.Prelude.{◌≡◌, ◌≤◌, length, IfOk};
ghost use Rattle.sed_outside.specs.Reads.{HasReads};
ghost use Rattle.sed_cycles.specs.Cycles.{text_after};
ghost use Rattle.sed_engine.specs.Program.{meaning_of};
ghost use Rattle.sed_engine.specs.Runnable.{IsRunnable};
ghost use Rattle.sedona_words.specs.Command as words_of;
ghost use Rattle.sedona_cli.specs.Outside.{of_reads};
ghost use Rattle.sedona_cli.specs.Program.{ComesOrWants};

use crate::loading::{kits_program, text_program};
use crate::printing::done_text;
use crate::refusal::Refusal;
use scode_compile::Compiled;
use sed_cycles::cycles_text;
use sed_outside::Files;
use sed_value::limits::MOST_DATA;
use sed_value::{Items, Memory};
use std::alloc::Global;

// The text of the cycles of a program's first class.
fn cycles_of(alloc: Global, program: Compiled, count: u32) -> Result<Items<u8>, Memory>
    requires runnable { IsRunnable program }
    requires most { count ≤ 1000000 }
    ensures { IfOk result (λ text. text ≡ text_after (meaning_of program) count) }
{
    let engine = program.machine(alloc, MOST_DATA)?;
    Ok(Items::new(cycles_text(alloc, engine, count)?))
}

/// What the cycles of a source print.
pub fn cycles<F: Files>(
    alloc: Global,
    file: &str,
    count: u32,
    files: &mut F,
) -> Result<Items<u8>, Refusal>
    requires { count ≤ 1000000 }
    ensures { HasReads F.Files files.old files.new (λ reads.
        ComesOrWants (words_of.Cycles file.now count) (of_reads reads) result) }
{
    match text_program(alloc, file, files) {
        Ok(program) => match cycles_of(alloc, program, count) {
            Ok(text) => Ok(text),
            Err(Memory) => Err(Refusal::Memory),
        },
        Err(refusal) => Err(refusal),
    }
}

/// What the check of kits prints. They are compiled too, and the image is let go.
pub fn check<F: Files>(alloc: Global, names: &[String], files: &mut F) -> Result<Items<u8>, Refusal>
    requires { length names.now ≤ 15 }
    ensures { HasReads F.Files files.old files.new (λ reads.
        ComesOrWants (words_of.Check (words_of.texts names.now)) (of_reads reads) result) }
{
    match kits_program(alloc, names, files) {
        Ok(program) => {
            drop(program);
            match done_text(alloc) {
                Ok(text) => Ok(text),
                Err(_) => Err(Refusal::Memory),
            }
        }
        Err(refusal) => Err(refusal),
    }
}
