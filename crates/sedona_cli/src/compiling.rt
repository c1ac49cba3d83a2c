//! `compile`: the image of kits, written into a file.
ghost use Rattle.std.specs.Prelude.{◌≤◌, length, IfOk, OnOk};
ghost use Rattle.scode_compile.specs.Compiled.{IsImageOf};
ghost use Rattle.sedona_words.specs.Command as words_of;
ghost use Rattle.sedona_cli.specs.Compile.{LeavesImage};
ghost use Rattle.sedona_cli.specs.Program.{ComesOrWants};
ghost use Rattle.sedona_cli.specs.Writing.{HasOutput};

use crate::loading::kits_program;
use crate::refusal::Refusal;
use crate::writing::write_output;
use scode_compile::Compiled;
use sed_outside::Files;
use sed_value::{Items, Memory};
use std::alloc::Global;

// The text of the image of a program.
fn image_text(alloc: Global, program: &Compiled) -> Result<Items<u8>, Memory>
    ensures { IfOk result (IsImageOf program.now) }
{
    let mut text = Vec::new(alloc);
    match program.write(&mut text) {
        Ok(()) => Ok(Items::new(text)),
        Err(Memory) => Err(Memory),
    }
}

/// What `compile` prints: the text of the image of kits is written into the output file, once, where nothing was
/// refused before.
pub fn image_written<F: Files>(
    alloc: Global,
    out: &str,
    names: &[String],
    files: &mut F,
) -> Result<Items<u8>, Refusal>
    requires { length names.now ≤ 15 }
    ensures asks { HasOutput F.Files out.now files.old files.new
        (λ asks. ComesOrWants (words_of.Compile out.now (words_of.texts names.now)) asks result) }
    ensures leaves { OnOk result (LeavesImage F.Files out.now (words_of.texts names.now) files.old files.new) }
{
    let program = match kits_program(alloc, names, files) {
        Ok(program) => program,
        Err(refusal) => return Err(refusal),
    };
    match image_text(alloc, &program) {
        Ok(text) => {
            drop(program);
            write_output(alloc, out, text.as_slice(), files)
        }
        Err(Memory) => {
            drop(program);
            Err(Refusal::Memory)
        }
    }
}
