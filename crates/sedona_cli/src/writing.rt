//! The write of an output file.
ghost use Rattle.std.specs.Prelude.{◌≡◌, IfOk, None, OnOk};
ghost use Rattle.sed_outside.specs.Files.{WritesFile};
ghost use Rattle.sedona_cli.specs.Program.{OrWants};
ghost use Rattle.sedona_cli.specs.Refusals.{of_write};
ghost use Rattle.sedona_cli.specs.Steps as steps;
ghost use Rattle.sedona_cli.specs.Steps.{FileWritten};
ghost use Rattle.sedona_cli.specs.Writing.{HasWrite};

use crate::printing::done_text;
use crate::refusal::Refusal;
use kit_manifest::Text;
use sed_outside::{FileFault, Files};
use sed_value::Items;
use std::alloc::{AllocError, Global};

// Why a file could not be written.
fn write_refusal(fault: FileFault, file: Text) -> Refusal
    ensures { result ≡ of_write file fault }
{
    match fault {
        FileFault::Failed => Refusal::FileFault { file },
        FileFault::Memory => Refusal::Memory,
    }
}

// Writes bytes into the file of this name. What is said then stands in memory.
fn write_file<F: Files>(
    name: &str,
    bytes: &[u8],
    text: Items<u8>,
    file: Text,
    files: &mut F,
) -> Result<Items<u8>, Refusal>
    requires text { text ≡ steps.done_text }
    requires file { file ≡ name.now }
    ensures asks { HasWrite F.Files name.now files.old files.new
        (λ asks. OrWants None (FileWritten name.now bytes.now) asks result) }
    ensures written { OnOk result (WritesFile (F.known files.new) name.now bytes.now) }
{
    match files.write(name, bytes) {
        Ok(()) => Ok(text),
        Err(fault) => Err(write_refusal(fault, file)),
    }
}

// The name of a file as a text of its own.
fn name_text(alloc: Global, name: &str) -> Result<Text, AllocError>
    ensures { IfOk result (λ text. text ≡ name.now) }
{
    Ok(Text::new(String::from_str(alloc, name)?))
}

/// Writes bytes into the file of this name, and gives what is printed then. The memory for what is said behind the
/// write is taken before it.
pub fn write_output<F: Files>(
    alloc: Global,
    name: &str,
    bytes: &[u8],
    files: &mut F,
) -> Result<Items<u8>, Refusal>
    ensures asks { HasWrite F.Files name.now files.old files.new
        (λ asks. OrWants None (FileWritten name.now bytes.now) asks result) }
    ensures written { OnOk result (WritesFile (F.known files.new) name.now bytes.now) }
{
    let text = match done_text(alloc) {
        Ok(text) => text,
        Err(_) => return Err(Refusal::Memory),
    };
    match name_text(alloc, name) {
        Ok(file) => write_file(name, bytes, text, file, files),
        Err(_) => Err(Refusal::Memory),
    }
}
