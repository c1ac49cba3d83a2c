//! The text of an input file.
ghost use Rattle.std.specs.Prelude.{◌≡◌, ◌⊎◌};
ghost use Rattle.sed_outside.specs.Steps.{UnlessFree};
ghost use Rattle.sed_outside.specs.Reads.{HasReads, TextOf};
ghost use Rattle.input_files.specs.Refusals.{is_want};

use crate::refusal::InputRefusal;
use kit_manifest::Text;
use sed_outside::{FileFault, Files, read_text};
use sed_value::Items;
use std::alloc::Global;

// That the file of this name could not be read; it takes memory for the name.
fn file_fault(alloc: Global, name: &str) -> InputRefusal
    ensures { (result ≡ InputRefusal.FileFault name.now) ⊎ (result ≡ InputRefusal.Memory) }
{
    match String::from_str(alloc, name) {
        Ok(file) => InputRefusal::FileFault {
            file: Text::new(file),
        },
        Err(_) => InputRefusal::Memory,
    }
}

/// The text of the file of this name, or that it could not be read.
pub fn text_in<F: Files>(
    alloc: Global,
    name: &str,
    files: &mut F,
) -> Result<Items<u8>, InputRefusal>
    ensures { HasReads F.Files files.old files.new
        (λ reads. UnlessFree is_want (TextOf name.now (InputRefusal.FileFault name.now) reads) result) }
{
    match read_text(alloc, name, files) {
        Ok(text) => Ok(text),
        Err(FileFault::Failed) => Err(file_fault(alloc, name)),
        Err(FileFault::Memory) => Err(InputRefusal::Memory),
    }
}
