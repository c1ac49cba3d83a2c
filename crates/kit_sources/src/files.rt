//! The text of a file.
ghost use Rattle.sed_outside.specs.Steps.{UnlessFree};
ghost use Rattle.sed_outside.specs.Reads.{HasReads, TextOf};
ghost use Rattle.kit_sources.specs.Refusals.{is_want};

use crate::refusal::{SourcesRefusal, file_fault};
use sed_outside::{FileFault, Files, read_text};
use sed_value::Items;
use std::alloc::Global;

/// The text of the file of this name, or that it could not be read.
pub fn text_in<F: Files>(
    alloc: Global,
    name: &str,
    files: &mut F,
) -> Result<Items<u8>, SourcesRefusal>
    ensures { HasReads F.Files files.old files.new
        (λ reads. UnlessFree is_want (TextOf name.now (SourcesRefusal.FileFault name.now) reads) result) }
{
    match read_text(alloc, name, files) {
        Ok(text) => Ok(text),
        Err(FileFault::Failed) => Err(file_fault(alloc, name)),
        Err(FileFault::Memory) => Err(SourcesRefusal::Memory),
    }
}
