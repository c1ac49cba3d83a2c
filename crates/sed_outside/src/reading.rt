//! The text of a file.
ghost use Rattle.std.specs.Prelude.{IsErrOf};
ghost use Rattle.sed_outside.specs.Steps.{UnlessFree};
ghost use Rattle.sed_outside.specs.Reads.{HasReads, TextOf, is_want};

use crate::{FileFault, Files};
use sed_value::Items;
use std::alloc::Global;

/// The text of the file of this name. `Failed` comes exactly where the read failed, and `Memory` where memory was
/// wanted. No file changes.
pub fn read_text<F: Files>(alloc: Global, name: &str, files: &mut F) -> Result<Items<u8>, FileFault>
    ensures { HasReads F.Files files.old files.new
        (λ reads. UnlessFree is_want (TextOf name.now FileFault.Failed reads) result) }
{
    let mut text = Vec::new(alloc);
    match files.read(name, &mut text) {
        Ok(()) => Ok(Items::new(text)),
        Err(fault) => Err(fault),
    }
}
