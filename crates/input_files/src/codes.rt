//! The image of a node's code.
ghost use Rattle.std.specs.Prelude.{◌≡◌, ◌≢◌, ℕ, List, Result, Err};
ghost use Rattle.sed_outside.specs.Steps.{Read, UnlessFree};
ghost use Rattle.sed_outside.specs.Reads.{AreKnown, HasReads};
ghost use Rattle.sed_outside.specs.Cause.{Rose};
ghost use Rattle.scode_image.specs.declared.image.Image.{Image as AnyImage};
ghost use Rattle.input_files.specs.declared.refusal.InputRefusal.{InputRefusal};
ghost use Rattle.input_files.specs.Refusals.{is_want, IsFileFault, EndsAs};
ghost use Rattle.input_files.specs.Inputs.{CodeRead, IsChecked, IsCodeOf};

use crate::laws::{failed_inputs_are_told, inputs_agree};
use crate::refusal::InputRefusal;
use crate::texts::text_in;
use scode_image::{Image, ImageRefusal, read_image};
use scode_verify::{Verified, VerifyRefusal, verify};
use sed_outside::Files;
use std::alloc::Global;

// An image as one that breaks no rule, or the first rule that it breaks.
fn checked(alloc: Global, image: Image) -> Result<Verified, InputRefusal>
    ensures { UnlessFree is_want (IsChecked image) result }
{
    match verify(alloc, image) {
        Ok(code) => Ok(code),
        Err(VerifyRefusal::Fault { method, at, rule }) => {
            Err(InputRefusal::BrokenRule { method, at, rule })
        }
        Err(VerifyRefusal::Memory) => Err(InputRefusal::Memory),
    }
}

// The image that a text is of, which breaks no rule.
fn code_of(alloc: Global, text: &[u8]) -> Result<Verified, InputRefusal>
    ensures { UnlessFree is_want (IsCodeOf text.now) result }
{
    match read_image(alloc, text) {
        Ok(image) => checked(alloc, image),
        Err(ImageRefusal::NotAnImage { at }) => Err(InputRefusal::BadImage { at }),
        Err(ImageRefusal::Memory) => Err(InputRefusal::Memory),
    }
}

// The file of an image of this name, read.
fn code_in<F: Files>(alloc: Global, name: &str, files: &mut F) -> Result<Verified, InputRefusal>
    ensures { HasReads F.Files files.old files.new (λ reads. UnlessFree is_want (CodeRead name.now reads) result) }
{
    match text_in(alloc, name, files) {
        Ok(text) => code_of(alloc, text.as_slice()),
        Err(refusal) => Err(refusal),
    }
}

/// The image of the file of this name, which breaks no rule.
///
/// The file is read. `BadImage` comes exactly where its bytes are no image, with the place that tells why, and
/// `BrokenRule` exactly where they are the image of a code that breaks a rule, with the first that it breaks.
/// `CodeRead` says all this, and `Memory` may come in place of each end. No file changes.
///
/// A `FileFault` comes only where the count of failed reads of the file rose, and wherever a count did.
pub fn read_code<F: Files>(
    alloc: Global,
    name: &str,
    files: &mut F,
) -> Result<Verified, InputRefusal>
    ensures read { HasReads F.Files files.old files.new
        (λ reads. UnlessFree is_want (CodeRead name.now reads) result) }

    // What the file is told to hold decides how it ends, but where it could not be read.
    ensures comes { (told : List Read) (end : Result AnyImage InputRefusal) → AreKnown (F.known files.old) told
        → CodeRead name.now told end → UnlessFree is_want (EndsAs end) result }

    ensures file_fault { (file : List ℕ) → result ≡ Err (InputRefusal.FileFault file)
        → Rose (F.failed_reads files.old file) (F.failed_reads files.new file) }
    ensures file_fault_comes { (file : List ℕ) → F.failed_reads files.new file ≢ F.failed_reads files.old file
        → UnlessFree is_want IsFileFault result }

    ensures files { F.known files.new ≡ F.known files.old }
    ensures writes { F.failed_writes files.new ≡ F.failed_writes files.old }
{
    inputs_agree();
    failed_inputs_are_told();
    code_in(alloc, name, files)
}
