//! The secret file.
ghost use Rattle.std.specs.Prelude.{◌≡◌, ◌≢◌, ℕ, List, Result, Err};
ghost use Rattle.sed_outside.specs.Steps.{Read, UnlessFree};
ghost use Rattle.sed_outside.specs.Reads.{AreKnown, HasReads};
ghost use Rattle.sed_outside.specs.Cause.{Rose};
ghost use Rattle.input_files.specs.declared.refusal.InputRefusal.{InputRefusal};
ghost use Rattle.input_files.specs.Refusals.{is_want, IsFileFault, EndsAs};
ghost use Rattle.input_files.specs.Inputs.{SecretRead, IsSecretOf};

use crate::laws::{failed_inputs_are_told, inputs_agree};
use crate::refusal::InputRefusal;
use crate::texts::text_in;
use sed_outside::Files;
use std::alloc::Global;

// How many bytes a secret has.
const SECRET_BYTES: usize = 20;

// The first bytes of a text, as many as a secret has.
fn secret_of(text: &[u8]) -> Result<[u8; 20], InputRefusal>
    ensures { UnlessFree is_want (IsSecretOf text.now) result }
{
    if text.len() < SECRET_BYTES {
        return Err(InputRefusal::ShortSecret);
    }
    let mut secret = [0; 20];
    secret.copy_from_slice(&text[..SECRET_BYTES]);
    Ok(secret)
}

// The secret file of this name, read.
fn secret_in<F: Files>(alloc: Global, name: &str, files: &mut F) -> Result<[u8; 20], InputRefusal>
    ensures { HasReads F.Files files.old files.new (λ reads. UnlessFree is_want (SecretRead name.now reads) result) }
{
    match text_in(alloc, name, files) {
        Ok(text) => secret_of(text.as_slice()),
        Err(refusal) => Err(refusal),
    }
}

/// The secret of the secret file of this name: its first 20 bytes. What stands behind them is not used.
///
/// The file is read, and `ShortSecret` comes exactly where it has fewer than 20 bytes. `SecretRead` says all this, and
/// `Memory` may come in place of each end. No file changes.
///
/// A `FileFault` comes only where the count of failed reads of the file rose, and wherever a count did.
pub fn read_secret<F: Files>(
    alloc: Global,
    name: &str,
    files: &mut F,
) -> Result<[u8; 20], InputRefusal>
    ensures read { HasReads F.Files files.old files.new
        (λ reads. UnlessFree is_want (SecretRead name.now reads) result) }

    // What the file is told to hold decides how it ends, but where it could not be read.
    ensures comes { (told : List Read) (end : Result (List ℕ) InputRefusal) → AreKnown (F.known files.old) told
        → SecretRead name.now told end → UnlessFree is_want (EndsAs end) result }

    ensures file_fault { (file : List ℕ) → result ≡ Err (InputRefusal.FileFault file)
        → Rose (F.failed_reads files.old file) (F.failed_reads files.new file) }
    ensures file_fault_comes { (file : List ℕ) → F.failed_reads files.new file ≢ F.failed_reads files.old file
        → UnlessFree is_want IsFileFault result }

    ensures files { F.known files.new ≡ F.known files.old }
    ensures writes { F.failed_writes files.new ≡ F.failed_writes files.old }
{
    inputs_agree();
    failed_inputs_are_told();
    secret_in(alloc, name, files)
}
