//! The users file.
ghost use Rattle.std.specs.Prelude.{◌≡◌, ◌≢◌, ℕ, List, Result, Err};
ghost use Rattle.sed_outside.specs.Steps.{Read, UnlessFree};
ghost use Rattle.sed_outside.specs.Reads.{AreKnown, HasReads};
ghost use Rattle.sed_outside.specs.Cause.{Rose};
ghost use Rattle.dasp_session.specs.declared.user.User.{User};
ghost use Rattle.input_files.specs.declared.refusal.InputRefusal.{InputRefusal};
ghost use Rattle.input_files.specs.Refusals.{is_want, IsFileFault, EndsAs};
ghost use Rattle.input_files.specs.Inputs.{UsersRead, AreUsersOf};

use crate::laws::{failed_inputs_are_told, inputs_agree};
use crate::refusal::InputRefusal;
use crate::texts::text_in;
use dasp_session::{Users, UsersRefusal};
use sed_outside::Files;
use std::alloc::Global;

// The users that a text lists.
fn users_of(alloc: Global, text: &[u8]) -> Result<Users, InputRefusal>
    ensures { UnlessFree is_want (AreUsersOf text.now) result }
{
    match Users::read(alloc, text) {
        Ok(users) => Ok(users),
        Err(UsersRefusal::BadUsers) => Err(InputRefusal::BadUsers),
        Err(UsersRefusal::Memory) => Err(InputRefusal::Memory),
    }
}

// The users file of this name, read.
fn users_in<F: Files>(alloc: Global, name: &str, files: &mut F) -> Result<Users, InputRefusal>
    ensures { HasReads F.Files files.old files.new (λ reads. UnlessFree is_want (UsersRead name.now reads) result) }
{
    match text_in(alloc, name, files) {
        Ok(text) => users_of(alloc, text.as_slice()),
        Err(refusal) => Err(refusal),
    }
}

/// The users of the users file of this name.
///
/// The file is read, and `BadUsers` comes exactly where its text is no users file. `UsersRead` says all this, and
/// `Memory` may come in place of each end. No file changes.
///
/// A `FileFault` comes only where the count of failed reads of the file rose, and wherever a count did.
pub fn read_users<F: Files>(alloc: Global, name: &str, files: &mut F) -> Result<Users, InputRefusal>
    ensures read { HasReads F.Files files.old files.new
        (λ reads. UnlessFree is_want (UsersRead name.now reads) result) }

    // What the file is told to hold decides how it ends, but where it could not be read.
    ensures comes { (told : List Read) (end : Result (List User) InputRefusal) → AreKnown (F.known files.old) told
        → UsersRead name.now told end → UnlessFree is_want (EndsAs end) result }

    ensures file_fault { (file : List ℕ) → result ≡ Err (InputRefusal.FileFault file)
        → Rose (F.failed_reads files.old file) (F.failed_reads files.new file) }
    ensures file_fault_comes { (file : List ℕ) → F.failed_reads files.new file ≢ F.failed_reads files.old file
        → UnlessFree is_want IsFileFault result }

    ensures files { F.known files.new ≡ F.known files.old }
    ensures writes { F.failed_writes files.new ≡ F.failed_writes files.old }
{
    inputs_agree();
    failed_inputs_are_told();
    users_in(alloc, name, files)
}
