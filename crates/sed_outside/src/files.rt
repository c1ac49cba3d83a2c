//! Files by their names.
ghost use Rattle.std.specs.Prelude.{◌≡◌, List, ℕ, Option, IsErr, IsErrOf, IsSome, IsSomeAnd, OnOk, OnErr};
ghost use Rattle.sed_outside.specs.Cause.{HasCause};
ghost use Rattle.sed_outside.specs.Files.{Contents, IsUnreadable, ReadsFile, WritesFile, KeepsOthers, KeepsCounts};

use thiserror::Error;

/// Why a file was not read or written.
#[derive(Clone, Copy, Debug, PartialEq, Eq, Error)]
pub enum FileFault {
    /// The outside failed, and the count of the call's name rose or stands at its last value.
    #[error("the file could not be read or written")]
    Failed,
    /// Memory was wanted. No count moves.
    #[error("out of memory")]
    Memory,
}

/// Files by their names. A name goes to the system as it stands.
pub trait Files {
    /// What the files hold, where it is told. Whether it is told is changed by no call.
    ghost known: { Self → Option Contents };

    /// How many reads of each name have failed. A count never falls, and stands still at 2^64 - 1.
    ghost failed_reads: { Self → List ℕ → ℕ };

    /// How many writes of each name have failed. A count never falls, and stands still at 2^64 - 1.
    ghost failed_writes: { Self → List ℕ → ℕ };

    /// Puts the file's bytes behind those of `into`, which takes the memory. A file that is not there or has more
    /// than 16,777,216 bytes is refused. After a refusal `into` holds what it held.
    ///
    /// A read changes no file and no count of failed writes. `Failed` raises the count of failed reads of its name.
    /// The counts of other names stay where the content is told. Where it is not, one number may stand for every name:
    /// then theirs go on by one too.
    fn read(&mut self, name: &str, into: &mut Vec<u8>) -> Result<(), FileFault>
        ensures ok { OnOk result (ReadsFile (known self.old) name.now into.old.items into.new.items) }
        ensures unreadable { IsSomeAnd (known self.old) (λ files. IsUnreadable (files name.now)) → IsErr result }
        ensures err { OnErr result (into.new.items ≡ into.old.items) }
        ensures files { known self.new ≡ known self.old }

        ensures cause { HasCause (failed_reads self.old name.now) (failed_reads self.new name.now)
            (IsErrOf result FileFault.Failed) }
        ensures counts { KeepsCounts (IsSome (known self.old)) (failed_reads self.old)
            (failed_reads self.new) name.now (IsErrOf result FileFault.Failed) }
        ensures writes { failed_writes self.new ≡ failed_writes self.old };

    /// Makes the file of that name hold these bytes and no others, whether or not there was one. After a refusal it
    /// may hold any bytes, or not be there.
    ///
    /// A write changes no other file and no count of failed reads. `Failed` raises the count of failed writes of its
    /// name; for the counts of other names see `read`.
    fn write(&mut self, name: &str, bytes: &[u8]) -> Result<(), FileFault>
        ensures ok { OnOk result (WritesFile (known self.new) name.now bytes.now) }
        ensures others { KeepsOthers (known self.old) (known self.new) name.now }

        ensures cause { HasCause (failed_writes self.old name.now) (failed_writes self.new name.now)
            (IsErrOf result FileFault.Failed) }
        ensures counts { KeepsCounts (IsSome (known self.old)) (failed_writes self.old)
            (failed_writes self.new) name.now (IsErrOf result FileFault.Failed) }
        ensures reads { failed_reads self.new ≡ failed_reads self.old };
}
