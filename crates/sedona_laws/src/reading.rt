//! Laws of the files: those that fail, and those that stay.
ghost use Rattle.std.specs.Prelude.{◌≡◌, ◌≢◌, ◌⊎◌, ℕ, List};
ghost use Rattle.sedona_words.specs.Command.{Command, output_of};
ghost use Rattle.sedona_cli.specs.Does.{Does};
ghost use Rattle.sedona_cli.specs.World.{World};
ghost use Rattle.sedona_laws.specs.Files.{KeepsFiles, KeepsWrites};
ghost use Rattle.sedona_laws.specs.Answers.{Answers};

use crate::ends::failed_reads_end_it;
use disk_model::Disk;
use sed_outside::{Clock, Files, Link, Sink};

/// 3, or 7: wherever a count of failed reads or of failed writes moved.
pub fn files_that_fail_are_told<F: Files, L: Link, C: Clock, D: Disk, O: Sink>()
    ensures file_fault_comes { (words : List (List ℕ)) (old new : World F L C D O) (status : ℕ)
        → Answers F.Files L.Link C.Clock D.Disk O.Sink words old new status
        → (name : List ℕ) → F.failed_reads new.files name ≢ F.failed_reads old.files name
        → (status ≡ 3) ⊎ (status ≡ 7) }
    ensures write_fault_comes { (words : List (List ℕ)) (old new : World F L C D O) (status : ℕ)
        → Answers F.Files L.Link C.Clock D.Disk O.Sink words old new status
        → (name : List ℕ) → F.failed_writes new.files name ≢ F.failed_writes old.files name
        → (status ≡ 3) ⊎ (status ≡ 7) }
{
    failed_reads_end_it();
}

/// No file changes but the output file of a command that has one.
pub fn files_stay<F: Files, L: Link, C: Clock, D: Disk, O: Sink>()
    ensures files { (command : Command) (old new : World F L C D O) (status : ℕ)
        → Does F.Files L.Link C.Clock D.Disk O.Sink command old new status
        → KeepsFiles F.Files (output_of command) old.files new.files }
    ensures writes { (command : Command) (old new : World F L C D O) (status : ℕ)
        → Does F.Files L.Link C.Clock D.Disk O.Sink command old new status
        → KeepsWrites F.Files (output_of command) old.files new.files }
{}
