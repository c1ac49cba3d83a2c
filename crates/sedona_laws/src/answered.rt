//! Laws of how a command is answered.
ghost use Rattle.std.specs.Prelude.{◌≡◌, ℕ, List, [], ◌∷◌, Result};
ghost use Rattle.sed_outside.specs.Reads.{AreKnown};
ghost use Rattle.sedona_words.specs.Command.{Command, output_of};
ghost use Rattle.sedona_cli.specs.declared.refusal.Refusal.{Refusal};
ghost use Rattle.sedona_cli.specs.Does.{Does};
ghost use Rattle.sedona_cli.specs.Outside.{Ask, reads_in};
ghost use Rattle.sedona_laws.specs.Told.{AreToldOf, DidNotFail, Follows};
ghost use Rattle.sedona_cli.specs.Program.{Comes, IsAnswer, Leaves};
ghost use Rattle.sedona_cli.specs.Puts.{IsOneOf};
ghost use Rattle.sedona_cli.specs.World.{World};
ghost use Rattle.sedona_cli.specs.Writing.{AsksOf};
ghost use Rattle.sedona_laws.specs.Files.{DidNotFailToWrite};

use crate::ends::one_end;
use app_save::stores_open_to_one;
use disk_model::Disk;
use sed_outside::{Clock, Files, Link, Sink};

/// A command is answered by what it comes to, what was asked being told, and once all was done it leaves its own. And
/// the other way round: what the files and the disk are told to make of a command is what it is answered with, where
/// nothing failed of which this depends. A disk that fails before a node runs is told by status 4, and a port that is
/// not taken by 10. A save that fails in a run ends nothing: such a run has status 0, 7 or 8.
pub fn answers_follow_what_is_told<F: Files, L: Link, C: Clock, D: Disk, O: Sink>()
    ensures answered { (command : Command) (old new : World F L C D O) (status : ℕ)
        → Does F.Files L.Link C.Clock D.Disk O.Sink command old new status
        → AsksOf F.Files D.Disk (output_of command) old.files new.files old.disk new.disk (λ asks.
        IsAnswer command asks (O.text old.sink) (O.text new.sink) (O.faults old.sink) (O.faults new.sink) status) }
    ensures leaves { (command : Command) (old new : World F L C D O) (status : ℕ)
        → Does F.Files L.Link C.Clock D.Disk O.Sink command old new status
        → IsOneOf (0 ∷ 8 ∷ []) status
        → Leaves F.Files D.Disk command old.files new.files old.disk new.disk }
    ensures comes { (command : Command) (old new : World F L C D O) (status : ℕ)
        → Does F.Files L.Link C.Clock D.Disk O.Sink command old new status
        → (asks : List Ask) (end : Result (List ℕ) Refusal)
        → AreKnown (F.known old.files) (reads_in asks) → AreToldOf (D.meaning old.disk) asks
        → Comes command asks end
        → DidNotFail (F.failed_reads old.files) (F.failed_reads new.files) (reads_in asks)
        → DidNotFailToWrite (F.failed_writes old.files) (F.failed_writes new.files) asks
        → (status ≡ 4 → ⊥) → (status ≡ 10 → ⊥)
        → Follows (O.faults old.sink) (O.faults new.sink) end status }
{
    one_end();
    stores_open_to_one();
}
