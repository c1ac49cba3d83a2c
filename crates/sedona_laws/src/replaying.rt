//! Laws of `replay`.
ghost use Rattle.std.specs.Prelude.{◌≡◌, ℕ, IsTrue, List, [], ◌∷◌};
ghost use Rattle.sedona_words.specs.Command.{NodeAsked, Replay};
ghost use Rattle.sedona_cli.specs.Does.{Does};
ghost use Rattle.sedona_cli.specs.Puts.{IsOneOf};
ghost use Rattle.sedona_laws.specs.Replayed.{HoldsNone, ReplayedBy};
ghost use Rattle.sedona_cli.specs.World.{World};

use app_file::bytes_are_read_as_one;
use app_save::stores_open_to_one;
use disk_model::Disk;
use sed_outside::{Clock, Files, Link, Sink};

/// What `replay` puts is the text of a run from the application that its store opens to, with 8 up to where the sink
/// failed: it stops after the event whose line that was. Each save that was acknowledged made a mark, and whenever it
/// is stopped, from the opening's sync on, the store opens to an application that was opened or saved, and to none
/// before the last one acknowledged. 5 comes only where it opens to none.
pub fn replays_are_of_the_record<F: Files, L: Link, C: Clock, D: Disk, O: Sink>()
    ensures replayed { (asked : NodeAsked) (file : List ℕ) (old new : World F L C D O) (status : ℕ)
        → Does F.Files L.Link C.Clock D.Disk O.Sink (Replay asked file) old new status
        → IsOneOf (0 ∷ 8 ∷ []) status
        → ReplayedBy F.Files D.Disk asked file old.files new.files old.disk new.disk
        (O.text old.sink) (O.text new.sink) status }
    ensures holds_none { (asked : NodeAsked) (file : List ℕ) (old new : World F L C D O) (status : ℕ)
        → Does F.Files L.Link C.Clock D.Disk O.Sink (Replay asked file) old new status
        → status ≡ 5 → IsTrue (D.meaning old.disk).tells
        → HoldsNone F.Files asked file old.files new.files (D.meaning old.disk) }
{
    stores_open_to_one();
    bytes_are_read_as_one();
}
