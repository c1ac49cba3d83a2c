//! Laws of `run`.
ghost use Rattle.std.specs.Prelude.{◌≡◌, ℕ, IsTrue, List, [], ◌∷◌};
ghost use Rattle.sedona_words.specs.Command.{Run, RunAsked};
ghost use Rattle.sedona_cli.specs.Does.{Does};
ghost use Rattle.sedona_cli.specs.Puts.{IsOneOf};
ghost use Rattle.sedona_cli.specs.Run.{RanBy, RunsNone};
ghost use Rattle.sedona_cli.specs.World.{World};

use app_file::bytes_are_read_as_one;
use app_save::stores_open_to_one;
use disk_model::Disk;
use sed_outside::{Clock, Files, Link, Sink};

/// What `run` puts is what stands at the end of a run from the application that its store opens to, from the clock's
/// next moment on, over the polls of the link and the moments behind that one; with 8 a front of it. What an event sent
/// was offered before the next poll. As many sleeps were asked as cycles were done, each behind the moment of its tick
/// and before the next one; how sleeps stand to polls isn't said. Of the store the same holds as of `replay`.
pub fn runs_are_of_the_link_and_the_clock<F: Files, L: Link, C: Clock, D: Disk, O: Sink>()
    ensures ran { (asked : RunAsked) (old new : World F L C D O) (status : ℕ)
        → Does F.Files L.Link C.Clock D.Disk O.Sink (Run asked) old new status
        → IsOneOf (0 ∷ 8 ∷ []) status
        → RanBy F.Files D.Disk L.Link C.Clock asked old.files new.files old.link new.link old.clock new.clock
        old.disk new.disk (O.text old.sink) (O.text new.sink) status }
    ensures runs_none { (asked : RunAsked) (old new : World F L C D O) (status : ℕ)
        → Does F.Files L.Link C.Clock D.Disk O.Sink (Run asked) old new status
        → status ≡ 5 → IsTrue (D.meaning old.disk).tells
        → RunsNone F.Files asked.node old.files new.files (D.meaning old.disk) }
{
    stores_open_to_one();
    bytes_are_read_as_one();
}
