//! Laws of `show`.
ghost use Rattle.std.specs.Prelude.{◌≡◌, ℕ, IsTrue, List, [], ◌∷◌};
ghost use Rattle.sedona_words.specs.Command.{Show};
ghost use Rattle.sedona_cli.specs.Does.{Does};
ghost use Rattle.sedona_cli.specs.Puts.{IsOneOf};
ghost use Rattle.sedona_laws.specs.Shown.{OpensToNone, ShowsKept};
ghost use Rattle.sedona_cli.specs.World.{World};

use app_file::bytes_are_read_as_one;
use app_save::stores_open_to_one;
use disk_model::Disk;
use sed_outside::{Clock, Files, Link, Sink};

/// What `show` puts is the application that its store opens to, and 5 comes only where it opens to none.
pub fn what_is_shown_is_kept<F: Files, L: Link, C: Clock, D: Disk, O: Sink>()
    ensures shown { (names : List (List ℕ)) (store : List ℕ) (limit : ℕ) (old new : World F L C D O) (status : ℕ)
        → Does F.Files L.Link C.Clock D.Disk O.Sink (Show names store limit) old new status
        → IsOneOf (0 ∷ 8 ∷ []) status
        → ShowsKept F.Files names limit old.files new.files (D.meaning old.disk) (D.meaning new.disk)
        (O.text old.sink) (O.text new.sink) status }
    ensures opens_to_none { (names : List (List ℕ)) (store : List ℕ) (limit : ℕ) (old new : World F L C D O)
        (status : ℕ)
        → Does F.Files L.Link C.Clock D.Disk O.Sink (Show names store limit) old new status
        → status ≡ 5 → IsTrue (D.meaning old.disk).tells
        → OpensToNone F.Files names limit old.files new.files (D.meaning old.disk) }
{
    stores_open_to_one();
    bytes_are_read_as_one();
}
