//! Laws of the store.
ghost use Rattle.std.specs.Prelude.{◌≡◌, ◌≢◌, ℕ, IsTrue, List, [], ◌∷◌, length};
ghost use Rattle.sed_outside.specs.Cause.{Rose};
ghost use Rattle.sedona_words.specs.Command.{Command, New, store_of};
ghost use Rattle.sedona_cli.specs.Does.{Does};
ghost use Rattle.sedona_laws.specs.Attached.{AsksStore};
ghost use Rattle.sedona_cli.specs.Program.{SparesDisk};
ghost use Rattle.sedona_cli.specs.Puts.{IsOneOf};
ghost use Rattle.sedona_cli.specs.World.{World};
ghost use Rattle.sedona_laws.specs.Answers.{Answers};

use disk_model::Disk;
use sed_outside::{Clock, Files, Link, Sink};

/// The store is attached exactly where the steps come to it, once and by the name given; 4 comes only where the disk
/// failed; 5 of `new` only where its file is not empty. With want of memory, with 5 and with 10, the file is as it was.
pub fn stores_are_attached_once<F: Files, L: Link, C: Clock, D: Disk, O: Sink>()
    ensures attached { (command : Command) (old new : World F L C D O) (status : ℕ)
        → Does F.Files L.Link C.Clock D.Disk O.Sink command old new status
        → AsksStore D.Disk (store_of command) status old.disk new.disk }
    ensures device_fault { (words : List (List ℕ)) (old new : World F L C D O) (status : ℕ)
        → Answers F.Files L.Link C.Clock D.Disk O.Sink words old new status
        → status ≡ 4 → Rose (D.meaning old.disk).faults (D.meaning new.disk).faults }
    ensures exists { (names : List (List ℕ)) (store : List ℕ) (slot : ℕ) (old new : World F L C D O) (status : ℕ)
        → Does F.Files L.Link C.Clock D.Disk O.Sink (New names store slot) old new status
        → status ≡ 5 → IsTrue (D.meaning old.disk).tells → length (D.meaning old.disk).content ≢ 0 }
    ensures spared { (words : List (List ℕ)) (old new : World F L C D O) (status : ℕ)
        → Answers F.Files L.Link C.Clock D.Disk O.Sink words old new status
        → IsOneOf (5 ∷ 7 ∷ 10 ∷ []) status → SparesDisk (D.meaning old.disk) (D.meaning new.disk) }
{}
