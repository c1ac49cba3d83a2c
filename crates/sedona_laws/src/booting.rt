//! The law of `compile` and `boot`.
ghost use Rattle.std.specs.Prelude.{◌≡◌, ◌≢◌, ℕ, List, [], ◌∷◌};
ghost use Rattle.sedona_words.specs.Command.{Compile, OfImage, Run, RunAsked};
ghost use Rattle.sedona_cli.specs.Does.{Does};
ghost use Rattle.sedona_cli.specs.Puts.{IsOneOf};
ghost use Rattle.sedona_cli.specs.World.{World};
ghost use Rattle.sedona_laws.specs.Booting.{BootsKits, DoesAsRun, SameFile};

use crate::running::runs_are_of_the_link_and_the_clock;
use disk_model::Disk;
use scode_code::first_broken_is_least;
use scode_compile::images_are_read_as_their_programs;
use scode_image::bytes_are_an_image_or_fault;
use sed_check::failed_loads_are_told;
use sed_outside::{Clock, Files, Link, Sink};

/// `boot`, from the file that `compile` left, is `run` over the kits. `compile` ended with 0 or 8, and where files tell
/// what they hold, its output file holds the same when `boot` begins. Between the two, and before, anything may happen:
/// of the four worlds nothing else is asked.
///
/// With 0 and 8 it ran what the kits mean that `compile` read, as `run` over these kits does. It never refuses the
/// image. And whatever its status: where the kits still hold what was read of them, it did what `run` does over them,
/// unless it could not read the image, which it then tells.
pub fn images_boot_as_their_kits_run<F: Files, L: Link, C: Clock, D: Disk, O: Sink>()
    ensures booted { (out : List ℕ) (names : List (List ℕ)) (asked : RunAsked) (made now old new : World F L C D O)
        (ended status : ℕ)
        → Does F.Files L.Link C.Clock D.Disk O.Sink (Compile out names) made now ended → IsOneOf (0 ∷ 8 ∷ []) ended
        → SameFile F.Files out now.files old.files → asked.node.code ≡ OfImage out
        → Does F.Files L.Link C.Clock D.Disk O.Sink (Run asked) old new status → IsOneOf (0 ∷ 8 ∷ []) status
        → BootsKits F.Files L.Link C.Clock D.Disk O.Sink out names asked made old new status }
    ensures not_refused { (out : List ℕ) (names : List (List ℕ)) (asked : RunAsked)
        (made now old new : World F L C D O) (ended status : ℕ)
        → Does F.Files L.Link C.Clock D.Disk O.Sink (Compile out names) made now ended → IsOneOf (0 ∷ 8 ∷ []) ended
        → SameFile F.Files out now.files old.files → asked.node.code ≡ OfImage out
        → Does F.Files L.Link C.Clock D.Disk O.Sink (Run asked) old new status → status ≢ 6 }
    ensures as_run { (out : List ℕ) (names : List (List ℕ)) (asked : RunAsked) (made now old new : World F L C D O)
        (ended status : ℕ)
        → Does F.Files L.Link C.Clock D.Disk O.Sink (Compile out names) made now ended → IsOneOf (0 ∷ 8 ∷ []) ended
        → SameFile F.Files out now.files old.files → asked.node.code ≡ OfImage out
        → Does F.Files L.Link C.Clock D.Disk O.Sink (Run asked) old new status
        → DoesAsRun F.Files L.Link C.Clock D.Disk O.Sink out names asked made old new status }
{
    bytes_are_an_image_or_fault();
    failed_loads_are_told();
    first_broken_is_least();
    images_are_read_as_their_programs();
    runs_are_of_the_link_and_the_clock::<F, L, C, D, O>();
}
