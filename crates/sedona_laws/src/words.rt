//! Laws of all words, and of those outside the table.
ghost use Rattle.std.specs.Prelude.{◌≡◌, ℕ, false, None, List, [], ◌∷◌};
ghost use Rattle.sedona_cli.specs.Lines.{memory_line, usage_line};
ghost use Rattle.sedona_cli.specs.Puts.{IsOneOf, Puts};
ghost use Rattle.sedona_cli.specs.Words.{command_asked, is_run};
ghost use Rattle.sedona_cli.specs.World.{World};
ghost use Rattle.sedona_laws.specs.Answers.{Answers};

use disk_model::Disk;
use sed_outside::{Clock, Files, Link, Sink};

/// The statuses that there are.
pub fn statuses_are_thirteen<F: Files, L: Link, C: Clock, D: Disk, O: Sink>()
    ensures statuses { (words : List (List ℕ)) (old new : World F L C D O) (status : ℕ)
        → Answers F.Files L.Link C.Clock D.Disk O.Sink words old new status
        → IsOneOf (0 ∷ 1 ∷ 2 ∷ 3 ∷ 4 ∷ 5 ∷ 6 ∷ 7 ∷ 8 ∷ 9 ∷ 10 ∷ 11 ∷ 12 ∷ []) status }
{}

/// 1: exactly where the words are outside the table of words, unless memory was wanted for those behind `run`, which is
/// told as 7. Nothing is asked of the outside then, with 1 as with 7.
pub fn words_outside_the_table_do_nothing<F: Files, L: Link, C: Clock, D: Disk, O: Sink>()
    ensures usage { (words : List (List ℕ)) (old new : World F L C D O) (status : ℕ)
        → Answers F.Files L.Link C.Clock D.Disk O.Sink words old new status
        → status ≡ 1 → command_asked words ≡ None }
    ensures usage_comes { (words : List (List ℕ)) (old new : World F L C D O) (status : ℕ)
        → Answers F.Files L.Link C.Clock D.Disk O.Sink words old new status
        → command_asked words ≡ None → IsOneOf (1 ∷ 7 ∷ []) status }
    ensures usage_sure { (words : List (List ℕ)) (old new : World F L C D O) (status : ℕ)
        → Answers F.Files L.Link C.Clock D.Disk O.Sink words old new status
        → is_run words ≡ false → command_asked words ≡ None → status ≡ 1 }
    ensures usage_line { (words : List (List ℕ)) (old new : World F L C D O) (status : ℕ)
        → Answers F.Files L.Link C.Clock D.Disk O.Sink words old new status
        → status ≡ 1 → Puts (O.text old.sink) (O.text new.sink) (O.faults old.sink) (O.faults new.sink) usage_line }
    ensures usage_wanted { (words : List (List ℕ)) (old new : World F L C D O) (status : ℕ)
        → Answers F.Files L.Link C.Clock D.Disk O.Sink words old new status
        → command_asked words ≡ None → status ≡ 7
        → Puts (O.text old.sink) (O.text new.sink) (O.faults old.sink) (O.faults new.sink) memory_line }
    ensures usage_files { (words : List (List ℕ)) (old new : World F L C D O) (status : ℕ)
        → Answers F.Files L.Link C.Clock D.Disk O.Sink words old new status
        → command_asked words ≡ None → new.files ≡ old.files }
    ensures usage_disk { (words : List (List ℕ)) (old new : World F L C D O) (status : ℕ)
        → Answers F.Files L.Link C.Clock D.Disk O.Sink words old new status
        → command_asked words ≡ None → new.disk ≡ old.disk }
    ensures usage_link { (words : List (List ℕ)) (old new : World F L C D O) (status : ℕ)
        → Answers F.Files L.Link C.Clock D.Disk O.Sink words old new status
        → command_asked words ≡ None → new.link ≡ old.link }
    ensures usage_clock { (words : List (List ℕ)) (old new : World F L C D O) (status : ℕ)
        → Answers F.Files L.Link C.Clock D.Disk O.Sink words old new status
        → command_asked words ≡ None → new.clock ≡ old.clock }
{}
