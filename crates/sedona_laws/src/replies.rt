//! The law of the replies of a run.
ghost use Rattle.std.specs.Prelude.{◌≡◌, ℕ, true, List, [], ◌∷◌, Ok};
ghost use Rattle.sed_outside.specs.Reads.{HasReads};
ghost use Rattle.sed_node.specs.Running.{ComesTo};
ghost use Rattle.sedona_words.specs.Command.{NodeAsked, Replay, Run, RunAsked};
ghost use Rattle.sedona_cli.specs.Does.{Does};
ghost use Rattle.sedona_cli.specs.Given.{Given, GivenRecord};
ghost use Rattle.sedona_cli.specs.Outside.{Ran, of_reads};
ghost use Rattle.sedona_cli.specs.Puts.{IsOneOf};
ghost use Rattle.sedona_cli.specs.Replay.{InputsRead};
ghost use Rattle.sedona_laws.specs.Replayed.{Replayed};
ghost use Rattle.sedona_cli.specs.Run.{RunInputsRead, RunsKept};
ghost use Rattle.sedona_cli.specs.World.{World};
ghost use Rattle.sedona_laws.specs.Replies.{NoReplyIs26};

use crate::replaying::replays_are_of_the_record;
use crate::running::runs_are_of_the_link_and_the_clock;
use disk_model::Disk;
use node_events::{replies_are_sent, replies_show_what_went_wrong, runs_follow_one_another};
use sed_outside::{Clock, Files, Link, Sink};

/// No reply that a run sends is want of memory (26): the machine takes all memory before the first event. So it is in
/// each run whose entries came to its events without want of memory, and in the runs that `replay` and `run` tell of.
pub fn no_reply_is_26<F: Files, L: Link, C: Clock, D: Disk, O: Sink>()
    ensures events { (ran : Ran) (before now : ℕ) → ComesTo true ran.entries before now ran.events → NoReplyIs26 ran }
    ensures replay { (asked : NodeAsked) (file : List ℕ) (old new : World F L C D O) (status : ℕ)
        → Does F.Files L.Link C.Clock D.Disk O.Sink (Replay asked file) old new status
        → IsOneOf (0 ∷ 8 ∷ []) status
        → HasReads F.Files old.files new.files (λ reads. (given : GivenRecord)
        × InputsRead asked file (of_reads reads) (Ok given)
        × (told : Replayed D.Disk asked given (O.text old.sink) (O.text new.sink) status old.disk new.disk)
        × NoReplyIs26 told.ran) }
    ensures run { (asked : RunAsked) (old new : World F L C D O) (status : ℕ)
        → Does F.Files L.Link C.Clock D.Disk O.Sink (Run asked) old new status
        → IsOneOf (0 ∷ 8 ∷ []) status
        → HasReads F.Files old.files new.files (λ reads. (given : Given)
        × RunInputsRead asked.node (of_reads reads) (Ok given)
        × (told : RunsKept D.Disk L.Link C.Clock asked given (O.text old.sink) (O.text new.sink) status
        old.link new.link old.clock new.clock old.disk new.disk)
        × NoReplyIs26 told.ran) }
{
    replies_are_sent();
    replies_show_what_went_wrong();
    runs_follow_one_another();
    replays_are_of_the_record::<F, L, C, D, O>();
    runs_are_of_the_link_and_the_clock::<F, L, C, D, O>();
}
