//! The law of the text that is put where all was done.
ghost use Rattle.std.specs.Prelude.{◌≡◌, ℕ, List, Option};
ghost use Rattle.sedona_words.specs.Command.{Command, output_of};
ghost use Rattle.sedona_cli.specs.Does.{Does};
ghost use Rattle.sedona_cli.specs.Outside.{Ask};
ghost use Rattle.sedona_cli.specs.Program.{IsAnswer};
ghost use Rattle.sedona_cli.specs.World.{World};
ghost use Rattle.sedona_cli.specs.Writing.{AsksOf};
ghost use Rattle.sedona_laws.specs.Agree.{AgreeOnAll};
ghost use Rattle.sedona_laws.specs.Texts.{PutOne};

use crate::ends::one_text;
use disk_model::Disk;
use sed_outside::{Clock, Files, Link, Sink};

/// Two that do one command with status 0 put one text, where their answers agree and runs that begin alike are one. So
/// it is of any two answers, and of any two worlds between which the command was done: what was asked in each is that
/// for which it was answered.
pub fn texts_put_are_one<F: Files, L: Link, C: Clock, D: Disk, O: Sink>()
    ensures answers { (command : Command) (asks others : List Ask) (before after earlier later : Option (List ℕ))
        (faults faults_now counts counts_now : ℕ) → AgreeOnAll asks others
        → IsAnswer command asks before after faults faults_now 0
        → IsAnswer command others earlier later counts counts_now 0 → PutOne before after earlier later }
    ensures worlds { (command : Command) (old new other last : World F L C D O)
        → Does F.Files L.Link C.Clock D.Disk O.Sink command old new 0
        → Does F.Files L.Link C.Clock D.Disk O.Sink command other last 0
        → AsksOf F.Files D.Disk (output_of command) old.files new.files old.disk new.disk (λ asks.
        AsksOf F.Files D.Disk (output_of command) other.files last.files other.disk last.disk (λ others.
        IsAnswer command asks (O.text old.sink) (O.text new.sink) (O.faults old.sink) (O.faults new.sink) 0
        × IsAnswer command others (O.text other.sink) (O.text last.sink) (O.faults other.sink) (O.faults last.sink) 0
        × (AgreeOnAll asks others
        → PutOne (O.text old.sink) (O.text new.sink) (O.text other.sink) (O.text last.sink)))) }
{
    one_text();
}
