//! The laws of the text of which what is put is a front, whatever the status.
ghost use Rattle.std.specs.Prelude.{◌≡◌, ℕ, List, Option, Result};
ghost use Rattle.sedona_words.specs.Command.{Command, output_of};
ghost use Rattle.sedona_cli.specs.declared.refusal.Refusal.{Refusal};
ghost use Rattle.sedona_cli.specs.Does.{Does};
ghost use Rattle.sedona_cli.specs.Outside.{Ask};
ghost use Rattle.sedona_cli.specs.Program.{IsAnswer};
ghost use Rattle.sedona_cli.specs.World.{World};
ghost use Rattle.sedona_cli.specs.Writing.{AsksOf};
ghost use Rattle.sedona_laws.specs.Agree.{AgreeOnAll};
ghost use Rattle.sedona_laws.specs.Texts.{ComesSoFar, PutFronts, PutsText};

use app_file::bytes_are_read_as_one;
use app_writer::texts_alone_are_alike;
use dasp_msg::messages_have_one_text;
use disk_model::Disk;
use input_files::inputs_agree;
use scode_compile::programs_alike_are_refused_alike;
use sed_check::loads_agree;
use sed_outside::{Clock, Files, Link, Sink};

/// Of answers that agree, and where runs that begin alike are one, a command comes to one end, its text too: also a
/// replay that was stopped, whose text is that of its run so far.
pub fn one_text_so_far()
    ensures { (command : Command) (asks others : List Ask) (end other : Result (List ℕ) Refusal)
        → AgreeOnAll asks others
        → ComesSoFar command asks end → ComesSoFar command others other → end ≡ other }
{
    loads_agree();
    programs_alike_are_refused_alike();
    inputs_agree();
    texts_alone_are_alike();
    bytes_are_read_as_one();
    messages_have_one_text();
}

/// Whatever the status, what is put is a front of the text of an end that has this status, and all of it where the sink
/// did not fail. And two that do one command put fronts of one text, where their answers agree, runs that begin alike
/// are one, and neither has status 7. So it is of any two answers, and of any two worlds between which the command was
/// done: what was asked in each is that for which it was answered.
pub fn fronts_put_are_of_one_text<F: Files, L: Link, C: Clock, D: Disk, O: Sink>()
    ensures text { (command : Command) (asks : List Ask) (before after : Option (List ℕ))
        (faults faults_now status : ℕ) → IsAnswer command asks before after faults faults_now status
        → PutsText command asks before after faults faults_now status }
    ensures answers { (command : Command) (asks others : List Ask) (before after earlier later : Option (List ℕ))
        (faults faults_now counts counts_now status number : ℕ) → AgreeOnAll asks others
        → IsAnswer command asks before after faults faults_now status
        → IsAnswer command others earlier later counts counts_now number
        → (status ≡ 7 → ⊥) → (number ≡ 7 → ⊥) → PutFronts command asks before after earlier later }
    ensures worlds { (command : Command) (old new other last : World F L C D O) (status number : ℕ)
        → Does F.Files L.Link C.Clock D.Disk O.Sink command old new status
        → Does F.Files L.Link C.Clock D.Disk O.Sink command other last number
        → (status ≡ 7 → ⊥) → (number ≡ 7 → ⊥)
        → AsksOf F.Files D.Disk (output_of command) old.files new.files old.disk new.disk (λ asks.
        AsksOf F.Files D.Disk (output_of command) other.files last.files other.disk last.disk (λ others.
        IsAnswer command asks (O.text old.sink) (O.text new.sink) (O.faults old.sink) (O.faults new.sink) status
        × IsAnswer command others (O.text other.sink) (O.text last.sink) (O.faults other.sink) (O.faults last.sink)
        number
        × (AgreeOnAll asks others
        → PutFronts command asks (O.text old.sink) (O.text new.sink) (O.text other.sink) (O.text last.sink)))) }
{
    one_text_so_far();
}
