//! What a command comes to is one, and tells which reads failed. Each is the contract of a function that does nothing.
ghost use Rattle.std.specs.Prelude.{◌≡◌, ℕ, List, Result};
ghost use Rattle.sed_typed.specs.declared.program.Program.{Program as AnyProgram};
ghost use Rattle.sed_engine.specs.Program.{meaning_of};
ghost use Rattle.sed_check.specs.Refusals.{AreAlike};
ghost use Rattle.sedona_cli.specs.declared.refusal.Refusal.{Refusal};
ghost use Rattle.sedona_laws.specs.Agree.{AgreeOn, AgreeOnAll, failed_by, failed_calls};
ghost use Rattle.sedona_words.specs.Command.{Command, output_of};
ghost use Rattle.sedona_cli.specs.Outside.{Ask};
ghost use Rattle.sedona_cli.specs.Program.{Comes, refusal_by};

use app_file::bytes_are_read_as_one;
use app_writer::texts_alone_are_alike;
use dasp_msg::messages_have_one_text;
use input_files::{failed_inputs_are_told, inputs_agree};
use scode_compile::programs_alike_are_refused_alike;
use sed_check::{failed_loads_are_told, loads_agree};

/// Of answers that agree a command comes to one end: to texts, or to one refusal.
pub fn one_end()
    ensures { (command : Command) (asks others : List Ask) (end other : Result (List ℕ) Refusal) → AgreeOn asks others
        → Comes command asks end → Comes command others other → refusal_by end ≡ refusal_by other }
{
    loads_agree();
    programs_alike_are_refused_alike();
    inputs_agree();
    texts_alone_are_alike();
    bytes_are_read_as_one();
}

/// Programs that are the same, but for where the trees of their bodies lie in memory, mean one code.
pub fn programs_mean_one()
    ensures { (program other : AnyProgram) → AreAlike program other → meaning_of program ≡ meaning_of other }
{}

/// Of answers that agree, and where runs that begin alike are one, a command comes to one end, its text too: what it
/// prints is a function of what it was answered. A program may lie elsewhere in memory each time that it is loaded;
/// what it means is one.
pub fn one_text()
    ensures { (command : Command) (asks others : List Ask) (end other : Result (List ℕ) Refusal)
        → AgreeOnAll asks others
        → Comes command asks end → Comes command others other → end ≡ other }
{
    one_end();
    loads_agree();
    programs_alike_are_refused_alike();
    inputs_agree();
    programs_mean_one();
    bytes_are_read_as_one();
    messages_have_one_text();
}

/// The reads and writes that failed are those that the end tells: none with a text, and the file of a file fault.
pub fn failed_reads_end_it()
    ensures { (command : Command) (asks : List Ask) (end : Result (List ℕ) Refusal)
        → Comes command asks end → failed_calls (output_of command) asks ≡ failed_by end }
{
    failed_loads_are_told();
    failed_inputs_are_told();
}
