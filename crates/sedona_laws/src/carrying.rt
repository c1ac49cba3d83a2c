//! The law of compiled code.
ghost use Rattle.std.specs.Prelude.{◌≡◌, ◌↔◌, ℕ, ℤ, List};
ghost use Rattle.sed_typed.specs.declared.program.Program.{Program as AnyProgram};
ghost use Rattle.sed_typed.specs.Contents.{Contents};
ghost use Rattle.sed_engine.specs.Code.{Places};
ghost use Rattle.sed_engine.specs.Program.{meaning_of};
ghost use Rattle.scode_image.specs.declared.image.Image.{Image as AnyImage};
ghost use Rattle.scode_code.specs.Faults.{IsVerified};
ghost use Rattle.scode_code.specs.Image as made;
ghost use Rattle.sed_cycles.specs.Cycles.{text_after};
ghost use Rattle.comp_tree.specs.Application.{Application};
ghost use Rattle.comp_tree.specs.Cycle.{Begin, Cycle};
ghost use Rattle.comp_tree.specs.Edit.{Command as EditAsked, Edit};
ghost use Rattle.sox_msg.specs.Command.{Asked};
ghost use Rattle.sox_serve.specs.Answer.{answer};
ghost use Rattle.dasp_session.specs.declared.user.User.{User};
ghost use Rattle.node_events.specs.Node.{Node, Setup, opened};
ghost use Rattle.node_events.specs.Running.{Event, run, sent_by};
ghost use Rattle.sedona_laws.specs.Carrying.{IsOf};
ghost use Rattle.sedona_laws.specs.Steps.{AreSteps, ChooseAlike, Gave, State, Step, keeping};

use scode_agree::image_tables_agree;
use scode_compile::images_are_read_as_their_programs;
use scode_fine::generated_code_breaks_no_rule;
use scode_made::images_mean_their_programs;

/// An image of a program runs as the program: the image that the compiler makes of it, and whatever the text of such an
/// image is read as. It breaks no rule, and means what the program means. So whatever is defined over a code is the
/// same of both, as it is written out here.
///
/// - Calls of an engine, one after another: of two engines that keep the same, the one of the image and the other of
///   the program, which are asked the same and make new objects at the same places. They give the same values and ends,
///   with the same turns left, and want of data at the same calls, and keep the same contents and statics. And what an
///   engine of the one may do, one of the other may.
/// - What a component prints after its cycles; a command to an application, and how a request is answered; a cycle of
///   an application, and its begin.
/// - A run of a node: how it begins, and from any node on what its events come to, what was sent, saved and counted,
///   and what each of them sent.
pub fn images_run_as_their_programs()
    ensures means { (program : AnyProgram) (image : AnyImage) → IsOf program image
        → IsVerified image × (made.meaning_of image ≡ meaning_of program) }
    ensures engines { (program : AnyProgram) (image : AnyImage) → IsOf program image
        → (live : Places) (statics : Contents) (limit : ℕ) (steps : List Step) (gave given : List Gave)
        (new end : State)
        → AreSteps steps gave (keeping (made.meaning_of image) live statics limit) new
        → AreSteps steps given (keeping (meaning_of program) live statics limit) end
        → ChooseAlike gave given → (gave ≡ given) × (new ≡ end) }
    ensures engine_steps { (program : AnyProgram) (image : AnyImage) → IsOf program image
        → (live : Places) (statics : Contents) (limit : ℕ) (steps : List Step) (gave : List Gave) (new : State)
        → AreSteps steps gave (keeping (made.meaning_of image) live statics limit) new
        ↔ AreSteps steps gave (keeping (meaning_of program) live statics limit) new }
    ensures printed { (program : AnyProgram) (image : AnyImage) → IsOf program image → (cycles : ℕ)
        → text_after (made.meaning_of image) cycles ≡ text_after (meaning_of program) cycles }
    ensures edits { (program : AnyProgram) (image : AnyImage) → IsOf program image
        → (a : Application) (command : EditAsked) (turns : ℕ) (moment : ℤ)
        → Edit (made.meaning_of image) a command turns moment ≡ Edit (meaning_of program) a command turns moment }
    ensures requests { (program : AnyProgram) (image : AnyImage) → IsOf program image
        → (a : Application) (asked : Asked) (turns : ℕ) (moment : ℤ)
        → answer (made.meaning_of image) a asked turns moment ≡ answer (meaning_of program) a asked turns moment }
    ensures cycles { (program : AnyProgram) (image : AnyImage) → IsOf program image
        → (a : Application) (turns : ℕ) (moment : ℤ)
        → Cycle (made.meaning_of image) a turns moment ≡ Cycle (meaning_of program) a turns moment }
    ensures starts { (program : AnyProgram) (image : AnyImage) → IsOf program image
        → (a : Application) (turns : ℕ) (moment : ℤ)
        → Begin (made.meaning_of image) a turns moment ≡ Begin (meaning_of program) a turns moment }
    ensures nodes { (program : AnyProgram) (image : AnyImage) → IsOf program image
        → (s : Setup) (a : Application) (users : List User) (secret : List ℕ) (moment : ℤ)
        → opened (made.meaning_of image) s a users secret moment ≡ opened (meaning_of program) s a users secret moment }
    ensures runs { (program : AnyProgram) (image : AnyImage) → IsOf program image
        → (s : Setup) (n : Node) (events : List Event)
        → run (made.meaning_of image) s n events ≡ run (meaning_of program) s n events }
    ensures letters { (program : AnyProgram) (image : AnyImage) → IsOf program image
        → (s : Setup) (n : Node) (events : List Event)
        → sent_by (made.meaning_of image) s n events ≡ sent_by (meaning_of program) s n events }
{
    generated_code_breaks_no_rule();
    image_tables_agree();
    images_are_read_as_their_programs();
    images_mean_their_programs();
}
