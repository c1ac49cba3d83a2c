//! The law of compiled code. It is the contract of a function that does nothing but name the laws that it stands on.
ghost use Rattle.std.specs.Prelude.{◌≡◌, ℕ, Some, Ok, slice_get};
ghost use Rattle.sed_typed.specs.declared.program.Program.{Program as AnyProgram};
ghost use Rattle.sed_typed.specs.Typed.{Typed};
ghost use Rattle.sed_engine.specs.Asked.{MayAsk};
ghost use Rattle.sed_engine.specs.Code.{Question};
ghost use Rattle.sed_engine.specs.Program.{code_of};
ghost use Rattle.sed_engine.specs.Root.{argument_of, calls_with, most_frames, root, root_frame, root_method};
ghost use Rattle.sed_engine.specs.Values.{Val};
ghost use Rattle.scode_image.specs.declared.image.Image.{Image as AnyImage};
ghost use Rattle.scode_code.specs.Root as machine;
ghost use Rattle.scode_code.specs.Root.{begins, most_steps};
ghost use Rattle.scode_code.specs.Steps.{steps};
ghost use Rattle.scode_emit.specs.Site.{Layout as AnyLayout};
ghost use Rattle.scode_sim.specs.Made.{IsMade};
ghost use Rattle.scode_sim.specs.Reaches.{IsOver, Reaches, begun_with, setting_of};

use scode_emit::instructions_stand_where_they_start;
use sed_engine::what_may_be_asked;

/// Where an image is made of a typed program, and a root call that may be asked runs a method: from the start of that
/// method in the image, with the same argument, the machine reaches what the source's method comes to. So it is over by
/// the same value or the same trap, and leaves the same contents, statics and turns.
pub fn compiled_roots_reach_what_they_mean()
    ensures { (program : AnyProgram) (layout : AnyLayout) (image : AnyImage) (q : Question)
        (number : ℕ) (value : Val) → Typed program → IsMade program layout image → MayAsk (code_of program) q
        → root_method program q.class q.which ≡ Ok (Some number) → argument_of q.argument ≡ Ok value
        → Reaches (setting_of image q) (begins (slice_get image.methods number) number value (begun_with q))
        (calls_with program q.class most_frames number (root_frame value) (begun_with q)) }
{
    instructions_stand_where_they_start();
    what_may_be_asked();
}

/// Where the root call of the image runs the same method besides, and its machine is over within its bound, as that of
/// a verified image is: the image's root call is the program's, whatever it leaves and however it ends.
pub fn compiled_roots_are_the_same()
    ensures { (program : AnyProgram) (layout : AnyLayout) (image : AnyImage) (q : Question)
        → Typed program → IsMade program layout image → MayAsk (code_of program) q
        → machine.root_method image q.class q.which ≡ root_method program q.class q.which
        → ((number : ℕ) (value : Val) → root_method program q.class q.which ≡ Ok (Some number)
        → argument_of q.argument ≡ Ok value
        → IsOver (steps (setting_of image q) (most_steps image q.turns)
        (begins (slice_get image.methods number) number value (begun_with q))))
        → machine.root image q.class q.contents q.statics q.which q.argument q.turns q.moment
        ≡ root program q.class q.contents q.statics q.which q.argument q.turns q.moment }
{
    instructions_stand_where_they_start();
    what_may_be_asked();
}
