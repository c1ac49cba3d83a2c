//! The laws that tie images to programs. Each is the contract of a function that does nothing but name the laws that
//! it stands on.
ghost use Rattle.std.specs.Prelude.{◌≡◌, ◌<◌, ℕ, All, IsSome, Ok, Some, length, slice_get};
ghost use Rattle.sed_typed.specs.declared.program.Method.{Method as AnyMethod};
ghost use Rattle.sed_typed.specs.declared.program.Program.{Program as AnyProgram};
ghost use Rattle.sed_typed.specs.Spelled.{IsSpelledOut};
ghost use Rattle.sed_typed.specs.Typed.{Typed};
ghost use Rattle.sed_engine.specs.Asked.{MayAsk, may_ask};
ghost use Rattle.sed_engine.specs.Carries.{Carries};
ghost use Rattle.sed_engine.specs.Code.{Question, slot_type};
ghost use Rattle.sed_engine.specs.Program.{code_of, meaning_of};
ghost use Rattle.sed_engine.specs.Root.{argument_of, root, root_method};
ghost use Rattle.sed_engine.specs.Values.{Val};
ghost use Rattle.scode_code.specs.Faults.{IsVerified};
ghost use Rattle.scode_code.specs.Image as made;
ghost use Rattle.scode_code.specs.Root as machine;
ghost use Rattle.scode_code.specs.Root.{begins, most_steps};
ghost use Rattle.scode_code.specs.Steps.{steps};
ghost use Rattle.scode_code.specs.Tables.{schema_of};
ghost use Rattle.scode_entries.specs.Cases.{EachCaseOf, Has32Bits};
ghost use Rattle.scode_gen.specs.Generated.{IsShort, image_layout, image_of};
ghost use Rattle.scode_made.specs.Laid.{IsLaid, IsTabled};
ghost use Rattle.scode_sim.specs.Made.{IsMade};
ghost use Rattle.scode_sim.specs.Reaches.{IsOver, begun_with, setting_of};

use scode_entries::code_exists;
use scode_sim::compiled_roots_are_the_same;
use scode_sound::{verified_calls_are_over, verified_images_are_whole};
use sed_engine::{
    carried_codes_are_one, masked_codes_answer, typed_programs_are_whole, what_may_be_asked,
};
use sed_layout::{
    data_is_the_sum_of_fields, fields_do_not_overlap, fields_lie_within, fields_take_bytes,
    inherited_fields_keep_their_offsets, names_keep_their_places, numbers_are_small,
    places_hold_the_nearest_method, statics_do_not_overlap, statics_lie_within,
    system_methods_have_the_first_places, tables_have_each_virtual_method,
    virtual_methods_have_places,
};

/// Of a typed program, all that the laws of layouts say of where its data lie, and of its tables of virtual methods.
pub fn typed_programs_are_laid()
    ensures laid { (program : AnyProgram) → Typed program → IsLaid program }
    ensures tabled { (program : AnyProgram) → Typed program → IsTabled program }
{
    fields_do_not_overlap();
    fields_lie_within();
    fields_take_bytes();
    inherited_fields_keep_their_offsets();
    names_keep_their_places();
    numbers_are_small();
    places_hold_the_nearest_method();
    statics_do_not_overlap();
    statics_lie_within();
    tables_have_each_virtual_method();
    virtual_methods_have_places();
}

/// Where the methods of a typed program are short, its image has what the compiler's law asks: its methods, its texts,
/// its fields and statics, and its virtual methods at their places.
pub fn images_are_made()
    ensures { (program : AnyProgram) → Typed program → IsSpelledOut program
        → All (λ (m : AnyMethod). EachCaseOf Has32Bits m.body) program.methods
        → All (IsShort program) program.methods → IsMade program (image_layout program) (image_of program) }
{
    code_exists();
    typed_programs_are_laid();
}

/// The image tells the kits, classes and slots of its program, and no others.
pub fn images_tell_the_schema()
    ensures { (program : AnyProgram) → Typed program → schema_of (image_of program) ≡ program.schema }
{
    numbers_are_small();
}

/// A root call that may be asked of a program runs the same method in the program's image.
pub fn roots_run_the_same_methods()
    ensures { (program : AnyProgram) (q : Question) → Typed program → MayAsk (code_of program) q
        → machine.root_method (image_of program) q.class q.which ≡ root_method program q.class q.which }
{
    system_methods_have_the_first_places();
    typed_programs_are_laid();
    what_may_be_asked();
}

/// Where the methods of a typed program are short, and the machine of a root call that may be asked is over within its
/// bound, as that of a verified image is: the image's root call is the program's, whatever it leaves and however it
/// ends.
pub fn compiled_roots_are_the_programs()
    ensures { (program : AnyProgram) (q : Question) → Typed program → IsSpelledOut program
        → All (λ (m : AnyMethod). EachCaseOf Has32Bits m.body) program.methods
        → All (IsShort program) program.methods → MayAsk (code_of program) q
        → ((number : ℕ) (value : Val) → root_method program q.class q.which ≡ Ok (Some number)
        → argument_of q.argument ≡ Ok value
        → IsOver (steps (setting_of (image_of program) q) (most_steps (image_of program) q.turns)
        (begins (slice_get (image_of program).methods number) number value (begun_with q))))
        → machine.root (image_of program) q.class q.contents q.statics q.which q.argument q.turns q.moment
        ≡ root program q.class q.contents q.statics q.which q.argument q.turns q.moment }
{
    compiled_roots_are_the_same();
    images_are_made();
    roots_run_the_same_methods();
}

/// The image has the fields of its program, of each class and of the statics, the field of each property, what new
/// objects and the statics begin with, and the sizes of objects. So it may be asked what the program may be asked.
pub fn images_tell_the_data()
    ensures fields { (program : AnyProgram) → Typed program → (class : ℕ)
        → (made.code_of (image_of program)).fields class ≡ (code_of program).fields class }
    ensures slot_fields { (program : AnyProgram) → Typed program → (class slot : ℕ)
        → IsSome (slot_type (code_of program) class slot)
        → (made.code_of (image_of program)).slot_field class slot ≡ (code_of program).slot_field class slot }
    ensures static_fields { (program : AnyProgram)
        → (made.code_of (image_of program)).static_fields ≡ (code_of program).static_fields }
    ensures initial { (program : AnyProgram) → Typed program → (class : ℕ)
        → (made.code_of (image_of program)).initial class ≡ (code_of program).initial class }
    ensures initial_statics { (program : AnyProgram) → Typed program
        → (made.code_of (image_of program)).initial_statics ≡ (code_of program).initial_statics }
    ensures sizes { (program : AnyProgram) → Typed program → (class : ℕ) → class < length program.schema.classes
        → (made.code_of (image_of program)).data_size class ≡ (code_of program).data_size class }
    ensures asked { (program : AnyProgram) → Typed program → (q : Question)
        → may_ask (made.code_of (image_of program)) q ≡ may_ask (code_of program) q }
{
    data_is_the_sum_of_fields();
    fields_do_not_overlap();
    fields_take_bytes();
    numbers_are_small();
}

/// Where the methods of a typed program are short and its image breaks no rule, the image carries the program: it has
/// its schema, its data, and at each question that may be asked its answer.
pub fn verified_images_carry_their_programs()
    ensures { (program : AnyProgram) → Typed program → IsSpelledOut program
        → All (λ (m : AnyMethod). EachCaseOf Has32Bits m.body) program.methods
        → All (IsShort program) program.methods → IsVerified (image_of program)
        → Carries (made.code_of (image_of program)) (code_of program) }
{
    compiled_roots_are_the_programs();
    images_tell_the_data();
    images_tell_the_schema();
    roots_run_the_same_methods();
    verified_calls_are_over();
}

/// Where the methods of a typed program are short and its image breaks no rule, the image means what the program means.
/// So an engine over the image is one of the program.
pub fn images_mean_their_programs()
    ensures { (program : AnyProgram) → Typed program → IsSpelledOut program
        → All (λ (m : AnyMethod). EachCaseOf Has32Bits m.body) program.methods
        → All (IsShort program) program.methods → IsVerified (image_of program)
        → made.meaning_of (image_of program) ≡ meaning_of program }
{
    carried_codes_are_one();
    images_tell_the_data();
    masked_codes_answer();
    typed_programs_are_whole();
    verified_images_are_whole();
    verified_images_carry_their_programs();
}
