//! Laws of the meaning of programs and of codes. Each is the contract of a function that does nothing.
ghost use Rattle.std.specs.Prelude.{◌≡◌, ◌↔◌, ◌+◌, ◌≤◌, ℕ, ℤ, IsTrue, map};
ghost use Rattle.sed_value.specs.declared.value.Value.{Value};
ghost use Rattle.sed_typed.specs.declared.program.Program.{Program};
ghost use Rattle.sed_typed.specs.Contents.{Contents};
ghost use Rattle.sed_engine.specs.declared.call.CallEnd.TheVariants.{Done};
ghost use Rattle.sed_engine.specs.declared.call.Root.{Root as AnyRoot};
ghost use Rattle.sed_engine.specs.Root.{root};
ghost use Rattle.sed_engine.specs.Asked.{Asked, MayAsk, masked};
ghost use Rattle.sed_engine.specs.Carries.{Carries};
ghost use Rattle.sed_engine.specs.Code.{Meaning, Object, Question, called, is_creatable, may_store, new_object};
ghost use Rattle.sed_engine.specs.Code.{root_of, with_slot};
ghost use Rattle.sed_engine.specs.Fits.{Fits};
ghost use Rattle.sed_engine.specs.Program.{code_of, meaning_of};
ghost use Rattle.sed_engine.specs.Whole.{AnswersWell, HasTables, IsObject, IsWhole, NeverGoesWrong, RootFits};
ghost use Rattle.sed_typed.specs.Typed.{Typed};
ghost use Rattle.sed_engine.specs.Turns.{IsDone, with_more};

use sed_value::low_bits_are_exact;

/// A root call that ends normally leaves no more turns than it was given.
pub fn turns_do_not_grow()
    ensures { (program : Program) (class : ℕ) (contents statics : Contents)
        (which : AnyRoot) (argument : Value) (turns : ℕ) (moment : ℤ) →
        (left : ℕ) → (root program class contents statics which argument turns moment).end ≡ Done left → left ≤ turns }
{}

/// A root call changes values alone: no path of the component or of the statics comes or goes.
pub fn paths_stay()
    ensures contents { (program : Program) (class : ℕ) (contents statics : Contents)
        (which : AnyRoot) (argument : Value) (turns : ℕ) (moment : ℤ) →
        map (λ e. e.0) (root program class contents statics which argument turns moment).contents
        ≡ map (λ e. e.0) contents }
    ensures statics { (program : Program) (class : ℕ) (contents statics : Contents)
        (which : AnyRoot) (argument : Value) (turns : ℕ) (moment : ℤ) →
        map (λ e. e.0) (root program class contents statics which argument turns moment).statics
        ≡ map (λ e. e.0) statics }
{}

/// A root call that ended normally ends the same with more turns, and leaves as many more.
pub fn more_turns_end_alike()
    ensures contents { (program : Program) (class : ℕ) (contents statics : Contents)
        (which : AnyRoot) (argument : Value) (turns more : ℕ) (moment : ℤ) →
        IsDone (root program class contents statics which argument turns moment).end →
        (root program class contents statics which argument (turns + more) moment).contents
        ≡ (root program class contents statics which argument turns moment).contents }
    ensures statics { (program : Program) (class : ℕ) (contents statics : Contents)
        (which : AnyRoot) (argument : Value) (turns more : ℕ) (moment : ℤ) →
        IsDone (root program class contents statics which argument turns moment).end →
        (root program class contents statics which argument (turns + more) moment).statics
        ≡ (root program class contents statics which argument turns moment).statics }
    ensures left { (program : Program) (class : ℕ) (contents statics : Contents)
        (which : AnyRoot) (argument : Value) (turns more : ℕ) (moment : ℤ) →
        IsDone (root program class contents statics which argument turns moment).end →
        (root program class contents statics which argument (turns + more) moment).end
        ≡ with_more more (root program class contents statics which argument turns moment).end }
{}

/// What a root call leaves fits, where the contents and the statics that it was given fit.
pub fn what_is_left_fits()
    ensures { (program : Program) → RootFits (code_of program) }
{}

/// A typed program never goes wrong: its root calls end normally, with no more turns left than they were given, or by
/// one of the five traps, so no step comes to what is not typed (`Untyped` in `specs/Stops`), which trap 0 would tell.
pub fn typed_programs_never_go_wrong()
    ensures { (program : Program) → Typed program → NeverGoesWrong (code_of program) }
{}

/// The code of a typed program is whole: what everything above a code relies on.
pub fn typed_programs_are_whole()
    ensures { (program : Program) → Typed program → IsWhole (meaning_of program) }
{}

/// What a code may be asked is what each of its parts says: a class of which components are made, contents and statics
/// that fit, an argument that the root takes, 1 to 1,000,000 turns, and a moment of 64 bits.
pub fn what_may_be_asked()
    ensures { (m : Meaning) (q : Question) → MayAsk m q ↔ Asked m q }
{}

/// A code is whole once it is masked, where its tables agree and it answers well whatever it may be asked.
pub fn masked_codes_are_whole()
    ensures { (m : Meaning) → HasTables m → ((q : Question) → MayAsk m q → AnswersWell m q) → IsWhole (masked m) }
{}

/// Masked, a code answers what it may be asked as it does itself.
pub fn masked_codes_answer()
    ensures { (m : Meaning) (q : Question) → MayAsk m q → (masked m).root q ≡ m.root q }
{}

/// What an engine keeps goes on to fit: a new object, the object and the statics that a root call leaves, and an object
/// with another value in a slot.
pub fn what_is_kept_fits()
    ensures new { (m : Meaning) (class : ℕ) → IsWhole m → IsTrue (is_creatable m class)
        → IsObject m (new_object m class) }
    ensures called { (m : Meaning) (o : Object) (statics : Contents)
        (which : AnyRoot) (argument : Value) (turns : ℕ) (moment : ℤ) →
        IsWhole m → IsObject m o → Fits m.fields m.static_fields m.initial_statics statics
        → IsObject m (called o (root_of m o statics which argument turns moment)) }
    ensures statics { (m : Meaning) (o : Object) (statics : Contents)
        (which : AnyRoot) (argument : Value) (turns : ℕ) (moment : ℤ) →
        IsWhole m → IsObject m o → Fits m.fields m.static_fields m.initial_statics statics →
        Fits m.fields m.static_fields m.initial_statics (root_of m o statics which argument turns moment).statics }
    ensures stored { (m : Meaning) (o : Object) (slot : ℕ) (v : Value)
        → IsWhole m → IsObject m o → IsTrue (may_store m o.class slot v) → IsObject m (with_slot m o slot v) }
{
    low_bits_are_exact();
}

/// Two whole codes that are alike in all that may be asked of them are one, so whatever is defined over a code is the
/// same of both.
pub fn carried_codes_are_one()
    ensures { (m n : Meaning) → IsWhole m → IsWhole n → Carries m n → m ≡ n }
{}
