//! Laws of offsets, for provers.
ghost use Rattle.std.specs.Prelude.{◌≡◌, ◌+◌, ◌<◌, ◌≤◌, ℕ, All, IsTrue, Some, length, slice_get, sum_by};
ghost use Rattle.sed_typed.specs.Classes.{base_of, fields};
ghost use Rattle.sed_typed.specs.Sizes.{data_size};
ghost use Rattle.sed_typed.specs.Typed.{Typed, statics_size};
ghost use Rattle.sed_typed.specs.TypedSchema.{is_below};
ghost use Rattle.sed_typed.specs.declared.program.Field.{Field as AnyField};
ghost use Rattle.sed_typed.specs.declared.program.Program.{Program as AnyProgram};
ghost use Rattle.sed_layout.specs.Offsets.{KeepsFields, field_width, offset_of, static_offset_of};

/// A typed program has at most 1,024 classes and 61,440 methods.
pub fn numbers_are_small()
    ensures classes { (program : AnyProgram) → Typed program → length program.schema.classes ≤ 1024 }
    ensures methods { (program : AnyProgram) → Typed program → length program.methods ≤ 61440 }
{}

/// The data of a class is as large as its fields together.
pub fn data_is_the_sum_of_fields()
    ensures { (program : AnyProgram) → Typed program → (class : ℕ)
        → data_size program class ≡ sum_by (field_width program) (fields program class) }
{}

/// A field of a class lies within its data.
pub fn fields_lie_within()
    ensures { (program : AnyProgram) → Typed program → (class number : ℕ) (f : AnyField)
        → slice_get (fields program class) number ≡ Some f
        → offset_of program class number + field_width program f ≤ data_size program class }
{}

/// Of two fields of a class the later begins where the earlier ends, or behind it.
pub fn fields_do_not_overlap()
    ensures { (program : AnyProgram) (class first second : ℕ) (f : AnyField)
        → slice_get (fields program class) first ≡ Some f → first < second
        → offset_of program class first + field_width program f ≤ offset_of program class second }
{}

/// A static lies within the data of all statics.
pub fn statics_lie_within()
    ensures { (program : AnyProgram) (number : ℕ) (f : AnyField) → slice_get program.statics number ≡ Some f
        → static_offset_of program number + field_width program f ≤ statics_size program }
{}

/// Of two statics the later begins where the earlier ends, or behind it.
pub fn statics_do_not_overlap()
    ensures { (program : AnyProgram) (first second : ℕ) (f : AnyField)
        → slice_get program.statics first ≡ Some f → first < second
        → static_offset_of program first + field_width program f ≤ static_offset_of program second }
{}

/// No field and no static of a typed program is empty, so no two of them have one offset.
pub fn fields_take_bytes()
    ensures fields { (program : AnyProgram) → Typed program → (class : ℕ)
        → All (λ f. 0 < field_width program f) (fields program class) }
    ensures statics { (program : AnyProgram) → Typed program
        → All (λ f. 0 < field_width program f) program.statics }
{}

/// What a class inherits comes first among its fields, at the offsets that it has in the class above.
pub fn inherited_fields_keep_their_offsets()
    ensures base { (program : AnyProgram) → Typed program → (class base : ℕ)
        → base_of program.schema.classes class ≡ Some base → KeepsFields program base class }
    ensures above { (program : AnyProgram) → Typed program → (above class : ℕ)
        → IsTrue (is_below program.schema.classes above class) → KeepsFields program above class }
{}
