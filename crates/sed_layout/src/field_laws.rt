//! Laws of the fields of classes, for provers.
ghost use Rattle.std.specs.Prelude.{◌≡◌, ◌<◌, ◌++◌, ℕ, All, None, Some, length};
ghost use Rattle.sed_typed.specs.Classes.{base_of, declared_fields, fields};
ghost use Rattle.sed_typed.specs.Typed.{Typed};
ghost use Rattle.sed_typed.specs.TypedSchema.{IsField};
ghost use Rattle.sed_typed.specs.declared.program.Program.{Program as AnyProgram};

/// The fields of a class are those of its base and then those that it declares; without a base they are these alone.
/// Each of them is a field of the program.
pub fn fields_go_by_bases()
    ensures base { (program : AnyProgram) → Typed program → (class base : ℕ)
        → base_of program.schema.classes class ≡ Some base
        → fields program class ≡ fields program base ++ declared_fields program.fields class }
    ensures alone { (program : AnyProgram) (class : ℕ) → class < length program.schema.classes
        → base_of program.schema.classes class ≡ None
        → fields program class ≡ declared_fields program.fields class }
    ensures each { (program : AnyProgram) → Typed program → (class : ℕ) → All (IsField program) (fields program class) }
{}
