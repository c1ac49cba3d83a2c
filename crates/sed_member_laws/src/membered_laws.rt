//! What holds of the members of a program. Each is the contract of a function that does nothing.
ghost use Rattle.std.specs.Prelude.{List, ℕ, ◌≡◌, ◌<◌, None, All, length};
ghost use Rattle.sed_classes.specs.declared.kit_units.KitUnits.{KitUnits};
ghost use Rattle.sed_member_laws.specs.Literals.{AreSpelled};
ghost use Rattle.sed_member_laws.specs.Faultless.{AreFree};
ghost use Rattle.sed_member_laws.specs.TypedHeads.{IsTypedHead};
ghost use Rattle.sed_program.specs.Ordered.{IsOrdered};
ghost use Rattle.sed_program.specs.Outlined.{IsOutlined};
ghost use Rattle.sed_typed.specs.Typed.{HasBodies};
ghost use Rattle.sed_typed.specs.TypedSchema.{HasMembers, IsField};
ghost use Rattle.sed_typed.specs.declared.program.Field.{Field};
ghost use Rattle.sed_typed.specs.declared.program.Program.{Program};

use sed_typed::virtual_names_are_counted;

/// The members of each class are typed: names stand once, what overrides fits, and the limits hold.
pub fn members_are_typed()
    ensures { (units : List KitUnits) (program : Program) → AreFree units → IsOrdered units program →
        IsOutlined units program →
        (class : ℕ) → class < length program.schema.classes → HasMembers program class }
{
    virtual_names_are_counted();
}

/// Each instance field is typed: its class is there, its form may stand there, and it begins with a value of its form.
pub fn fields_are_typed()
    ensures { (units : List KitUnits) (program : Program) → AreFree units → AreSpelled units → IsOrdered units program →
        IsOutlined units program → All (IsField program) program.fields }
{}

/// And so is each static field.
pub fn statics_are_typed()
    ensures { (units : List KitUnits) (program : Program) → AreFree units → AreSpelled units → IsOrdered units program →
        IsOutlined units program → All (IsField program) program.statics }
{}

/// No static field has a slot.
pub fn statics_are_no_properties()
    ensures { (units : List KitUnits) (program : Program) → AreFree units → IsOutlined units program →
        All (λ (f : Field). f.slot ≡ None) program.statics }
{}

/// Each method is typed, but for what stands in its body.
pub fn methods_are_typed()
    ensures { (units : List KitUnits) (program : Program) → AreFree units → IsOrdered units program →
        IsOutlined units program →
        All (IsTypedHead program) program.methods }
{}

/// A class that is not abstract has a body for each method.
pub fn concrete_classes_have_bodies()
    ensures { (units : List KitUnits) (program : Program) → AreFree units → IsOrdered units program →
        IsOutlined units program →
        (class : ℕ) → class < length program.schema.classes → HasBodies program class }
{}
