//! The law of programs that units spell. It is the contract of a function that does nothing.
ghost use Rattle.std.specs.Prelude.{IfSome, All, List};
ghost use Rattle.std.specs.List.{flat_map};
ghost use Rattle.sed_typed.specs.Typed.{IsBody, Typed};
ghost use Rattle.sed_typed.specs.declared.program.Method.{Method};
ghost use Rattle.sed_typed.specs.declared.program.Program.{Program};
ghost use Rattle.sed_classes.specs.Declarations.{all_classes};
ghost use Rattle.sed_classes.specs.declared.kit_units.KitUnits.{KitUnits};
ghost use Rattle.sed_outline.specs.Fits.{Unbroken};
ghost use Rattle.sed_program.specs.Outlined.{IsOutlined};
ghost use Rattle.sed_program.specs.Texts.{literals_of};
ghost use Rattle.sed_class_laws.specs.Kits.{KitsNamed};
ghost use Rattle.sed_class_laws.specs.Texts.{SpellBytes};
ghost use Rattle.sed_class_laws.specs.Empty.{EmptyStays};
ghost use Rattle.sed_member_laws.specs.Literals.{AreSpelled};

use sed_typed::virtual_names_are_counted;

/// The program that units spell is typed, where they break no rule on what they declare, and its bodies are typed.
///
/// Of the names of kits and of the literals, of which no rule on declarations speaks, it asks what the readers of
/// manifests and of texts leave; and that a method with an empty body has one in the program.
pub fn what_units_spell_is_typed()
    ensures { (units : List KitUnits) (program : Program) → Unbroken units → KitsNamed units → AreSpelled units
        → SpellBytes (flat_map literals_of (all_classes units)) → IsOutlined units program → EmptyStays units program
        → All (λ (m : Method). IfSome m.body (IsBody program m)) program.methods → Typed program }
{
    virtual_names_are_counted();
}
