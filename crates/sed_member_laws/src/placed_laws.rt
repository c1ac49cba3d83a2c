//! What holds of the numbers of members. Each is the contract of a function that does nothing.
ghost use Rattle.std.specs.Prelude.{List, ℕ, ◌≡◌, ◌<◌};
ghost use Rattle.sed_classes.specs.Members.{nearest};
ghost use Rattle.sed_classes.specs.declared.kit_units.KitUnits.{KitUnits};
ghost use Rattle.sed_member_laws.specs.Faultless.{AreFree};
ghost use Rattle.sed_program.specs.Ordered.{IsOrdered, places, number};
ghost use Rattle.sed_outline.specs.Fits.{Unbroken};
ghost use Rattle.sed_member_laws.specs.Found.{method_no};
ghost use Rattle.sed_program.specs.Outlined.{IsOutlined};
ghost use Rattle.sed_typed.specs.Classes.{find};
ghost use Rattle.sed_typed.specs.declared.program.Program.{Program};
ghost use Rattle.std.specs.Option.{option_and_then};

/// Where the classes that units declare break no rule, none does, those of `sys` among them.
pub fn no_class_breaks_a_rule()
    ensures { (units : List KitUnits) (program : Program) → Unbroken units → IsOrdered units program → AreFree units }
{}

/// The method that is found by a name in a class is the nearest member of that name, where that is a method.
pub fn the_nearest_method_is_found()
    ensures { (units : List KitUnits) (program : Program) → AreFree units → IsOrdered units program →
        IsOutlined units program →
        (name : List ℕ) (class : ℕ) → class < places units →
        find program (number units class) name ≡ option_and_then (method_no units) (nearest units class name) }
{}
