//! The law of units without a fault. It is the contract of a function that does nothing of its own.
ghost use Rattle.std.specs.Prelude.{◌≡◌, ◌≤◌, Bool, List, [], length};
ghost use Rattle.sed_typed.specs.Typed.{Typed};
ghost use Rattle.sed_typed.specs.declared.program.Program.{Program};
ghost use Rattle.sed_classes.specs.declared.kit_units.KitUnits.{KitUnits};
ghost use Rattle.sed_class_laws.specs.Kits.{KitsNamed};
ghost use Rattle.sed_check.specs.Checked.{IsSpelled, faults};
ghost use Rattle.sed_check.specs.Read.{AreRead};
ghost use Rattle.sed_check.specs.Short.{AreShort};

use crate::{accepted_units_are_typed, names_mean_what_a_program_has};
use sed_body_laws::faultless_bodies_have_trees;
use sed_member_laws::{methods_are_typed, no_class_breaks_a_rule};
use sed_program::classes_stand_in_order;

/// Units without a fault have a program: there is one that they spell, and it is typed. So what no rule refuses is
/// known.
///
/// Of the units it asks what `check` asks, and that a memory holds their bodies.
pub fn accepted_units_have_a_program()
    ensures { (units : List KitUnits) (cycles : Bool) → length units ≤ 15 → KitsNamed units → AreRead units →
        AreShort units → faults units cycles ≡ [] → (program : Program) × IsSpelled units program × Typed program }
{
    accepted_units_are_typed();
    classes_stand_in_order();
    faultless_bodies_have_trees();
    methods_are_typed();
    names_mean_what_a_program_has();
    no_class_breaks_a_rule();
}
