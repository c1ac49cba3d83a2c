//! The law of accepted units. It is the contract of a function that does nothing of its own.
ghost use Rattle.std.specs.Prelude.{◌≡◌, ◌≤◌, Bool, List, [], length};
ghost use Rattle.sed_typed.specs.Typed.{Typed};
ghost use Rattle.sed_typed.specs.declared.program.Program.{Program};
ghost use Rattle.sed_classes.specs.declared.kit_units.KitUnits.{KitUnits};
ghost use Rattle.sed_check.specs.Checked.{IsSpelled, faults};
ghost use Rattle.sed_class_laws.specs.Kits.{KitsNamed};
ghost use Rattle.sed_check.specs.Read.{AreRead};

use crate::{names_mean_what_a_program_has, what_units_spell_is_typed};
use sed_body_laws::{sound_bodies_are_bodies, sound_bodies_are_shallow};
use sed_faults::Fault;
use sed_member_laws::{methods_are_typed, no_class_breaks_a_rule};
use sed_program::classes_stand_in_order;
use sed_value::Items;

/// The program that units without a fault spell is typed. Of the units it asks what readers leave: the names of kits,
/// and units as they are read.
pub fn accepted_units_are_typed()
    ensures { (units : List KitUnits) (cycles : Bool) (program : Program) → length units ≤ 15 → KitsNamed units →
        AreRead units → faults units cycles ≡ [] → IsSpelled units program → Typed program }
{
    classes_stand_in_order();
    no_class_breaks_a_rule();
    methods_are_typed();
    names_mean_what_a_program_has();
    sound_bodies_are_bodies();
    sound_bodies_are_shallow::<Items<Fault>>();
    what_units_spell_is_typed();
}
