//! The law of first classes. It is the contract of a function that does nothing of its own.
ghost use Rattle.std.specs.Prelude.{◌≡◌, ℕ, true, List, [], ◌∷◌};
ghost use Rattle.sed_typed.specs.declared.program.Program.{Program};
ghost use Rattle.sed_units.specs.declared.classes.Unit.{Unit as TheUnit};
ghost use Rattle.sed_classes.specs.declared.kit_units.KitUnits.{KitUnits};
ghost use Rattle.sed_engine.specs.Runnable.{IsRunnable};
ghost use Rattle.sed_check.specs.Checked.{IsSpelled, faults};
ghost use Rattle.sed_check.specs.Read.{AreRead};

use sed_program::classes_stand_in_order;

/// Where the one unit of one kit, as it is read, has no fault as `cycles` asks, the first class of the program that it
/// spells may have objects.
pub fn first_classes_run()
    ensures { (unit : TheUnit) (name : List ℕ) (program : Program) →
        AreRead ((record { kit = name; depends = []; units = unit ∷ [] }) ∷ []) →
        faults ((record { kit = name; depends = []; units = unit ∷ [] }) ∷ []) true ≡ [] →
        IsSpelled ((record { kit = name; depends = []; units = unit ∷ [] }) ∷ []) program → IsRunnable program }
{
    classes_stand_in_order();
}
