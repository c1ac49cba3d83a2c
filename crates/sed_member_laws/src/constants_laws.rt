//! What holds of initial values. Each is the contract of a function that does nothing.
ghost use Rattle.std.specs.Prelude.{ℕ, ◌≡◌, true, IsTrue, List};
ghost use Rattle.sed_value.specs.Value.{is_of_type};
ghost use Rattle.sed_value.specs.declared.slot_type.Primitive.{Primitive};
ghost use Rattle.sed_value.specs.declared.slot_type.SlotType.TheVariants.{Prim};
ghost use Rattle.sed_units.specs.declared.leaves.Init.{Init};
ghost use Rattle.sed_classes.specs.declared.kit_units.KitUnits.{KitUnits};
ghost use Rattle.sed_classes.specs.Values.{constant_of, takes};
ghost use Rattle.sed_program.specs.Fields.{kept_value};
ghost use Rattle.sed_member_laws.specs.Literals.{AreSpelled, HasSpelled};

/// What a primitive keeps of an initial value that goes to it is of its type.
pub fn kept_values_are_typed()
    ensures { (units : List KitUnits) → AreSpelled units → (class : ℕ) (i : Init) (p : Primitive) → HasSpelled i.value →
        takes p (constant_of units class i) ≡ true →
        IsTrue (is_of_type (Prim p) (kept_value p (constant_of units class i))) }
{}
