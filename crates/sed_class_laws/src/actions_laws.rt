//! Slots and the members of kit `sys`.
ghost use Rattle.std.specs.Prelude.{◌≡◌, ◌<◌, ℕ, IfSome, List, length, slice_get};
ghost use Rattle.sed_typed.specs.declared.program.Program.{Program};
ghost use Rattle.sed_typed.specs.SysMembers.{HasSysMembers};
ghost use Rattle.sed_typed.specs.TypedSchema.{HasMembers, HasSlots};
ghost use Rattle.sed_classes.specs.declared.kit_units.KitUnits.{KitUnits};
ghost use Rattle.sed_classes.specs.Schema.{schema_of};
ghost use Rattle.sed_program.specs.Fields.{fields_of, statics_of};
ghost use Rattle.sed_program.specs.Methods.{methods_of};
ghost use Rattle.sed_program.specs.Outlined.{AreHeads};
ghost use Rattle.sed_outline.specs.Fits.{Unbroken};
ghost use Rattle.sed_class_laws.specs.Free.{AllFree};
ghost use Rattle.sed_class_laws.specs.Empty.{EmptyStays};
ghost use Rattle.sed_class_laws.specs.Heads.{HasHeads};

/// Each slot of a class has its one field, or is an action with its method; a class adds its own behind those of its
/// base.
pub fn slots_are_typed()
    ensures { (units : List KitUnits) (program : Program) → Unbroken units → program.schema ≡ schema_of units
        → program.fields ≡ fields_of units → AllFree units → HasHeads units program
        → ((class : ℕ) → class < length program.schema.classes → HasMembers program class)
        → (class : ℕ) → IfSome (slice_get program.schema.classes class) (HasSlots program class) }
{}

/// The types of kit `sys` have the members of `sys`.
pub fn types_of_sys_are_typed()
    ensures { (units : List KitUnits) (program : Program) → Unbroken units → program.schema ≡ schema_of units
        → program.fields ≡ fields_of units → program.statics ≡ statics_of units
        → AreHeads units (methods_of units) program.methods
        → EmptyStays units program
        → (class : ℕ) → IfSome (slice_get program.schema.classes class) (λ info. info.kit ≡ 0
        → HasSysMembers program class info) }
{}
