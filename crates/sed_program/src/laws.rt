//! The classes of units that break no rule on what they declare.
ghost use Rattle.std.specs.Prelude.{◌≡◌, ◌<◌, ℕ, List, length, Some};
ghost use Rattle.std.specs.List.{flat_map, range_with_len};
ghost use Rattle.sed_typed.specs.declared.program.Program.{Program};
ghost use Rattle.sed_typed.specs.Classes.{declared_fields};
ghost use Rattle.sed_classes.specs.declared.kit_units.KitUnits.{KitUnits};
ghost use Rattle.sed_classes.specs.Bases.{base_of};
ghost use Rattle.sed_classes.specs.Schema.{schema_of};
ghost use Rattle.sed_program.specs.Fields.{fields_of};
ghost use Rattle.sed_outline.specs.Fits.{Unbroken};
ghost use Rattle.sed_program.specs.Ordered.{IsOrdered, number};

/// Places and numbers of classes lead to one another, and what a program with this schema and these fields says of a
/// class by its number is what the units say of it by its place.
pub fn classes_stand_in_order()
    ensures { (units : List KitUnits) (program : Program) → Unbroken units → program.schema ≡ schema_of units
        → program.fields ≡ fields_of units → IsOrdered units program }
{}

/// Each base has a lesser number than the classes based on it.
pub fn bases_stand_first()
    ensures { (units : List KitUnits) (class base : ℕ) → Unbroken units → base_of units class ≡ Some base
        → number units base < number units class }
{}

/// The fields of a program stand together by their classes, in the order of these.
pub fn fields_stand_by_class()
    ensures { (units : List KitUnits) (program : Program) → Unbroken units → program.schema ≡ schema_of units
        → program.fields ≡ fields_of units
        → flat_map (declared_fields program.fields) (range_with_len 0 (length program.schema.classes))
        ≡ program.fields }
{}
