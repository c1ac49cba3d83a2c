//! Objects that stand in objects, where units break no rule on what they declare.
ghost use Rattle.std.specs.Prelude.{◌≡◌, ◌<◌, ℕ, false, All, List, length};
ghost use Rattle.sed_typed.specs.declared.program.Program.{Program};
ghost use Rattle.sed_typed.specs.Classes.{fields};
ghost use Rattle.sed_typed.specs.Sizes as typed;
ghost use Rattle.sed_typed.specs.TypedSchema.{LiesDeeper};
ghost use Rattle.sed_classes.specs.declared.kit_units.KitUnits.{KitUnits};
ghost use Rattle.sed_classes.specs.Declarations.{all_classes};
ghost use Rattle.sed_classes.specs.Objects.{data_size, holds_itself};
ghost use Rattle.sed_classes.specs.Schema.{schema_of};
ghost use Rattle.sed_program.specs.Fields.{fields_of};
ghost use Rattle.sed_outline.specs.Fits.{Unbroken};
ghost use Rattle.sed_program.specs.Ordered.{number};
ghost use Rattle.sed_class_laws.specs.Depth.{depth_of};

/// No class has an object of its own in its objects.
pub fn no_object_stands_in_itself()
    ensures { (units : List KitUnits) (class : ℕ) → Unbroken units → holds_itself units class ≡ false }
{}

/// The class of each field that is an object lies deeper than the class that has the field.
pub fn objects_lie_deeper()
    ensures { (units : List KitUnits) (program : Program) → Unbroken units → program.schema ≡ schema_of units
        → program.fields ≡ fields_of units → (class : ℕ)
        → All (λ f. LiesDeeper (depth_of units) class f.form) (fields program class) }
{}

/// The program's data size of a class, by its number, is the units', by its place.
pub fn data_sizes_are_kept()
    ensures { (units : List KitUnits) (program : Program) → Unbroken units → program.schema ≡ schema_of units
        → program.fields ≡ fields_of units → (class : ℕ) → class < length (all_classes units)
        → typed.data_size program (number units class) ≡ data_size units class }
{}
