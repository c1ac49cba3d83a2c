//! Kits, classes, statics and texts of the program that units spell.
ghost use Rattle.std.specs.Prelude.{◌≡◌, ◌<◌, ◌≤◌, ℕ, All, IfSome, List, count_by, length, slice_get};
ghost use Rattle.std.specs.List.{flat_map};
ghost use Rattle.std.specs.Str.{bytes_eq};
ghost use Rattle.sed_typed.specs.declared.program.Program.{Program};
ghost use Rattle.sed_typed.specs.Typed.{IsText, statics_size};
ghost use Rattle.sed_typed.specs.TypedSchema.{HasKits, IsClass};
ghost use Rattle.sed_classes.specs.declared.kit_units.KitUnits.{KitUnits};
ghost use Rattle.sed_classes.specs.Declarations.{all_classes};
ghost use Rattle.sed_classes.specs.Schema.{schema_of};
ghost use Rattle.sed_program.specs.Fields.{fields_of, statics_of};
ghost use Rattle.sed_program.specs.Texts.{literals_of, program_texts};
ghost use Rattle.sed_outline.specs.Fits.{Unbroken};
ghost use Rattle.sed_class_laws.specs.Kits.{KitsNamed};
ghost use Rattle.sed_class_laws.specs.Texts.{SpellBytes};

/// The kits of a schema are as a typed program has them: few, `sys` with its five types first, each with a name of
/// its own, and the types of each numbered from 0.
pub fn kits_are_typed()
    ensures { (units : List KitUnits) → Unbroken units → KitsNamed units → HasKits (schema_of units) }
{}

/// Each class of a program is as its bases and its fields give it.
pub fn classes_are_typed()
    ensures { (units : List KitUnits) (program : Program) → Unbroken units → program.schema ≡ schema_of units
        → program.fields ≡ fields_of units → (class : ℕ)
        → IfSome (slice_get program.schema.classes class) (IsClass program class) }
{}

/// The statics together take less than 65,536 bytes.
pub fn statics_are_few()
    ensures { (units : List KitUnits) (program : Program) → Unbroken units → program.schema ≡ schema_of units
        → program.fields ≡ fields_of units → program.statics ≡ statics_of units → statics_size program < 65536 }
{}

/// No text of a program stands twice, there are at most 4,096, and each is of bytes and no longer than 255.
pub fn texts_are_typed()
    ensures once { (units : List KitUnits) (text : List ℕ)
        → count_by (λ t. bytes_eq t text) (program_texts units) ≤ 1 }
    ensures most { (units : List KitUnits) → length (program_texts units) ≤ 4096 }
    ensures each { (units : List KitUnits) → SpellBytes (flat_map literals_of (all_classes units))
        → All IsText (program_texts units) }
{}
