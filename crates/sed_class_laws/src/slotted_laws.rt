//! The slots of classes that break no rule on what they declare.
ghost use Rattle.std.specs.Prelude.{◌≡◌, ◌<◌, ◌≤◌, ℕ, true, List, count_by, length};
ghost use Rattle.std.specs.Str.{bytes_eq};
ghost use Rattle.sed_classes.specs.declared.kit_units.KitUnits.{KitUnits};
ghost use Rattle.sed_classes.specs.Bases.{is_below};
ghost use Rattle.sed_classes.specs.SysSource.{component_class};
ghost use Rattle.sed_classes.specs.Slots.{slots};
ghost use Rattle.sed_outline.specs.Fits.{Unbroken};
ghost use Rattle.sed_class_laws.specs.Free.{AllFree};

/// No two slots of a class have one name, and a class with slots is a component.
pub fn slots_have_names_of_their_own()
    ensures once { (units : List KitUnits) (class : ℕ) (name : List ℕ) → Unbroken units → AllFree units
        → count_by (λ s. bytes_eq s.name name) (slots units class) ≤ 1 }
    ensures components { (units : List KitUnits) (class : ℕ) → Unbroken units → AllFree units
        → 0 < length (slots units class) → is_below units component_class class ≡ true }
{}
