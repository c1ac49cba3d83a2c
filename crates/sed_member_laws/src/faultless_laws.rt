//! What holds of members where no class breaks a rule. Each is the contract of a function that does nothing.
ghost use Rattle.std.specs.Prelude.{List, ℕ, ◌≡◌, ◌≤◌, Some, slice_get, count_by};
ghost use Rattle.sed_classes.specs.Declarations.{Declaration, class_at};
ghost use Rattle.sed_classes.specs.Members.{members_of, kit_of, has_name};
ghost use Rattle.sed_classes.specs.declared.kit_units.KitUnits.{KitUnits};
ghost use Rattle.sed_member_laws.specs.Faultless.{AreFree, Keeps};
ghost use Rattle.sed_units.specs.declared.classes.Member.{Member};

/// Each member that a class declares keeps each rule, where no class breaks one.
pub fn members_keep_the_rules()
    ensures { (units : List KitUnits) → AreFree units → (class i : ℕ) (m : Member) →
        slice_get (members_of units class) i ≡ Some m →
        (d : Declaration) × (class_at units class ≡ Some d) × (kit_of units class ≡ d.kit) × Keeps units class d i m }
{}

/// No two members of a class have one name.
pub fn names_stand_once()
    ensures { (units : List KitUnits) → AreFree units → (class : ℕ) (name : List ℕ) →
        count_by (has_name name) (members_of units class) ≤ 1 }
{}
