//! What holds of methods that override. Each is the contract of a function that does nothing.
ghost use Rattle.std.specs.Prelude.{List, ℕ, ◌≡◌, Some, slice_get};
ghost use Rattle.sed_classes.specs.Bases.{base_of};
ghost use Rattle.sed_classes.specs.Members.{members_of, kit_of, nearest, Owned};
ghost use Rattle.sed_classes.specs.declared.kit_units.KitUnits.{KitUnits};
ghost use Rattle.sed_member_laws.specs.Faultless.{AreFree};
ghost use Rattle.sed_program.specs.Ordered.{IsOrdered};
ghost use Rattle.sed_member_laws.specs.Alike.{Alike};
ghost use Rattle.sed_typed.specs.declared.program.Program.{Program};
ghost use Rattle.sed_units.specs.declared.classes.Member.{Member};

/// A method and the nearest member of its name above its class have one signature, and both are virtual.
pub fn what_overrides_is_alike()
    ensures { (units : List KitUnits) (program : Program) → AreFree units → IsOrdered units program →
        (class base i : ℕ) (m : Member) (o : Owned) → base_of units class ≡ Some base →
        slice_get (members_of units class) i ≡ Some m →
        nearest units base m.name.bytes ≡ Some o → Alike units (kit_of units class) m o.kit o.member }
{}
