//! What holds of names. Each is the contract of a function that does nothing.
ghost use Rattle.std.specs.Prelude.{◌≡◌, ◌<◌, Some, IfSome, IsSomeAnd, length, slice_get, List, ℕ};
ghost use Rattle.sed_classes.specs.declared.kit_units.KitUnits.{KitUnits};
ghost use Rattle.sed_member_laws.specs.Literals.{AreSpelled};
ghost use Rattle.sed_member_laws.specs.Faultless.{AreFree};
ghost use Rattle.sed_check.specs.Means.{HaveDefines, Means};
ghost use Rattle.sed_program.specs.Ordered.{IsOrdered};
ghost use Rattle.sed_program.specs.Meaning.{names_of};
ghost use Rattle.sed_program.specs.Outlined.{IsOutlined};
ghost use Rattle.sed_typed.specs.TypedExpr.{Context, IsKindOf, IsNoReceiver};
ghost use Rattle.sed_typed.specs.declared.kind.Kind.{Kind};
ghost use Rattle.sed_names.specs.Names.{Names};
ghost use Rattle.sed_bodies.specs.declared.context.Body.{Body};
ghost use Rattle.sed_body_rules.specs.Scope.{Scope, local_named};
ghost use Rattle.sed_bodies.specs.Inside.{IsIn};

/// Each define reads as a value of its type.
pub fn defines_have_values()
    ensures { (units : List KitUnits) → AreFree units → AreSpelled units → HaveDefines units }
{}

/// What names mean to the bodies in a text of a kit is what the program has that the units spell.
pub fn names_mean_what_a_program_has()
    ensures { (units : List KitUnits) (c : Context) (kit : ℕ) → AreFree units → AreSpelled units →
        IsOrdered units c.program →
        IsOutlined units c.program → Means c (names_of units kit) }
{}

/// So a body stands in its program, once its class is there, its locals are of kinds of the program, and what it
/// finds of them is so.
pub fn a_body_stands_in_what_is_meant()
    ensures { (c : Context) (n : Names) (b : Body) (s : Scope) → Means c n → c.class < length c.program.schema.classes →
        ((i : ℕ) (k : Kind) → slice_get c.locals i ≡ Some k → IsKindOf c.program k) → b.class.0 ≡ c.class →
        b.is_static ≡ c.is_static →
        ((name : List ℕ) → IfSome (local_named s.entries name) (λ l. IsSomeAnd l.kind (λ k.
        (slice_get c.locals l.number ≡ Some k) × IsNoReceiver c l.number))) → IsIn c n b s }
{}
