//! Laws of the judgement. Each is the contract of a function that does nothing.
ghost use Rattle.std.specs.Prelude.{◌≡◌, ℕ, Bool, List, IfSome};
ghost use Rattle.sed_units.specs.Tree.{Tree};
ghost use Rattle.sed_typed.specs.declared.kind.Kind.{Kind};
ghost use Rattle.sed_typed.specs.declared.kind.Kind.TheVariants as kinds;
ghost use Rattle.sed_typed.specs.TypedExpr.{Context, IsKindOf};
ghost use Rattle.sed_names.specs.Names.{Names};
ghost use Rattle.sed_faults.specs.declared.fault.Fault.{Fault};
ghost use Rattle.sed_terms.specs.declared.judged.Judged.{Judged};
ghost use Rattle.sed_terms.specs.Faults.{all_faults, least_fault, told, Right};
ghost use Rattle.sed_terms.specs.Term.{Term};
ghost use Rattle.sed_body_rules.specs.Conversions.{is_int, placed};
ghost use Rattle.sed_body_rules.specs.Wants.{truth, wants};
ghost use Rattle.sed_bodies.specs.declared.context.Body.{Body};
ghost use Rattle.sed_bodies.specs.Expressions.{judge};
ghost use Rattle.sed_bodies.specs.Inside.{AreBelow, Goes, HasKind, HasKinds, IsIn, IsReady};
ghost use Rattle.sed_body_rules.specs.Scope.{Scope};

use sed_faults::least_of_two_lists;

/// Where the names of a body mean what its program has, what an expression comes to is typed in that program, and it
/// is unknown only with a fault inside. So an expression without a fault is typed.
pub fn judged_expressions_are_typed()
    ensures { (c : Context) (n : Names) (b : Body) (s : Scope) → IsIn c n b s
        → (t : Tree) → Right (IsReady c) (judge all_faults n b s t) }
{}

/// The least of all faults of an expression is what the judgement with the least fault finds, and so what `expression`
/// answers.
pub fn least_fault_is_found()
    ensures { (n : Names) (b : Body) (s : Scope) (t : Tree)
        → told (judge all_faults n b s t) ≡ judge least_fault n b s t }
{
    least_of_two_lists();
}

/// A condition is a typed bool where what is judged of it is right, and it is unknown only with a fault.
pub fn truth_right()
    ensures { (c : Context) → HasKinds c → (at : ℕ) (x : Judged Term (List Fault))
        → Right (IsReady c) x → Right (HasKind c kinds.Bool) (truth all_faults at x) }
{}

/// What an int is wanted of is a typed int where what is judged of it is right, and it is unknown only with a fault.
pub fn wants_right()
    ensures { (c : Context) (at : ℕ) (x : Judged Term (List Fault)) → Right (IsReady c) x
        → Right (HasKind c kinds.Int) (wants all_faults is_int at x) }
{}

/// What is put into a place is typed and goes there.
pub fn placed_goes()
    ensures { (c : Context) → HasKinds c → (below : ℕ → ℕ → Bool) → AreBelow c below
        → (to : Kind) → IsKindOf c.program to → (t : Term) → IsReady c t → IfSome (placed below to t) (Goes c to) }
{}
