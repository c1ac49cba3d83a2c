//! Laws of the judgement. Each is the contract of a function that does nothing of its own.
ghost use Rattle.std.specs.Prelude.{◌≡◌, ℕ, nat_lt, true, List, Some};
ghost use Rattle.sed_units.specs.Tree.{Tree};
ghost use Rattle.sed_units.specs.declared.leaves.Param.{Param};
ghost use Rattle.sed_units.specs.declared.leaves.TypeRef.{TypeRef};
ghost use Rattle.sed_typed.specs.declared.kind.Kind.{Kind};
ghost use Rattle.sed_typed.specs.TypedExpr.{Context};
ghost use Rattle.sed_names.specs.Names.{Names};
ghost use Rattle.sed_terms.specs.Faults.{all_faults, least_fault, told, Right};
ghost use Rattle.sed_terms.specs.TypedStmtTerm.{IsStmtTerm};
ghost use Rattle.sed_body_rules.specs.LocalTypes.{local_kind};
ghost use Rattle.sed_body_rules.specs.Scope.{Scope, behind, behind_all, behind_case, behind_cases, with_local};
ghost use Rattle.sed_statements.specs.declared.leaving.Around.{Around};
ghost use Rattle.sed_statements.specs.declared.enclosing.Enclosing.{Enclosing};
ghost use Rattle.sed_statements.specs.Inside.{around_of, CountsOn, HasResult, IsLocalAt, Provides, Stands};
ghost use Rattle.sed_statements.specs.Methods.{judge_method};
ghost use Rattle.sed_statements.specs.Statements.{judge_stmt};

use sed_bodies::{
    judged_expressions_are_typed, least_fault_is_found, placed_goes, truth_right, wants_right,
};
use sed_faults::least_of_two_lists;

/// The least of all faults of a statement, or of a method, is what the judgement with the least fault finds, and so
/// what `statement` and `judged_method` answer.
pub fn least_fault_of_methods_is_found()
    ensures statement { (n : Names) (c : Enclosing) (around : Around) (s : Scope) (t : Tree) →
        told (judge_stmt all_faults n c around s t) ≡ judge_stmt least_fault n c around s t }
    ensures method { (n : Names) (c : Enclosing) (params : List Param) (all : List Tree) →
        told (judge_method all_faults n c params all) ≡ judge_method least_fault n c params all }
{
    least_of_two_lists();
    least_fault_is_found();
}

/// Where names mean what a program has, and it has the locals that a statement declares, what the statement comes to is
/// typed in that program, and it is unknown only with a fault inside. So a statement without a fault is typed.
pub fn judged_statements_are_typed()
    ensures { (c : Context) (n : Names) (e : Enclosing) (around : Around) (s : Scope) → Stands c n e s →
        HasResult c e → (t : Tree) → Provides c n s.limit s.next t →
        Right (IsStmtTerm c (around_of around)) (judge_stmt all_faults n e around s t) }
{
    judged_expressions_are_typed();
    truth_right();
    wants_right();
    placed_goes();
}

/// Behind a statement, a row of statements, a label or the labels of a `switch` a scope has come to the number that the
/// source alone gives, whatever faults there are, and its limit is the same.
pub fn scopes_count_on()
    ensures statement { (n : Names) (s : Scope) (t : Tree) → CountsOn s t (behind n s t) }
    ensures row { (n : Names) (s : Scope) (t : Tree) → CountsOn s t (behind_all n s t) }
    ensures label { (n : Names) (s : Scope) (t : Tree) → CountsOn s t (behind_case n s t) }
    ensures labels { (n : Names) (s : Scope) (t : Tree) → CountsOn s t (behind_cases n s t) }
{}

/// A scope stands with one local more, where that has a number and the program's method has it.
pub fn scopes_stand_with_one_more()
    ensures { (c : Context) (n : Names) (e : Enclosing) (s : Scope) (type : TypeRef) (name : List ℕ) (k : Kind) →
        Stands c n e s → nat_lt s.next s.limit ≡ true →
        local_kind n type ≡ Some k → IsLocalAt c s.next k → Stands c n e (with_local n s type name) }
{}
