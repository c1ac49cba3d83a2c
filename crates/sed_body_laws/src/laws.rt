//! Laws of the judgement of methods. Each is the contract of a function that does nothing of its own.
ghost use Rattle.std.specs.Prelude.{◌≡◌, List, Some};
ghost use Rattle.sed_units.specs.Tree.{Tree};
ghost use Rattle.sed_units.specs.declared.leaves.Param.{Param};
ghost use Rattle.sed_typed.specs.declared.program.Method.{Method};
ghost use Rattle.sed_typed.specs.declared.program.Program.{Program};
ghost use Rattle.sed_typed.specs.declared.statement.Stmt.{Stmt};
ghost use Rattle.sed_names.specs.Names.{Names};
ghost use Rattle.sed_terms.specs.declared.judged.Judged.TheVariants.{Sound};
ghost use Rattle.sed_terms.specs.Faults.{all_faults, Right};
ghost use Rattle.sed_terms.specs.Seen.{stmt_term};
ghost use Rattle.sed_statements.specs.declared.enclosing.Enclosing.{Enclosing};
ghost use Rattle.sed_statements.specs.Methods.{judge_method, judge_params};
ghost use Rattle.sed_body_laws.specs.Bodies.{IsBodyTerm, IsHeadOf, IsTypedBody, Means};

use sed_statements::{judged_statements_are_typed, scopes_count_on, scopes_stand_with_one_more};
use sed_terms::{trees_nest_as_their_terms, typed_terms_give_typed_trees};

/// What a method with a body comes to is the term of a body in its program, and it is unknown only with a fault; and so
/// it is with the parameters of a method without one.
pub fn judged_methods_are_typed()
    ensures body { (program : Program) (n : Names) (e : Enclosing) (params : List Param) (m : Method) →
        Means program n → IsHeadOf program n e params m →
        (all : List Tree) → Right (IsBodyTerm program m n all) (judge_method all_faults n e params all) }
    ensures params { (n : Names) (e : Enclosing) (params : List Param) →
        Right (λ _. Unit {0}) (judge_params all_faults n e params) }
{
    judged_statements_are_typed();
    scopes_count_on();
    scopes_stand_with_one_more();
}

/// A method body without a fault is a body of its method, but for how deep it nests and how high its tree is.
pub fn sound_bodies_are_bodies()
    ensures { (program : Program) (n : Names) (e : Enclosing) (params : List Param) (m : Method) → Means program n →
        IsHeadOf program n e params m →
        (all : List Tree) (body : Stmt) → m.body ≡ Some body →
        judge_method all_faults n e params all ≡ Sound (stmt_term body) → IsTypedBody program m body }
{
    judged_methods_are_typed();
    typed_terms_give_typed_trees();
    trees_nest_as_their_terms();
}
