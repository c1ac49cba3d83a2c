//! Laws of judged bodies. Each is the contract of a function that does nothing.
ghost use Rattle.std.specs.Prelude.{◌≡◌, ◌≤◌, List};
ghost use Rattle.sed_names.specs.Names.{Names};
ghost use Rattle.sed_body_laws.specs.NestedBodies.{IsShallow};
ghost use Rattle.sed_body_laws.specs.Levels.{body_levels};
ghost use Rattle.sed_body_laws.specs.Nesting.{body_nesting};
ghost use Rattle.sed_statements.specs.declared.enclosing.Enclosing.{Enclosing};
ghost use Rattle.sed_statements.specs.Methods.{judge_method};
ghost use Rattle.sed_terms.specs.declared.judged.Judged.TheVariants.{Sound};
ghost use Rattle.sed_terms.specs.Faults.{Marks, IfSound};
ghost use Rattle.sed_terms.specs.Seen.{stmt_term};
ghost use Rattle.sed_terms.specs.TermDepth.{body_term_depth};
ghost use Rattle.sed_typed.specs.declared.statement.Stmt.{Stmt};
ghost use Rattle.sed_typed.specs.Depth.{body_depth};
ghost use Rattle.sed_typed.specs.Height.{stmt_height};
ghost use Rattle.sed_units.specs.declared.leaves.Param.{Param};
ghost use Rattle.sed_units.specs.Tree.{Tree};
ghost use Rattle.sed_body_laws.specs.TermHeight.{term_height};

use sed_terms::trees_nest_as_their_terms;

/// A sound body nests at most as deep as its source, and is no higher than the levels of its source.
pub fn judged_bodies_are_shallow<F>()
    ensures depth { (m : Marks F) (n : Names) (c : Enclosing) (ps : List Param) (all : List Tree) →
        IfSound (judge_method m n c ps all) (λ t. body_term_depth t ≤ body_nesting all) }
    ensures height { (m : Marks F) (n : Names) (c : Enclosing) (ps : List Param) (all : List Tree) →
        IfSound (judge_method m n c ps all) (λ t. term_height t ≤ body_levels all) }
{}

/// The tree of a sound body nests at most 64 deep where its source is shallow. Where it is no higher than its term, it
/// is at most 2,080 levels high.
pub fn sound_bodies_are_shallow<F>()
    ensures depth { (m : Marks F) (n : Names) (c : Enclosing) (ps : List Param) (all : List Tree) (body : Stmt) →
        judge_method m n c ps all ≡ Sound (stmt_term body) → IsShallow all → body_depth body ≤ 64 }
    ensures height { (m : Marks F) (n : Names) (c : Enclosing) (ps : List Param) (all : List Tree) (body : Stmt) →
        judge_method m n c ps all ≡ Sound (stmt_term body) → IsShallow all →
        stmt_height body ≤ term_height (stmt_term body) → stmt_height body ≤ 2080 }
{
    trees_nest_as_their_terms();
}
