//! Laws of the trees of judged bodies. Each is the contract of a function that does nothing of its own.
ghost use Rattle.std.specs.Prelude.{◌≤◌, ◌<◌, ◌+◌, ◌*◌, ◌^◌, List};
ghost use Rattle.sed_names.specs.Names.{Names};
ghost use Rattle.sed_units.specs.declared.leaves.Param.{Param};
ghost use Rattle.sed_units.specs.Tree.{Tree, row, tree_size};
ghost use Rattle.sed_typed.specs.TypedExpr.{Context};
ghost use Rattle.sed_typed.specs.TypedStmt.{Around};
ghost use Rattle.sed_typed.specs.declared.program.Method.{Method};
ghost use Rattle.sed_typed.specs.declared.program.Program.{Program};
ghost use Rattle.sed_terms.specs.Faults.{all_faults, IfSound, Marks, Right};
ghost use Rattle.sed_terms.specs.Term.{Term};
ghost use Rattle.sed_terms.specs.TypedStmtTerm.{IsStmtTerm};
ghost use Rattle.sed_statements.specs.declared.enclosing.Enclosing.{Enclosing};
ghost use Rattle.sed_statements.specs.Methods.{judge_method};
ghost use Rattle.sed_body_laws.specs.Bodies.{IsHeadOf, Means};
ghost use Rattle.sed_body_laws.specs.Neat.{IsNeat, term_size};
ghost use Rattle.sed_body_laws.specs.Trees.{HasTree, IsShort};

use crate::judged_methods_are_typed;
use sed_faults::Fault;
use sed_value::Items;

/// The term of a typed statement has a flat tree, where nothing stands in it beside its parts and a memory holds its
/// rows.
pub fn typed_terms_have_trees()
    ensures { (c : Context) (around : Around) (t : Term) → IsStmtTerm c around t → IsNeat t → term_size t < 2 ^ 63 →
        HasTree t }
{}

/// What a sound body comes to has nothing beside its parts, and at most six nodes for each part of its source.
pub fn judged_bodies_are_neat<F>()
    ensures neat { (m : Marks F) (n : Names) (c : Enclosing) (ps : List Param) (all : List Tree) →
        IfSound (judge_method m n c ps all) IsNeat }
    ensures size { (m : Marks F) (n : Names) (c : Enclosing) (ps : List Param) (all : List Tree) →
        IfSound (judge_method m n c ps all) (λ t. term_size t ≤ 6 * tree_size (row all) + 1) }
{}

/// A body in which no rule is broken has a tree: what it comes to is known, and is the term of a flat tree.
pub fn faultless_bodies_have_trees()
    ensures { (program : Program) (n : Names) (e : Enclosing) (params : List Param) (m : Method) → Means program n →
        IsHeadOf program n e params m →
        (all : List Tree) → IsShort all → Right HasTree (judge_method all_faults n e params all) }
{
    judged_bodies_are_neat::<Items<Fault>>();
    judged_methods_are_typed();
    typed_terms_have_trees();
}
