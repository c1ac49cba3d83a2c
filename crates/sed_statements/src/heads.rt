//! The head of a `for`.
ghost use Rattle.std.specs.Prelude.{◌≡◌, true, IfOk, IfSome};
ghost use Rattle.sed_units.specs.StatementTree.{first_tree};
ghost use Rattle.sed_units.specs.Tree.{optional};
ghost use Rattle.sed_terms.specs.Faults.{IfSound, least_fault};
ghost use Rattle.sed_terms.specs.Sorts.{is_value};
ghost use Rattle.sed_body_rules.specs.Scope as scopes;
ghost use Rattle.sed_statements.specs.Statements as meaning;

use crate::enclosing::Enclosing;
use crate::simple::{empty, evaluation, is_there, local};
use crate::{CheckedPart, CheckedStmt, last_of, test_of};
use sed_bodies::{expression, place_of};
use sed_body_rules::Locals;
use sed_names::Lookup;
use sed_terms::Judged;
use sed_units::{Expr, ForFirst};
use sed_value::Memory;
use std::alloc::Global;

/// The first part: a local that is in scope behind it, an expression, or nothing.
#[tactic(auto, using(crate::proofs::Firsts::expression_declares_nothing))]
pub fn first_part<N: Lookup>(
    alloc: Global,
    names: &N,
    method: &Enclosing,
    scope: &mut Locals,
    first: &ForFirst,
) -> Result<CheckedStmt, Memory>
    ensures found { IfOk result (λ r. r ≡ meaning.judge_first least_fault (N.names names.now) method.now scope.old
        (first_tree first.now)) }
    ensures behind { IfOk result (λ _. scope.new ≡ scopes.behind (N.names names.now) scope.old (first_tree first.now)) }
{
    match first {
        ForFirst::Nothing => empty(alloc),
        ForFirst::Local(l) => local(alloc, names, method, scope, l),
        ForFirst::Evaluate(e) => {
            is_there(e);
            evaluation(alloc, names, method, scope, e)
        }
    }
}

/// The condition.
pub fn test_part<N: Lookup>(
    alloc: Global,
    names: &N,
    method: &Enclosing,
    scope: &Locals,
    test: &Option<Expr>,
) -> Result<CheckedPart, Memory>
    ensures found { IfOk result (λ r. r ≡ meaning.judge_test least_fault (N.names names.now) method.now scope.now
        (optional test.now)) }
    ensures value { IfOk result (λ r. IfSound r (λ u. IfSome u (λ v. is_value v ≡ true))) }
{
    match test {
        None => Ok(Judged::Sound(None)),
        Some(e) => {
            is_there(e);
            let x = expression(alloc, names, &method.body, scope, e)?;
            test_of(alloc, place_of(e), x)
        }
    }
}

/// The last part.
pub fn last_part<N: Lookup>(
    alloc: Global,
    names: &N,
    method: &Enclosing,
    scope: &Locals,
    last: &Option<Expr>,
) -> Result<CheckedPart, Memory>
    ensures { IfOk result (λ r. r ≡ meaning.judge_last least_fault (N.names names.now) method.now scope.now
        (optional last.now)) }
{
    match last {
        None => Ok(Judged::Sound(None)),
        Some(e) => {
            is_there(e);
            let x = expression(alloc, names, &method.body, scope, e)?;
            Ok(last_of(x))
        }
    }
}
