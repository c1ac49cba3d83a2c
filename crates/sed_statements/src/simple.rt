//! Statements that have no others inside.
ghost use Rattle.std.specs.Prelude.{◌≡◌, true, IfOk};
ghost use Rattle.sed_units.specs.StatementTree.{local_tree};
ghost use Rattle.sed_units.specs.Tree.{optional};
ghost use Rattle.sed_terms.specs.declared.sign.Sign.TheVariants as sign;
ghost use Rattle.sed_terms.specs.Faults.{least_fault};
ghost use Rattle.sed_terms.specs.Term as terms;
ghost use Rattle.sed_body_rules.specs.Scope as scopes;
ghost use Rattle.sed_statements.specs.Rows as rows;
ghost use Rattle.sed_bodies.specs.Expressions as expressions;
ghost use Rattle.sed_statements.specs.Parts as parts;
ghost use Rattle.sed_statements.specs.Statements as meaning;

use crate::enclosing::Enclosing;
use crate::{CheckedStmt, begun, begun_bare, declared, evaluated, returned, returned_nothing};
use sed_bodies::{expression, place_of};
use sed_body_rules::Locals;
use sed_names::Lookup;
use sed_terms::{FoundStmt, Judged};
use sed_units::{Expr, Local, Node};
use sed_value::Memory;
use std::alloc::Global;

/// An expression is one, whatever its form.
pub fn is_there(e: &Expr)
    ensures { parts.is_expression e.now ≡ true }
{
    match &e.node {
        Node::Literal(_) => {}
        Node::This => {}
        Node::Super(_, _) => {}
        Node::Name(_) => {}
        Node::Of(_, _) => {}
        Node::Call(_, _) => {}
        Node::Paren(_) => {}
        Node::Prefix(_, _) => {}
        Node::Cast(_, _) => {}
        Node::Chain(_, _) => {}
        Node::Update(_, _) => {}
        Node::Conditional(_, _, _) => {}
        Node::Assign(_, _, _) => {}
    }
}

/// A statement that does nothing.
pub fn empty(alloc: Global) -> Result<CheckedStmt, Memory>
    ensures { IfOk result (λ r. r ≡ Judged.Sound (terms.leaf sign.Empty)) }
{
    let x = FoundStmt::empty(alloc)?;
    Ok(Judged::Sound(x))
}

/// An expression whose value is not used.
pub fn evaluation<N: Lookup>(
    alloc: Global,
    names: &N,
    method: &Enclosing,
    scope: &Locals,
    e: &Expr,
) -> Result<CheckedStmt, Memory>
    ensures { IfOk result (λ r. r ≡ rows.evaluated (expressions.judge least_fault
        (N.names names.now) method.now.body scope.now e.now)) }
{
    let x = expression(alloc, names, &method.body, scope, e)?;
    evaluated(alloc, x)
}

// The declaration of a local, before it is in scope.
fn declaration<N: Lookup>(
    alloc: Global,
    names: &N,
    method: &Enclosing,
    scope: &Locals,
    l: &Local,
) -> Result<CheckedStmt, Memory>
    ensures { IfOk result (λ r. r ≡ meaning.judge_local least_fault
        (N.names names.now) method.now scope.now l.now.at l.now.kind l.now.name.bytes (optional l.now.value)) }
{
    let name = l.name.bytes.as_slice();
    match &l.value {
        None => begun_bare(alloc, declared(names, scope, l.at, &l.kind, name)),
        Some(e) => {
            is_there(e);
            let x = expression(alloc, names, &method.body, scope, e)?;
            let local = declared(names, scope, l.at, &l.kind, name);
            begun(alloc, names, local, place_of(e), x)
        }
    }
}

/// The declaration of a local, behind which it is in scope.
pub fn local<N: Lookup>(
    alloc: Global,
    names: &N,
    method: &Enclosing,
    scope: &mut Locals,
    l: &Local,
) -> Result<CheckedStmt, Memory>
    ensures found { IfOk result (λ r. r ≡ meaning.judge_local least_fault
        (N.names names.now) method.now scope.old l.now.at l.now.kind l.now.name.bytes (optional l.now.value)) }
    ensures behind { IfOk result (λ _. scope.new ≡ scopes.behind (N.names names.now) scope.old (local_tree l.now)) }
{
    let x = declaration(alloc, names, method, scope, l)?;
    scope.declare(alloc, names, &l.kind, l.name.bytes.as_slice())?;
    Ok(x)
}

/// `return` at a place, with its value if it has one.
pub fn answer<N: Lookup>(
    alloc: Global,
    names: &N,
    method: &Enclosing,
    scope: &Locals,
    at: usize,
    value: &Option<Expr>,
) -> Result<CheckedStmt, Memory>
    ensures { IfOk result (λ r. r ≡ meaning.judge_return least_fault (N.names names.now) method.now scope.now at
        (optional value.now)) }
{
    match value {
        None => returned_nothing(alloc, method.result, at),
        Some(e) => {
            is_there(e);
            let x = expression(alloc, names, &method.body, scope, e)?;
            returned(alloc, names, method.result, place_of(e), x)
        }
    }
}
