//! A link behind a value.
ghost use Rattle.std.specs.Prelude.{◌≡◌, IfOk};
ghost use Rattle.sed_units.specs.Tree.{Absent as NoTree, Part, row};
ghost use Rattle.sed_units.specs.declared.label.Label.TheVariants as label;
ghost use Rattle.sed_body_rules.specs.Operands as operands;
ghost use Rattle.sed_terms.specs.Faults.{least_fault};
ghost use Rattle.sed_bodies.specs.Members as members;
ghost use Rattle.sed_bodies.specs.Expressions as meaning;
ghost use Rattle.sed_bodies.specs.Places as places;

use crate::calls::{arguments, count_of};
use crate::environment::Environment;
use crate::expressions::judge;
use crate::places::place_of;
use crate::{called, member_of, params_behind, spelled};
use sed_body_rules::{Checked, element, operated};
use sed_names::Lookup;
use sed_units::{BinaryOp, Expr, Ident, Link, Step};
use sed_value::Memory;
use std::alloc::Global;

fn member<N: Lookup>(alloc: Global, names: &N, id: &Ident, x: Checked) -> Result<Checked, Memory>
    ensures { IfOk result (λ r. r ≡ members.spelled least_fault id.now
        (members.member_of least_fault (N.names names.now) id.now x)) }
{
    let x = member_of(alloc, names, id, x)?;
    Ok(spelled(id, x))
}

// What is on the left, with a link behind it; `at` is where the chain begins.
#[cycle(expressions)]
pub(crate) fn step<N: Lookup>(
    alloc: Global,
    within: &Environment<'_, N>,
    at: usize,
    x: Checked,
    link: &Link,
) -> Result<Checked, Memory>
    ensures { IfOk result (λ r. r ≡ meaning.judge_step least_fault (N.names within.now.names.now)
        within.now.body within.now.scope.now at x link.now) }
{
    match &link.step {
        Step::Member(id) => member(alloc, within.names, id, x),
        Step::Method(id, args) => method(alloc, within, at, x, id, args),
        Step::Index(y) => index(alloc, within, at, x, y),
        Step::Operand(op, y) => operand(alloc, within, at, x, *op, y),
    }
}

// `.ID(..)`.
#[cycle(expressions)]
fn method<N: Lookup>(
    alloc: Global,
    within: &Environment<'_, N>,
    at: usize,
    x: Checked,
    id: &Ident,
    args: &[Expr],
) -> Result<Checked, Memory>
    ensures { IfOk result (λ r. r ≡ meaning.judge_step least_fault (N.names within.now.names.now)
        within.now.body within.now.scope.now at x (Part (label.Method at id.now) (row args.now) NoTree)) }
{
    let name = id.bytes.as_slice();
    let params = params_behind(within.names, name, &x);
    let xs = arguments(alloc, within, at, params, args)?;
    let x = called(alloc, within.names, name, at, count_of(args), x, xs)?;
    Ok(spelled(id, x))
}

// `[..]`.
#[cycle(expressions)]
fn index<N: Lookup>(
    alloc: Global,
    within: &Environment<'_, N>,
    at: usize,
    x: Checked,
    y: &Expr,
) -> Result<Checked, Memory>
    ensures { IfOk result (λ r. r ≡ operands.element least_fault at (places.place_of y.now) x
        (meaning.judge least_fault (N.names within.now.names.now) within.now.body within.now.scope.now y.now)) }
{
    let right = place_of(y);
    let y = judge(alloc, within, y)?;
    element(alloc, at, right, x, y)
}

// A binary operator, and the operand on its right.
#[cycle(expressions)]
fn operand<N: Lookup>(
    alloc: Global,
    within: &Environment<'_, N>,
    at: usize,
    x: Checked,
    op: BinaryOp,
    y: &Expr,
) -> Result<Checked, Memory>
    ensures { IfOk result (λ r. r ≡ operands.operated least_fault (operands.form_of op) at (places.place_of y.now) x
        (meaning.judge least_fault (N.names within.now.names.now) within.now.body within.now.scope.now y.now)) }
{
    let right = place_of(y);
    let y = judge(alloc, within, y)?;
    operated(alloc, op, at, right, x, y)
}
