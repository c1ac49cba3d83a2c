//! What expressions come to.
ghost use Rattle.std.specs.Prelude.{◌≡◌, IfOk, Some};
ghost use Rattle.sed_body_rules.specs.Choices as choices;
ghost use Rattle.sed_body_rules.specs.Operands as operands;
ghost use Rattle.sed_body_rules.specs.Stores as stores;
ghost use Rattle.sed_typed.specs.declared.operators.Gives.TheVariants as gives;
ghost use Rattle.sed_terms.specs.Faults as faults;
ghost use Rattle.sed_terms.specs.Faults.{least_fault};
ghost use Rattle.sed_bodies.specs.Members as members;
ghost use Rattle.sed_bodies.specs.Expressions as meaning;
ghost use Rattle.sed_bodies.specs.Places as places;

use crate::calls::{call, super_call};
use crate::chains::chain;
use crate::environment::Environment;
use crate::places::{may_name, place_of};
use crate::{Body, literal, named, receiver, spelled};
use sed_body_rules::{
    Checked, Locals, arithmetic_of, assigned, cast, chosen, compound, counted, counted_first,
    flipped, negated, opposite,
};
use sed_names::Lookup;
use sed_terms::{Judged, broken};
use sed_typed::Arithmetic;
use sed_units::{AssignOp, Expr, Ident, Node, PrefixOp, UpdateOp};
use sed_value::{Memory, Prim};
use std::alloc::Global;

fn prefixed(
    alloc: Global,
    at: usize,
    op: PrefixOp,
    may: bool,
    right: usize,
    x: Checked,
) -> Result<Checked, Memory>
    ensures { IfOk result (λ r. r ≡ meaning.prefixed least_fault at op may right x) }
{
    match op {
        PrefixOp::Not => negated(alloc, right, x),
        PrefixOp::Minus => opposite(alloc, right, x),
        PrefixOp::BitNot => flipped(alloc, right, x),
        PrefixOp::Increment => counted_first(alloc, Arithmetic::Add, at, may, right, x),
        PrefixOp::Decrement => counted_first(alloc, Arithmetic::Subtract, at, may, right, x),
    }
}

fn counting(op: UpdateOp) -> Arithmetic
    ensures { result ≡ meaning.counting op }
{
    match op {
        UpdateOp::Increment => Arithmetic::Add,
        UpdateOp::Decrement => Arithmetic::Subtract,
    }
}

// A name alone.
fn name<N: Lookup>(
    alloc: Global,
    within: &Environment<'_, N>,
    id: &Ident,
) -> Result<Checked, Memory>
    ensures { IfOk result (λ r. r ≡ members.spelled least_fault id.now
        (members.named least_fault (N.names within.now.names.now) within.now.body within.now.scope.now id.now)) }
{
    let x = named(alloc, within.names, &within.body, within.scope, id)?;
    Ok(spelled(id, x))
}

// `ID::ID` where it is not before a `.`, and has no meaning.
fn no_value(kit: &Ident, id: &Ident) -> Checked
    ensures { result ≡ members.spelled least_fault kit.now
        (members.spelled least_fault id.now (Judged.Unknown (Some (faults.broken 12 kit.now.at)))) }
{
    spelled(kit, spelled(id, broken(12, kit.at)))
}

/// What an expression comes to, with the least fault inside where it is unknown.
pub fn expression<N: Lookup>(
    alloc: Global,
    names: &N,
    body: &Body,
    scope: &Locals,
    e: &Expr,
) -> Result<Checked, Memory>
    ensures { IfOk result (λ r. r ≡ meaning.judge least_fault (N.names names.now) body.now scope.now e.now) }
{
    let body = *body;
    judge(alloc, &Environment { names, body, scope }, e)
}

// The same, in an environment.
#[cycle(expressions)]
pub(crate) fn judge<N: Lookup>(
    alloc: Global,
    within: &Environment<'_, N>,
    e: &Expr,
) -> Result<Checked, Memory>
    ensures { IfOk result (λ r. r ≡ meaning.judge least_fault (N.names within.now.names.now)
        within.now.body within.now.scope.now e.now) }
{
    match &e.node {
        Node::Literal(l) => literal(alloc, within.names, l),
        Node::This => receiver(alloc, &within.body, e.at),
        Node::Name(id) => name(alloc, within, id),
        Node::Of(kit, id) => Ok(no_value(kit, id)),
        Node::Paren(x) => judge(alloc, within, x),
        Node::Prefix(op, x) => prefix(alloc, within, e.at, *op, x),
        Node::Cast(prim, x) => cast_operand(alloc, within, e.at, *prim, x),
        Node::Update(op, x) => update(alloc, within, e.at, *op, x),
        Node::Conditional(t, x, y) => conditional(alloc, within, t, x, y),
        Node::Assign(op, x, y) => assignment(alloc, within, e.at, *op, x, y),
        Node::Call(id, args) => call(alloc, within, id, args),
        Node::Super(id, args) => super_call(alloc, within, e.at, id, args),
        Node::Chain(x, steps) => chain(alloc, within, e.at, x, steps),
    }
}

// An operator in front, at a place.
#[cycle(expressions)]
fn prefix<N: Lookup>(
    alloc: Global,
    within: &Environment<'_, N>,
    at: usize,
    op: PrefixOp,
    x: &Expr,
) -> Result<Checked, Memory>
    ensures { IfOk result (λ r. r ≡ meaning.prefixed least_fault at op (places.may_name x.now)
        (places.place_of x.now) (meaning.judge least_fault
        (N.names within.now.names.now) within.now.body within.now.scope.now x.now)) }
{
    let right = place_of(x);
    let may = may_name(x);
    let x = judge(alloc, within, x)?;
    prefixed(alloc, at, op, may, right, x)
}

// A cast at a place.
#[cycle(expressions)]
fn cast_operand<N: Lookup>(
    alloc: Global,
    within: &Environment<'_, N>,
    at: usize,
    prim: Prim,
    x: &Expr,
) -> Result<Checked, Memory>
    ensures { IfOk result (λ r. r ≡ operands.cast least_fault at prim
        (places.place_of x.now) (meaning.judge least_fault
        (N.names within.now.names.now) within.now.body within.now.scope.now x.now)) }
{
    let right = place_of(x);
    let x = judge(alloc, within, x)?;
    cast(alloc, at, prim, right, x)
}

// `++` or `--` behind an operand.
#[cycle(expressions)]
fn update<N: Lookup>(
    alloc: Global,
    within: &Environment<'_, N>,
    at: usize,
    op: UpdateOp,
    x: &Expr,
) -> Result<Checked, Memory>
    ensures { IfOk result (λ r. r ≡ stores.counted least_fault (meaning.counting op) gives.Old at
        (places.may_name x.now) (places.place_of x.now) (meaning.judge least_fault
        (N.names within.now.names.now) within.now.body within.now.scope.now x.now)) }
{
    let left = place_of(x);
    let may = may_name(x);
    let x = judge(alloc, within, x)?;
    counted(alloc, counting(op), at, may, left, x)
}

// Both branches of `? :`.
#[cycle(expressions)]
fn branches<N: Lookup>(
    alloc: Global,
    within: &Environment<'_, N>,
    x: &Expr,
    y: &Expr,
) -> Result<(Checked, Checked), Memory>
    ensures left { IfOk result (λ r. r.0 ≡ meaning.judge least_fault (N.names within.now.names.now)
        within.now.body within.now.scope.now x.now) }
    ensures right { IfOk result (λ r. r.1 ≡ meaning.judge least_fault (N.names within.now.names.now)
        within.now.body within.now.scope.now y.now) }
{
    let x = judge(alloc, within, x)?;
    let y = judge(alloc, within, y)?;
    Ok((x, y))
}

// `? :`.
#[cycle(expressions)]
fn conditional<N: Lookup>(
    alloc: Global,
    within: &Environment<'_, N>,
    t: &Expr,
    x: &Expr,
    y: &Expr,
) -> Result<Checked, Memory>
    ensures { IfOk result (λ r. let judged = meaning.judge least_fault
        (N.names within.now.names.now) within.now.body within.now.scope.now in
        r ≡ choices.chosen least_fault (places.place_of t.now) (places.place_of x.now) (places.place_of y.now)
        (judged t.now) (judged x.now) (judged y.now)) }
{
    let at = place_of(t);
    let left = place_of(x);
    let right = place_of(y);
    let t = judge(alloc, within, t)?;
    let (x, y) = branches(alloc, within, x, y)?;
    chosen(alloc, at, left, right, t, x, y)
}

// An assignment at a place.
#[cycle(expressions)]
fn assignment<N: Lookup>(
    alloc: Global,
    within: &Environment<'_, N>,
    at: usize,
    op: AssignOp,
    x: &Expr,
    y: &Expr,
) -> Result<Checked, Memory>
    ensures { IfOk result (λ r. let judged = meaning.judge least_fault
        (N.names within.now.names.now) within.now.body within.now.scope.now in
        r ≡ meaning.stored_by least_fault (N.names within.now.names.now) (stores.arithmetic_of op) at
        (places.may_name x.now) (places.place_of y.now) (judged x.now) (judged y.now)) }
{
    let may = may_name(x);
    let right = place_of(y);
    let x = judge(alloc, within, x)?;
    let y = judge(alloc, within, y)?;
    match arithmetic_of(op) {
        None => assigned(alloc, within.names, at, may, right, x, y),
        Some(arithmetic) => compound(alloc, arithmetic, at, may, right, x, y),
    }
}
