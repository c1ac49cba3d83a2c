//! The walk over expressions. Each function notes what stands in a tree; after a refusal, for want of memory, the
//! notes are of no use.
ghost use Rattle.std.specs.Prelude.{◌≡◌, OnOk};
ghost use Rattle.sed_units.specs.Tree.{optional, row};
ghost use Rattle.sed_first_fault.specs.Nodes as nodes;

use crate::notes::Notes;
use sed_units::{Expr, Link, Node, Step};
use sed_value::Memory;

/// An expression.
#[cycle(expressions)]
pub fn note_expression(notes: &mut Notes, e: &Expr) -> Result<(), Memory>
    ensures { OnOk result (notes.new ≡ nodes.noted_in notes.old e.now) }
{
    match &e.node {
        Node::Literal(l) => notes.literal(l),
        Node::This => Ok(()),
        Node::Super(_, args) => expressions(notes, args),
        Node::Name(_) => Ok(()),
        Node::Of(_, _) => Ok(()),
        Node::Call(_, args) => expressions(notes, args),
        Node::Paren(x) => note_expression(notes, x),
        Node::Prefix(_, x) => note_expression(notes, x),
        Node::Cast(_, x) => note_expression(notes, x),
        Node::Chain(x, links) => chain(notes, x, links),
        Node::Update(_, x) => note_expression(notes, x),
        Node::Conditional(t, x, y) => three(notes, t, x, y),
        Node::Assign(_, x, y) => two(notes, x, y),
    }
}

#[cycle(expressions)]
fn two(notes: &mut Notes, x: &Expr, y: &Expr) -> Result<(), Memory>
    ensures { OnOk result (notes.new ≡ nodes.noted_in (nodes.noted_in notes.old x.now) y.now) }
{
    note_expression(notes, x)?;
    note_expression(notes, y)
}

#[cycle(expressions)]
fn three(notes: &mut Notes, t: &Expr, x: &Expr, y: &Expr) -> Result<(), Memory>
    ensures { OnOk result (notes.new ≡ nodes.noted_in (nodes.noted_in (nodes.noted_in notes.old t.now) x.now) y.now) }
{
    note_expression(notes, t)?;
    two(notes, x, y)
}

#[cycle(expressions)]
fn chain(notes: &mut Notes, x: &Expr, links: &[Link]) -> Result<(), Memory>
    ensures { OnOk result (notes.new ≡ nodes.noted_in (nodes.noted_in notes.old x.now) (row links.now)) }
{
    note_expression(notes, x)?;
    steps(notes, links)
}

// A row of expressions.
#[cycle(expressions)]
fn expressions(notes: &mut Notes, all: &[Expr]) -> Result<(), Memory>
    ensures { OnOk result (notes.new ≡ nodes.noted_in notes.old (row all.now)) }
{
    for e in all {
        note_expression(notes, e)?;
    }
    Ok(())
}

// A row of links.
#[cycle(expressions)]
fn steps(notes: &mut Notes, all: &[Link]) -> Result<(), Memory>
    ensures { OnOk result (notes.new ≡ nodes.noted_in notes.old (row all.now)) }
{
    for link in all {
        step(notes, link)?;
    }
    Ok(())
}

#[cycle(expressions)]
fn step(notes: &mut Notes, link: &Link) -> Result<(), Memory>
    ensures { OnOk result (notes.new ≡ nodes.noted_in notes.old link.now) }
{
    match &link.step {
        Step::Member(_) => Ok(()),
        Step::Method(_, args) => expressions(notes, args),
        Step::Index(x) => note_expression(notes, x),
        Step::Operand(_, x) => note_expression(notes, x),
    }
}

/// An expression that may be missing.
pub fn note_optional(notes: &mut Notes, e: &Option<Expr>) -> Result<(), Memory>
    ensures { OnOk result (notes.new ≡ nodes.noted_in notes.old (optional e.now)) }
{
    match e {
        Some(e) => note_expression(notes, e),
        None => Ok(()),
    }
}
