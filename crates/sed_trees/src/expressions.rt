// Expressions and the steps behind them, made of their parts, each in a place of its own.
ghost use Rattle.std.specs.Prelude.{◌≡◌};
ghost use Rattle.sed_trees.specs.Makes.{Makes};
ghost use Rattle.sed_units.specs.Tree as tree;
ghost use Rattle.sed_units.specs.declared.label.Label.TheVariants as label;

use crate::boxed::Boxed;
use sed_units::{AssignOp, BinaryOp, Expr, Ident, Link, Literal, Node, PrefixOp, Step, UpdateOp};
use sed_value::{Halt, Items, Prim};
use std::alloc::Global;

/// A literal as an expression, at the place of the literal.
pub fn literal(alloc: Global, l: Literal) -> Result<Boxed<Expr>, Halt>
    ensures { Makes result (tree.Part (label.Literal l) tree.Absent tree.Absent) }
{
    let at = l.at;
    Boxed::new(
        alloc,
        Expr {
            at,
            node: Node::Literal(l),
        },
    )
}

/// `this`.
pub fn this(alloc: Global, at: usize) -> Result<Boxed<Expr>, Halt>
    ensures { Makes result (tree.Part (label.This at) tree.Absent tree.Absent) }
{
    Boxed::new(
        alloc,
        Expr {
            at,
            node: Node::This,
        },
    )
}

/// `super.ID(..)`.
pub fn super_call(
    alloc: Global,
    at: usize,
    name: Ident,
    args: Items<Expr>,
) -> Result<Boxed<Expr>, Halt>
    ensures { Makes result (tree.Part (label.Super at name) (tree.row args) tree.Absent) }
{
    Boxed::new(
        alloc,
        Expr {
            at,
            node: Node::Super(name, args.into_vec()),
        },
    )
}

/// A name as an expression, at the place of the name.
pub fn name(alloc: Global, id: Ident) -> Result<Boxed<Expr>, Halt>
    ensures { Makes result (tree.Part (label.Name id) tree.Absent tree.Absent) }
{
    let at = id.at;
    Boxed::new(
        alloc,
        Expr {
            at,
            node: Node::Name(id),
        },
    )
}

/// `KIT::ID`, at the place of the kit's name.
pub fn name_of_kit(alloc: Global, kit: Ident, id: Ident) -> Result<Boxed<Expr>, Halt>
    ensures { Makes result (tree.Part (label.Of kit id) tree.Absent tree.Absent) }
{
    let at = kit.at;
    Boxed::new(
        alloc,
        Expr {
            at,
            node: Node::Of(kit, id),
        },
    )
}

/// `ID(..)`, at the place of the name.
pub fn call(alloc: Global, id: Ident, args: Items<Expr>) -> Result<Boxed<Expr>, Halt>
    ensures { Makes result (tree.Part (label.Call id) (tree.row args) tree.Absent) }
{
    let at = id.at;
    Boxed::new(
        alloc,
        Expr {
            at,
            node: Node::Call(id, args.into_vec()),
        },
    )
}

/// An operand with the steps behind it.
pub fn chain(
    alloc: Global,
    at: usize,
    first: Boxed<Expr>,
    links: Items<Link>,
) -> Result<Boxed<Expr>, Halt>
    ensures { Makes result (tree.Part (label.Chain at) first (tree.row links)) }
{
    Boxed::new(
        alloc,
        Expr {
            at,
            node: Node::Chain(first.into_box(), links.into_vec()),
        },
    )
}

/// An expression in parentheses.
pub fn paren(alloc: Global, at: usize, e: Boxed<Expr>) -> Result<Boxed<Expr>, Halt>
    ensures { Makes result (tree.Part (label.Paren at) e tree.Absent) }
{
    Boxed::new(
        alloc,
        Expr {
            at,
            node: Node::Paren(e.into_box()),
        },
    )
}

/// A prefix operator before its operand.
pub fn prefix(alloc: Global, at: usize, op: PrefixOp, e: Boxed<Expr>) -> Result<Boxed<Expr>, Halt>
    ensures { Makes result (tree.Part (label.Prefix at op) e tree.Absent) }
{
    Boxed::new(
        alloc,
        Expr {
            at,
            node: Node::Prefix(op, e.into_box()),
        },
    )
}

/// A cast of an operand.
pub fn cast(alloc: Global, at: usize, kind: Prim, e: Boxed<Expr>) -> Result<Boxed<Expr>, Halt>
    ensures { Makes result (tree.Part (label.Cast at kind) e tree.Absent) }
{
    Boxed::new(
        alloc,
        Expr {
            at,
            node: Node::Cast(kind, e.into_box()),
        },
    )
}

/// `++` or `--` behind its operand.
pub fn update(alloc: Global, at: usize, op: UpdateOp, e: Boxed<Expr>) -> Result<Boxed<Expr>, Halt>
    ensures { Makes result (tree.Part (label.Update at op) e tree.Absent) }
{
    Boxed::new(
        alloc,
        Expr {
            at,
            node: Node::Update(op, e.into_box()),
        },
    )
}

/// `? :` of its condition and both branches.
pub fn choice(
    alloc: Global,
    at: usize,
    c: Boxed<Expr>,
    a: Boxed<Expr>,
    b: Boxed<Expr>,
) -> Result<Boxed<Expr>, Halt>
    ensures { Makes result (tree.Part (label.Conditional at) c (tree.Part label.Both a b)) }
{
    Boxed::new(
        alloc,
        Expr {
            at,
            node: Node::Conditional(c.into_box(), a.into_box(), b.into_box()),
        },
    )
}

/// An assignment to a target.
pub fn assign(
    alloc: Global,
    at: usize,
    op: AssignOp,
    target: Boxed<Expr>,
    value: Boxed<Expr>,
) -> Result<Boxed<Expr>, Halt>
    ensures { Makes result (tree.Part (label.Assign at op) target value) }
{
    Boxed::new(
        alloc,
        Expr {
            at,
            node: Node::Assign(op, target.into_box(), value.into_box()),
        },
    )
}

// ---- steps behind an expression

/// `.ID`.
pub fn member_step(alloc: Global, at: usize, id: Ident) -> Result<Boxed<Link>, Halt>
    ensures { Makes result (tree.Part (label.Member at id) tree.Absent tree.Absent) }
{
    Boxed::new(
        alloc,
        Link {
            at,
            step: Step::Member(id),
        },
    )
}

/// `.ID(..)`.
pub fn method_step(
    alloc: Global,
    at: usize,
    id: Ident,
    args: Items<Expr>,
) -> Result<Boxed<Link>, Halt>
    ensures { Makes result (tree.Part (label.Method at id) (tree.row args) tree.Absent) }
{
    Boxed::new(
        alloc,
        Link {
            at,
            step: Step::Method(id, args.into_vec()),
        },
    )
}

/// `[EXPRESSION]`.
pub fn index_step(alloc: Global, at: usize, e: Boxed<Expr>) -> Result<Boxed<Link>, Halt>
    ensures { Makes result (tree.Part (label.Index at) e tree.Absent) }
{
    Boxed::new(
        alloc,
        Link {
            at,
            step: Step::Index(e.into_inner()),
        },
    )
}

/// A binary operator with the operand on its right.
pub fn operand_step(
    alloc: Global,
    at: usize,
    op: BinaryOp,
    e: Boxed<Expr>,
) -> Result<Boxed<Link>, Halt>
    ensures { Makes result (tree.Part (label.Operand at op) e tree.Absent) }
{
    Boxed::new(
        alloc,
        Link {
            at,
            step: Step::Operand(op, e.into_inner()),
        },
    )
}
