// Expressions.

use crate::leaves::{Ident, Literal};
use crate::operators::{AssignOp, BinaryOp, PrefixOp, UpdateOp};
use sed_value::Prim;
use std::marker::Model;

/// An expression, with the place of its first byte.
///
/// What follows an operand from left to right (`a + b - c`, `a.f.g(x)[i]`) is one chain, so that only what counts as
/// nesting makes a tree deep. Contracts see an expression as a tree without places in memory.
#[cycle(expressions)]
#[derive(Drop)]
pub struct Expr {
    pub at: usize,
    pub node: Node,
}

/// What an expression is, as it is written.
#[cycle(expressions)]
#[derive(Drop)]
pub enum Node {
    Literal(Literal),
    This,
    /// `super.ID(..)`
    Super(Ident, Vec<Expr>),
    Name(Ident),
    /// `ID::ID`
    Of(Ident, Ident),
    Call(Ident, Vec<Expr>),
    /// An expression in parentheses.
    Paren(Box<Expr>),
    Prefix(PrefixOp, Box<Expr>),
    Cast(Prim, Box<Expr>),
    /// An operand, and one step or more behind it. The steps are all of one level.
    Chain(Box<Expr>, Vec<Link>),
    /// `++` or `--` behind an operand.
    Update(UpdateOp, Box<Expr>),
    /// `? :`
    Conditional(Box<Expr>, Box<Expr>, Box<Expr>),
    Assign(AssignOp, Box<Expr>, Box<Expr>),
}

/// A step of a chain, with the place of its first byte.
#[cycle(expressions)]
#[derive(Drop)]
pub struct Link {
    pub at: usize,
    pub step: Step,
}

/// One step behind an operand: a member, a call or an index.
#[cycle(expressions)]
#[derive(Drop)]
pub enum Step {
    /// `.ID`
    Member(Ident),
    /// `.ID(..)`
    Method(Ident, Vec<Expr>),
    /// `[..]`
    Index(Expr),
    /// A binary operator, and the operand on its right.
    Operand(BinaryOp, Expr),
}

impl Model for Expr {
    ghost use Rattle.sed_units.specs.Tree.{Tree, tree_code, tree_size};
    ghost use Rattle.sed_units.specs.contracts.label.Label as l;

    ghost Value = { Tree };

    ghost coded = { tree_code l.the_row.coded };

    ghost use Rattle.sed_units.specs.ExpressionTree.{node_tree};

    ghost view = { λ e. node_tree e.at e.node };

    ghost size = { tree_size };

    ghost use Rattle.std.proofs.Common.{arith};
    ghost use Rattle.sed_units.specs.ExpressionFalls.{node_falls};

    ghost size_decreases = { λ e h. Prim.omega (arith, node_falls e.at e.node) };
}

impl Model for Link {
    ghost use Rattle.sed_units.specs.Tree.{Tree, tree_code, tree_size};
    ghost use Rattle.sed_units.specs.contracts.label.Label as l;

    ghost Value = { Tree };

    ghost coded = { tree_code l.the_row.coded };

    ghost use Rattle.sed_units.specs.ExpressionTree.{step_tree};

    ghost view = { λ k. step_tree k.at k.step };

    ghost size = { tree_size };

    ghost use Rattle.std.proofs.Common.{arith};
    ghost use Rattle.sed_units.specs.ExpressionFalls.{step_falls};

    ghost size_decreases = { λ k h. Prim.omega (arith, step_falls k.at k.step) };
}
