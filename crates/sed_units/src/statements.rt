// Statements.

use crate::expressions::Expr;
use crate::leaves::{Ident, TypeRef};
use std::marker::Model;

/// A statement, with the place of its first byte. Contracts see a tree without places in memory.
#[cycle(statements)]
#[derive(Drop)]
pub struct Stmt {
    pub at: usize,
    pub form: Form,
}

/// What a statement is, as it is written.
#[cycle(statements)]
#[derive(Drop)]
pub enum Form {
    Block(Vec<Stmt>),
    Empty,
    If(Expr, Box<Stmt>),
    IfElse(Expr, Box<Stmt>, Box<Stmt>),
    While(Expr, Box<Stmt>),
    DoWhile(Box<Stmt>, Expr),
    For(ForHead, Box<Stmt>),
    Switch(Expr, Vec<Case>),
    Break,
    Continue,
    Return(Option<Expr>),
    Local(Local),
    /// An expression, whose value is not used.
    Evaluate(Expr),
}

/// A label of a `switch`, with the statements behind it. `default` has no expression.
#[cycle(statements)]
#[derive(Drop)]
pub struct Case {
    pub at: usize,
    pub label: Option<Expr>,
    pub body: Vec<Stmt>,
}

/// A local with its initial value.
#[derive(Drop)]
pub struct Local {
    pub at: usize,
    pub kind: TypeRef,
    pub name: Ident,
    pub value: Option<Expr>,
}

/// What stands between `for` and its body. A missing condition is true.
#[derive(Drop)]
pub struct ForHead {
    pub first: ForFirst,
    pub condition: Option<Expr>,
    pub last: Option<Expr>,
}

/// The first part of a `for`.
#[derive(Drop)]
pub enum ForFirst {
    Nothing,
    Local(Local),
    Evaluate(Expr),
}

impl Model for Stmt {
    ghost use Rattle.sed_units.specs.Tree.{Tree, tree_code, tree_size};
    ghost use Rattle.sed_units.specs.contracts.label.Label as l;

    ghost Value = { Tree };

    ghost coded = { tree_code l.the_row.coded };

    ghost use Rattle.sed_units.specs.StatementTree.{form_tree};

    ghost view = { λ s. form_tree s.at s.form };

    ghost size = { tree_size };

    ghost use Rattle.std.proofs.Common.{arith};
    ghost use Rattle.sed_units.specs.StatementFalls.{form_falls};

    ghost size_decreases = { λ s h. Prim.omega (arith, form_falls s.at s.form) };
}

impl Model for Case {
    ghost use Rattle.sed_units.specs.Tree.{Tree, tree_code, tree_size};
    ghost use Rattle.sed_units.specs.contracts.label.Label as l;

    ghost Value = { Tree };

    ghost coded = { tree_code l.the_row.coded };

    ghost use Rattle.sed_units.specs.StatementTree.{case_tree};

    ghost view = { λ c. case_tree c.at c.label c.body.items };

    ghost size = { tree_size };

    ghost use Rattle.std.proofs.Common.{arith};
    ghost use Rattle.sed_units.specs.StatementFalls.{case_falls};

    ghost size_decreases = { λ c h. Prim.omega (arith, case_falls c.at c.label c.body.items) };
}
