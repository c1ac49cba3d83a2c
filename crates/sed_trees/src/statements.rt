// Statements and the parts of them, made of their parts, each in a place of its own.
ghost use Rattle.std.specs.Prelude.{◌≡◌};
ghost use Rattle.sed_trees.specs.Makes.{Makes};
ghost use Rattle.sed_units.specs.StatementTree.{local_tree, for_tree, case_tree};
ghost use Rattle.sed_units.specs.Tree as tree;
ghost use Rattle.sed_units.specs.declared.label.Label.TheVariants as label;
ghost use Rattle.sed_units.specs.declared.statements.ForFirst.TheVariants as begins;
ghost use Rattle.sed_units.specs.declared.statements.ForHead.{ForHead as TheForHead};
ghost use Rattle.sed_units.specs.declared.statements.Local.{Local as TheLocal};

use crate::boxed::{Boxed, unboxed};
use sed_units::{Case, Expr, ForFirst, ForHead, Form, Ident, Local, Stmt, TypeRef};
use sed_value::{Halt, Items};
use std::alloc::Global;

/// A local with its initial value, if it has one.
pub fn local(
    alloc: Global,
    at: usize,
    kind: Boxed<TypeRef>,
    name: Ident,
    value: Option<Boxed<Expr>>,
) -> Result<Boxed<Local>, Halt>
    ensures { Makes result (let l : TheLocal = record { at = at; kind = kind; name = name; value = value } in l) }
{
    Boxed::new(
        alloc,
        Local {
            at,
            kind: kind.into_inner(),
            name,
            value: unboxed(value),
        },
    )
}

// ---- what stands between `for` and its body

/// Nothing, where a `for` begins.
pub fn no_first(alloc: Global) -> Result<Boxed<ForFirst>, Halt>
    ensures { Makes result begins.Nothing }
{
    Boxed::new(alloc, ForFirst::Nothing)
}

/// A local, where a `for` begins.
pub fn first_local(alloc: Global, local: Boxed<Local>) -> Result<Boxed<ForFirst>, Halt>
    ensures { Makes result (begins.Local local) }
{
    Boxed::new(alloc, ForFirst::Local(local.into_inner()))
}

/// An expression, where a `for` begins.
pub fn first_evaluate(alloc: Global, e: Boxed<Expr>) -> Result<Boxed<ForFirst>, Halt>
    ensures { Makes result (begins.Evaluate e) }
{
    Boxed::new(alloc, ForFirst::Evaluate(e.into_inner()))
}

/// What stands between `for` and its body.
pub fn for_head(
    alloc: Global,
    first: Boxed<ForFirst>,
    condition: Option<Boxed<Expr>>,
    last: Option<Boxed<Expr>>,
) -> Result<Boxed<ForHead>, Halt>
    ensures { Makes result (let h : TheForHead = record { first = first; condition = condition; last = last } in h) }
{
    Boxed::new(
        alloc,
        ForHead {
            first: first.into_inner(),
            condition: unboxed(condition),
            last: unboxed(last),
        },
    )
}

// ---- statements with no other one within them

/// `;` alone.
pub fn empty(alloc: Global, at: usize) -> Result<Boxed<Stmt>, Halt>
    ensures { Makes result (tree.Part (label.Empty at) tree.Absent tree.Absent) }
{
    Boxed::new(
        alloc,
        Stmt {
            at,
            form: Form::Empty,
        },
    )
}

/// `break`.
pub fn break_out(alloc: Global, at: usize) -> Result<Boxed<Stmt>, Halt>
    ensures { Makes result (tree.Part (label.Break at) tree.Absent tree.Absent) }
{
    Boxed::new(
        alloc,
        Stmt {
            at,
            form: Form::Break,
        },
    )
}

/// `continue`.
pub fn go_on(alloc: Global, at: usize) -> Result<Boxed<Stmt>, Halt>
    ensures { Makes result (tree.Part (label.Continue at) tree.Absent tree.Absent) }
{
    Boxed::new(
        alloc,
        Stmt {
            at,
            form: Form::Continue,
        },
    )
}

/// `return`, with the value, if it has one.
pub fn give_back(alloc: Global, at: usize, value: Option<Boxed<Expr>>) -> Result<Boxed<Stmt>, Halt>
    ensures { Makes result (tree.Part (label.Return at) (tree.optional value) tree.Absent) }
{
    Boxed::new(
        alloc,
        Stmt {
            at,
            form: Form::Return(unboxed(value)),
        },
    )
}

/// A local as a statement, at the place of the local.
pub fn local_statement(alloc: Global, local: Boxed<Local>) -> Result<Boxed<Stmt>, Halt>
    ensures { Makes result (local_tree local) }
{
    let local = local.into_inner();
    Boxed::new(
        alloc,
        Stmt {
            at: local.at,
            form: Form::Local(local),
        },
    )
}

/// An expression as a statement.
pub fn evaluate(alloc: Global, at: usize, e: Boxed<Expr>) -> Result<Boxed<Stmt>, Halt>
    ensures { Makes result (tree.Part (label.Evaluate at) e tree.Absent) }
{
    Boxed::new(
        alloc,
        Stmt {
            at,
            form: Form::Evaluate(e.into_inner()),
        },
    )
}

// ---- statements with others within them

/// `{ .. }` around statements.
pub fn block(alloc: Global, at: usize, ss: Items<Stmt>) -> Result<Boxed<Stmt>, Halt>
    ensures { Makes result (tree.Part (label.Block at) (tree.row ss) tree.Absent) }
{
    Boxed::new(
        alloc,
        Stmt {
            at,
            form: Form::Block(ss.into_vec()),
        },
    )
}

/// `if` without `else`.
pub fn if_alone(
    alloc: Global,
    at: usize,
    c: Boxed<Expr>,
    s: Boxed<Stmt>,
) -> Result<Boxed<Stmt>, Halt>
    ensures { Makes result (tree.Part (label.If at) c (tree.Part label.Both s tree.Absent)) }
{
    Boxed::new(
        alloc,
        Stmt {
            at,
            form: Form::If(c.into_inner(), s.into_box()),
        },
    )
}

/// `if` with `else`.
pub fn if_else(
    alloc: Global,
    at: usize,
    c: Boxed<Expr>,
    s: Boxed<Stmt>,
    other: Boxed<Stmt>,
) -> Result<Boxed<Stmt>, Halt>
    ensures { Makes result (tree.Part (label.If at) c (tree.Part label.Both s other)) }
{
    Boxed::new(
        alloc,
        Stmt {
            at,
            form: Form::IfElse(c.into_inner(), s.into_box(), other.into_box()),
        },
    )
}

/// `if`, with or without `else`.
pub fn choice(
    alloc: Global,
    at: usize,
    c: Boxed<Expr>,
    s: Boxed<Stmt>,
    other: Option<Boxed<Stmt>>,
) -> Result<Boxed<Stmt>, Halt>
    ensures { Makes result (tree.Part (label.If at) c (tree.Part label.Both s (tree.optional other))) }
{
    match other {
        Some(other) => if_else(alloc, at, c, s, other),
        None => if_alone(alloc, at, c, s),
    }
}

/// `while`.
pub fn while_do(
    alloc: Global,
    at: usize,
    c: Boxed<Expr>,
    s: Boxed<Stmt>,
) -> Result<Boxed<Stmt>, Halt>
    ensures { Makes result (tree.Part (label.While at) c s) }
{
    Boxed::new(
        alloc,
        Stmt {
            at,
            form: Form::While(c.into_inner(), s.into_box()),
        },
    )
}

/// `do`, its body and its condition.
pub fn do_while(
    alloc: Global,
    at: usize,
    s: Boxed<Stmt>,
    c: Boxed<Expr>,
) -> Result<Boxed<Stmt>, Halt>
    ensures { Makes result (tree.Part (label.Do at) s c) }
{
    Boxed::new(
        alloc,
        Stmt {
            at,
            form: Form::DoWhile(s.into_box(), c.into_inner()),
        },
    )
}

/// `for`.
pub fn for_do(
    alloc: Global,
    at: usize,
    head: Boxed<ForHead>,
    s: Boxed<Stmt>,
) -> Result<Boxed<Stmt>, Halt>
    ensures { Makes result (for_tree at head s) }
{
    Boxed::new(
        alloc,
        Stmt {
            at,
            form: Form::For(head.into_inner(), s.into_box()),
        },
    )
}

/// `switch` over its cases.
pub fn switch(
    alloc: Global,
    at: usize,
    e: Boxed<Expr>,
    cases: Items<Case>,
) -> Result<Boxed<Stmt>, Halt>
    ensures { Makes result (tree.Part (label.Switch at) e (tree.row cases)) }
{
    Boxed::new(
        alloc,
        Stmt {
            at,
            form: Form::Switch(e.into_inner(), cases.into_vec()),
        },
    )
}

/// A label of a `switch`, with the statements behind it.
pub fn case(
    alloc: Global,
    at: usize,
    expression: Option<Boxed<Expr>>,
    body: Items<Stmt>,
) -> Result<Boxed<Case>, Halt>
    ensures { Makes result (case_tree at expression body) }
{
    Boxed::new(
        alloc,
        Case {
            at,
            label: unboxed(expression),
            body: body.into_vec(),
        },
    )
}
