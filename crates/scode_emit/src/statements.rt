//! The code of statements.
//!
//! `out` and `on` are the places that `break` and `continue` go to.
ghost use Rattle.std.specs.Prelude.{◌≡◌, ◌≤◌, ◌+◌, ◌++◌, OnOk, drop};
ghost use Rattle.sed_value.specs.declared.slot_type.Primitive.TheVariants.{Int};
ghost use Rattle.sed_typed.specs.TypedStmt.{is_default as default_label};
ghost use Rattle.scode_emit.specs.Code as code;
ghost use Rattle.scode_emit.specs.Site.{waiting};
ghost use Rattle.scode_emit.specs.Lists.{begin_behind, begins_of, block_code, block_size as block_in, do_code};
ghost use Rattle.scode_emit.specs.Lists.{for_code, if_code, label_code, switch_code, while_code};
ghost use Rattle.scode_emit.specs.Rows.{seen};
ghost use Rattle.scode_emit.specs.Sizes as sizes;

use crate::expressions::emit_expr;
use crate::parts::{emit_begin, emit_drop, emit_last, emit_over, emit_return, emit_test};
use crate::put::put;
use crate::site::Site;
use crate::sizes::{block_size, expr_size, last_size, over_size, stmt_size, test_size, tests_size};
use scode_ops::Op;
use sed_typed::{Expr, Label, Stmt};
use sed_value::{Memory, Prim};

#[cycle(statements)]
fn emit_if(
    ops: &mut Vec<Op>,
    site: &Site<'_>,
    at: usize,
    out: u16,
    on: u16,
    test: &Expr,
    met: &Stmt,
    unmet: &Stmt,
) -> Result<(), Memory>
    requires room { site.now.locals ≤ 250 }
    requires fits { at + sizes.expr_size (seen site.now) test.now + 3 + sizes.stmt_size (seen site.now) met.now
        + sizes.over_size (sizes.stmt_size (seen site.now) unmet.now) + sizes.stmt_size (seen site.now) unmet.now
        ≤ 65535 }
    ensures { OnOk result (ops.new.items ≡ ops.old.items
        ++ if_code (seen site.now) at out on test.now met.now unmet.now) }
{
    let other = stmt_size(site, unmet);
    let first = at + expr_size(site, test) + 3;
    let second = first + stmt_size(site, met) + over_size(other);
    emit_expr(ops, site, at, test)?;
    put(ops, Op::JumpFalse(second as u16))?;
    emit_stmt(ops, site, first, out, on, met)?;
    emit_over(ops, other, second + other)?;
    emit_stmt(ops, site, second, out, on, unmet)
}

#[cycle(statements)]
fn emit_while(
    ops: &mut Vec<Op>,
    site: &Site<'_>,
    at: usize,
    test: &Expr,
    body: &Stmt,
) -> Result<(), Memory>
    requires room { site.now.locals ≤ 250 }
    requires fits { at + sizes.stmt_size (seen site.now) body.now
        + sizes.expr_size (seen site.now) test.now + 7 ≤ 65535 }
    ensures { OnOk result (ops.new.items ≡ ops.old.items ++ while_code (seen site.now) at test.now body.now) }
{
    let check = at + 4 + stmt_size(site, body);
    let end = check + expr_size(site, test) + 3;
    put(ops, Op::Jump(check as u16))?;
    put(ops, Op::Turn)?;
    emit_stmt(ops, site, at + 4, end as u16, check as u16, body)?;
    emit_expr(ops, site, check, test)?;
    put(ops, Op::JumpTrue((at + 3) as u16))
}

#[cycle(statements)]
fn emit_do(
    ops: &mut Vec<Op>,
    site: &Site<'_>,
    at: usize,
    body: &Stmt,
    test: &Expr,
) -> Result<(), Memory>
    requires room { site.now.locals ≤ 250 }
    requires fits { at + sizes.stmt_size (seen site.now) body.now
        + sizes.expr_size (seen site.now) test.now + 4 ≤ 65535 }
    ensures { OnOk result (ops.new.items ≡ ops.old.items ++ do_code (seen site.now) at body.now test.now) }
{
    let check = at + 1 + stmt_size(site, body);
    let end = check + expr_size(site, test) + 3;
    put(ops, Op::Turn)?;
    emit_stmt(ops, site, at + 1, end as u16, check as u16, body)?;
    emit_expr(ops, site, check, test)?;
    put(ops, Op::JumpTrue(at as u16))
}

// What stands behind the first part of a `for`.
#[cycle(statements)]
fn emit_for(
    ops: &mut Vec<Op>,
    site: &Site<'_>,
    start: usize,
    test: &Option<Expr>,
    last: &Option<Expr>,
    body: &Stmt,
) -> Result<(), Memory>
    requires room { site.now.locals ≤ 250 }
    requires fits { start + sizes.stmt_size (seen site.now) body.now + sizes.last_size (seen site.now) last.now
        + sizes.test_size (seen site.now) test.now + 7 ≤ 65535 }
    ensures { OnOk result (ops.new.items ≡ ops.old.items
        ++ for_code (seen site.now) start test.now last.now body.now) }
{
    let step = start + 4 + stmt_size(site, body);
    let check = step + last_size(site, last);
    let end = check + test_size(site, test) + 3;
    put(ops, Op::Jump(check as u16))?;
    put(ops, Op::Turn)?;
    emit_stmt(ops, site, start + 4, end as u16, step as u16, body)?;
    emit_last(ops, site, step, last)?;
    emit_test(ops, site, check, test)?;
    put(ops, Op::JumpTrue((start + 3) as u16))
}

// Where the statement behind the first one begins, or where they all end.
fn next_begin(site: &Site<'_>, place: usize, all: &[Stmt]) -> usize
    requires { place + block_in (seen site.now) all.now ≤ 65535 }
    ensures { result ≡ begin_behind (seen site.now) place all.now }
{
    match all.first() {
        Some(s) => place + stmt_size(site, s),
        None => place,
    }
}

// All but the first one, if there is one.
fn behind_first(all: &[Stmt]) -> &[Stmt]
    ensures { result.now ≡ drop 1 all.now }
{
    if all.is_empty() {
        return all;
    }
    &all[1..]
}

// The test of a label: the value that waits in a local is compared with a case, whose statement begins at a place.
fn emit_label(ops: &mut Vec<Op>, local: u8, label: Label, place: usize) -> Result<(), Memory>
    requires { place ≤ 65535 }
    ensures { OnOk result (ops.new.items ≡ ops.old.items ++ label_code local label place) }
{
    match label {
        Label::Case(case) => {
            put(ops, Op::Load(local))?;
            put(ops, Op::Int(case))?;
            put(ops, Op::IntEq)?;
            put(ops, Op::JumpTrue(place as u16))
        }
        Label::Default => Ok(()),
    }
}

// The tests of a `switch`, whose statements begin at a place.
fn emit_tests(
    ops: &mut Vec<Op>,
    site: &Site<'_>,
    first: usize,
    labels: &[Label],
    all: &[Stmt],
) -> Result<(), Memory>
    requires room { site.now.locals ≤ 250 }
    requires fits { first + block_in (seen site.now) all.now ≤ 65535 }
    ensures { OnOk result (ops.new.items ≡ ops.old.items ++ code.tests_code (waiting (seen site.now) Int)
        (first + block_in (seen site.now) all.now) labels.now (begins_of (seen site.now) first all.now)) }
{
    let local = site.waiting(Prim::Int);
    let mut place = first;
    let mut rest = all;
    for label in labels {
        emit_label(ops, local, *label, place)?;
        place = next_begin(site, place, rest);
        rest = behind_first(rest);
    }
    Ok(())
}

fn is_default(label: Label) -> bool
    ensures { result ≡ default_label label }
{
    match label {
        Label::Case(_) => false,
        Label::Default => true,
    }
}

// The place of a `switch`'s default among its statements, the first of which begins at a place, or that behind them
// all.
fn default_place(site: &Site<'_>, first: usize, labels: &[Label], all: &[Stmt]) -> usize
    requires { first + block_in (seen site.now) all.now ≤ 65535 }
    ensures { result ≡ code.default_place (first + block_in (seen site.now) all.now) labels.now
        (begins_of (seen site.now) first all.now) }
{
    let mut place = first;
    let mut rest = all;
    for label in labels {
        if is_default(*label) {
            return place;
        }
        place = next_begin(site, place, rest);
        rest = behind_first(rest);
    }
    place
}

#[cycle(statements)]
fn emit_switch(
    ops: &mut Vec<Op>,
    site: &Site<'_>,
    at: usize,
    on: u16,
    e: &Expr,
    labels: &[Label],
    all: &[Stmt],
) -> Result<(), Memory>
    requires room { site.now.locals ≤ 250 }
    requires fits { at + sizes.expr_size (seen site.now) e.now + 2 + sizes.tests_size labels.now + 3
        + block_in (seen site.now) all.now ≤ 65535 }
    ensures { OnOk result (ops.new.items ≡ ops.old.items
        ++ switch_code (seen site.now) at on e.now labels.now all.now) }
{
    let first = at + expr_size(site, e) + 2 + tests_size(labels) + 3;
    let end = first + block_size(site, all);
    emit_expr(ops, site, at, e)?;
    put(ops, Op::Store(site.waiting(Prim::Int)))?;
    emit_tests(ops, site, first, labels, all)?;
    put(
        ops,
        Op::Jump(default_place(site, first, labels, all) as u16),
    )?;
    emit_block(ops, site, first, end as u16, on, all)
}

// The code of a statement.
#[cycle(statements)]
pub(crate) fn emit_stmt(
    ops: &mut Vec<Op>,
    site: &Site<'_>,
    at: usize,
    out: u16,
    on: u16,
    s: &Stmt,
) -> Result<(), Memory>
    requires room { site.now.locals ≤ 250 }
    requires fits { at + sizes.stmt_size (seen site.now) s.now ≤ 65535 }
    ensures { OnOk result (ops.new.items ≡ ops.old.items ++ code.stmt_code (seen site.now) at out on s.now) }
{
    match s {
        Stmt::Empty => Ok(()),
        Stmt::Do(e) => emit_drop(ops, site, at, e),
        Stmt::Local(kind, number, value) => {
            emit_begin(ops, site, at, *kind, value)?;
            put(ops, Op::Store(*number))
        }
        Stmt::Block(all) => emit_block(ops, site, at, out, on, all),
        Stmt::If(test, met, unmet) => emit_if(ops, site, at, out, on, test, met, unmet),
        Stmt::While(test, body) => emit_while(ops, site, at, test, body),
        Stmt::DoWhile(body, test) => emit_do(ops, site, at, body, test),
        Stmt::For(first, test, last, body) => {
            emit_stmt(ops, site, at, out, on, first)?;
            emit_for(ops, site, at + stmt_size(site, first), test, last, body)
        }
        Stmt::Switch(e, labels, all) => emit_switch(ops, site, at, on, e, labels, all),
        Stmt::Break => put(ops, Op::Jump(out)),
        Stmt::Continue => put(ops, Op::Jump(on)),
        Stmt::Return(value) => emit_return(ops, site, at, value),
    }
}

// Statements, one behind the other.
#[cycle(statements)]
fn emit_block(
    ops: &mut Vec<Op>,
    site: &Site<'_>,
    at: usize,
    out: u16,
    on: u16,
    all: &[Stmt],
) -> Result<(), Memory>
    requires room { site.now.locals ≤ 250 }
    requires fits { at + block_in (seen site.now) all.now ≤ 65535 }
    ensures { OnOk result (ops.new.items ≡ ops.old.items ++ block_code (seen site.now) at out on all.now) }
{
    let mut place = at;
    for s in all {
        emit_stmt(ops, site, place, out, on, s)?;
        place += stmt_size(site, s);
    }
    Ok(())
}
