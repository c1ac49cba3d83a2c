//! The marks of statements. Below the expressions of a statement the stack is empty.
ghost use Rattle.std.specs.Prelude.{◌≡◌, ◌≤◌, ◌+◌, ◌++◌, [], OnOk};
ghost use Rattle.sed_typed.specs.declared.statement.Stmt.TheVariants.{Return};
ghost use Rattle.scode_entries.specs.Entries as entries;
ghost use Rattle.scode_emit.specs.Instructions as meant;
ghost use Rattle.scode_emit.specs.Lists.{block_size as block_in};
ghost use Rattle.scode_entries.specs.MarkLists.{block_marks, case_marks, do_marks, for_marks, if_marks, updated_marks};
ghost use Rattle.scode_entries.specs.MarkLists.{switch_marks, while_marks};
ghost use Rattle.scode_emit.specs.Rows.{seen};
ghost use Rattle.scode_emit.specs.Sizes as sizes;

use crate::cells::{Below, above, with_holder, with_index};
use crate::expression_marks::{mark_expr, mark_place, mark_set};
use crate::marks::{Mark, put_mark};
use scode_emit::{
    Site, expr_size, fetch_size, last_size, over_size, place_kind, place_size, stmt_size,
    storage_of, test_size, tests_size,
};
use sed_typed::{Expr, Label, Place, Stmt};
use sed_value::Memory;

// The marks of a compound assignment whose value is not used.
fn mark_updated(
    marks: &mut Vec<Mark>,
    site: &Site<'_>,
    at: usize,
    target: &Place,
    operand: &Expr,
) -> Result<(), Memory>
    requires { at + sizes.place_size (seen site.now) target.now
        + meant.fetch_size (meant.storage (seen site.now) target.now)
        + sizes.expr_size (seen site.now) operand.now ≤ 65535 }
    ensures { OnOk result (marks.new.items ≡ marks.old.items
        ++ updated_marks (seen site.now) at target.now operand.now) }
{
    let none = Below::Nothing;
    let holder = with_holder(target, &none);
    let place = with_index(target, &holder);
    let old = above(place_kind(target), &place);
    let next = at + place_size(site, target) + fetch_size(storage_of(site, target));
    mark_place(marks, site, &none, at, target)?;
    mark_expr(marks, site, &old, next, operand)
}

// The marks of an expression whose value is not used.
fn mark_drop(marks: &mut Vec<Mark>, site: &Site<'_>, at: usize, e: &Expr) -> Result<(), Memory>
    requires { at + sizes.drop_size (seen site.now) e.now ≤ 65535 }
    ensures { OnOk result (marks.new.items ≡ marks.old.items ++ entries.drop_marks (seen site.now) at e.now) }
{
    match e {
        Expr::Set(target, value) => mark_set(marks, site, &Below::Nothing, at, target, value),
        Expr::Update(_, target, operand) => mark_updated(marks, site, at, target, operand),
        Expr::Int(_) => Ok(()),
        Expr::Long(_) => Ok(()),
        Expr::Bool(_) => Ok(()),
        Expr::Null(_) => Ok(()),
        Expr::Text(_) => Ok(()),
        Expr::This(_) => Ok(()),
        Expr::Local(_, _) => Ok(()),
        Expr::Static(_, _) => Ok(()),
        Expr::StaticPart(_, _) => Ok(()),
        Expr::StaticElement(_, _, _, _) => mark_expr(marks, site, &Below::Nothing, at, e),
        Expr::Ticks => Ok(()),
        Expr::Unary(_, _) => mark_expr(marks, site, &Below::Nothing, at, e),
        Expr::Choose(_, _, _) => mark_expr(marks, site, &Below::Nothing, at, e),
        Expr::Call(_, _, _) => mark_expr(marks, site, &Below::Nothing, at, e),
        Expr::Super(_, _, _) => mark_expr(marks, site, &Below::Nothing, at, e),
        Expr::Chain(_, _) => mark_expr(marks, site, &Below::Nothing, at, e),
    }
}

// The marks of a part that may be missing.
fn mark_part(
    marks: &mut Vec<Mark>,
    site: &Site<'_>,
    at: usize,
    part: &Option<Expr>,
) -> Result<(), Memory>
    requires { at + sizes.test_size (seen site.now) part.now ≤ 65535 }
    ensures { OnOk result (marks.new.items ≡ marks.old.items ++ entries.part_marks (seen site.now) at part.now) }
{
    match part {
        Some(e) => mark_expr(marks, site, &Below::Nothing, at, e),
        None => Ok(()),
    }
}

fn mark_last(
    marks: &mut Vec<Mark>,
    site: &Site<'_>,
    at: usize,
    last: &Option<Expr>,
) -> Result<(), Memory>
    requires { at + sizes.last_size (seen site.now) last.now ≤ 65535 }
    ensures { OnOk result (marks.new.items ≡ marks.old.items ++ entries.last_marks (seen site.now) at last.now) }
{
    match last {
        Some(e) => mark_drop(marks, site, at, e),
        None => Ok(()),
    }
}

fn mark_return(
    marks: &mut Vec<Mark>,
    site: &Site<'_>,
    at: usize,
    value: &Option<Expr>,
) -> Result<(), Memory>
    requires { at + sizes.stmt_size (seen site.now) (Return value.now) ≤ 65535 }
    ensures { OnOk result (marks.new.items ≡ marks.old.items
        ++ entries.stmt_marks (seen site.now) at (Return value.now)) }
{
    match value {
        Some(e) => {
            mark_expr(marks, site, &Below::Nothing, at, e)?;
            put_mark(marks, at + expr_size(site, e) + 1, &Below::Nothing)
        }
        None => put_mark(marks, at + 1, &Below::Nothing),
    }
}

#[cycle(statement_marks)]
fn mark_if(
    marks: &mut Vec<Mark>,
    site: &Site<'_>,
    at: usize,
    test: &Expr,
    met: &Stmt,
    unmet: &Stmt,
) -> Result<(), Memory>
    requires { at + sizes.expr_size (seen site.now) test.now + 3 + sizes.stmt_size (seen site.now) met.now
        + sizes.over_size (sizes.stmt_size (seen site.now) unmet.now) + sizes.stmt_size (seen site.now) unmet.now
        ≤ 65535 }
    ensures { OnOk result (marks.new.items ≡ marks.old.items
        ++ if_marks (seen site.now) at test.now met.now unmet.now) }
{
    let other = stmt_size(site, unmet);
    let first = at + expr_size(site, test) + 3;
    let second = first + stmt_size(site, met) + over_size(other);
    mark_expr(marks, site, &Below::Nothing, at, test)?;
    mark_stmt(marks, site, first, met)?;
    put_mark(marks, second, &Below::Nothing)?;
    mark_stmt(marks, site, second, unmet)?;
    put_mark(marks, second + other, &Below::Nothing)
}

#[cycle(statement_marks)]
fn mark_while(
    marks: &mut Vec<Mark>,
    site: &Site<'_>,
    at: usize,
    test: &Expr,
    body: &Stmt,
) -> Result<(), Memory>
    requires { at + sizes.stmt_size (seen site.now) body.now
        + sizes.expr_size (seen site.now) test.now + 7 ≤ 65535 }
    ensures { OnOk result (marks.new.items ≡ marks.old.items
        ++ while_marks (seen site.now) at test.now body.now) }
{
    let check = at + 4 + stmt_size(site, body);
    let end = check + expr_size(site, test) + 3;
    put_mark(marks, at + 3, &Below::Nothing)?;
    mark_stmt(marks, site, at + 4, body)?;
    put_mark(marks, check, &Below::Nothing)?;
    mark_expr(marks, site, &Below::Nothing, check, test)?;
    put_mark(marks, end, &Below::Nothing)
}

#[cycle(statement_marks)]
fn mark_do(
    marks: &mut Vec<Mark>,
    site: &Site<'_>,
    at: usize,
    body: &Stmt,
    test: &Expr,
) -> Result<(), Memory>
    requires { at + sizes.stmt_size (seen site.now) body.now
        + sizes.expr_size (seen site.now) test.now + 4 ≤ 65535 }
    ensures { OnOk result (marks.new.items ≡ marks.old.items
        ++ do_marks (seen site.now) at body.now test.now) }
{
    let check = at + 1 + stmt_size(site, body);
    let end = check + expr_size(site, test) + 3;
    put_mark(marks, at, &Below::Nothing)?;
    mark_stmt(marks, site, at + 1, body)?;
    put_mark(marks, check, &Below::Nothing)?;
    mark_expr(marks, site, &Below::Nothing, check, test)?;
    put_mark(marks, end, &Below::Nothing)
}

// The marks of what stands behind the first part of a `for`.
#[cycle(statement_marks)]
fn mark_for(
    marks: &mut Vec<Mark>,
    site: &Site<'_>,
    start: usize,
    test: &Option<Expr>,
    last: &Option<Expr>,
    body: &Stmt,
) -> Result<(), Memory>
    requires { start + sizes.stmt_size (seen site.now) body.now + sizes.last_size (seen site.now) last.now
        + sizes.test_size (seen site.now) test.now + 7 ≤ 65535 }
    ensures { OnOk result (marks.new.items ≡ marks.old.items
        ++ for_marks (seen site.now) start test.now last.now body.now) }
{
    let step = start + 4 + stmt_size(site, body);
    let check = step + last_size(site, last);
    let end = check + test_size(site, test) + 3;
    put_mark(marks, start + 3, &Below::Nothing)?;
    mark_stmt(marks, site, start + 4, body)?;
    put_mark(marks, step, &Below::Nothing)?;
    mark_last(marks, site, step, last)?;
    put_mark(marks, check, &Below::Nothing)?;
    mark_part(marks, site, check, test)?;
    put_mark(marks, end, &Below::Nothing)
}

// The marks of a statement.
#[cycle(statement_marks)]
pub(crate) fn mark_stmt(
    marks: &mut Vec<Mark>,
    site: &Site<'_>,
    at: usize,
    s: &Stmt,
) -> Result<(), Memory>
    requires { at + sizes.stmt_size (seen site.now) s.now ≤ 65535 }
    ensures { OnOk result (marks.new.items ≡ marks.old.items ++ entries.stmt_marks (seen site.now) at s.now) }
{
    match s {
        Stmt::Empty => Ok(()),
        Stmt::Do(e) => mark_drop(marks, site, at, e),
        Stmt::Local(_, _, value) => mark_part(marks, site, at, value),
        Stmt::Block(all) => mark_block(marks, site, at, all),
        Stmt::If(test, met, unmet) => mark_if(marks, site, at, test, met, unmet),
        Stmt::While(test, body) => mark_while(marks, site, at, test, body),
        Stmt::DoWhile(body, test) => mark_do(marks, site, at, body, test),
        Stmt::For(first, test, last, body) => {
            mark_stmt(marks, site, at, first)?;
            mark_for(marks, site, at + stmt_size(site, first), test, last, body)
        }
        Stmt::Switch(e, labels, all) => mark_switch(marks, site, at, e, labels, all),
        Stmt::Break => put_mark(marks, at + 3, &Below::Nothing),
        Stmt::Continue => put_mark(marks, at + 3, &Below::Nothing),
        Stmt::Return(value) => mark_return(marks, site, at, value),
    }
}

// The marks of statements, one behind the other.
#[cycle(statement_marks)]
fn mark_block(marks: &mut Vec<Mark>, site: &Site<'_>, at: usize, all: &[Stmt]) -> Result<(), Memory>
    requires { at + block_in (seen site.now) all.now ≤ 65535 }
    ensures { OnOk result (marks.new.items ≡ marks.old.items ++ block_marks (seen site.now) at all.now) }
{
    let mut place = at;
    for s in all {
        mark_stmt(marks, site, place, s)?;
        place += stmt_size(site, s);
    }
    Ok(())
}

#[cycle(statement_marks)]
fn mark_switch(
    marks: &mut Vec<Mark>,
    site: &Site<'_>,
    at: usize,
    e: &Expr,
    labels: &[Label],
    all: &[Stmt],
) -> Result<(), Memory>
    requires { at + sizes.expr_size (seen site.now) e.now + 2 + sizes.tests_size labels.now + 3
        + block_in (seen site.now) all.now ≤ 65535 }
    ensures { OnOk result (marks.new.items ≡ marks.old.items
        ++ switch_marks (seen site.now) at e.now labels.now all.now) }
{
    let first = at + expr_size(site, e) + 2 + tests_size(labels) + 3;
    mark_expr(marks, site, &Below::Nothing, at, e)?;
    mark_cases(marks, site, first, all)
}

// The marks of the statements of a `switch`: one at the start of each, and one behind them.
#[cycle(statement_marks)]
fn mark_cases(marks: &mut Vec<Mark>, site: &Site<'_>, at: usize, all: &[Stmt]) -> Result<(), Memory>
    requires { at + block_in (seen site.now) all.now ≤ 65535 }
    ensures { OnOk result (marks.new.items ≡ marks.old.items ++ case_marks (seen site.now) at all.now) }
{
    let mut place = at;
    for s in all {
        put_mark(marks, place, &Below::Nothing)?;
        mark_stmt(marks, site, place, s)?;
        place += stmt_size(site, s);
    }
    put_mark(marks, place, &Below::Nothing)
}
