//! The parts of statements that are expressions, used or not, or missing.
ghost use Rattle.std.specs.Prelude.{◌≡◌, ◌≤◌, ◌+◌, ◌++◌, OnOk};
ghost use Rattle.sed_typed.specs.Kinds.{kind_of as kind_in};
ghost use Rattle.sed_typed.specs.declared.statement.Stmt.TheVariants.{Return};
ghost use Rattle.scode_emit.specs.Code as code;
ghost use Rattle.scode_emit.specs.Instructions as meant;
ghost use Rattle.scode_emit.specs.Lists.{stored_code, updated_code};
ghost use Rattle.scode_emit.specs.Rows.{seen};
ghost use Rattle.scode_emit.specs.Sizes as sizes;

use crate::expressions::{emit_expr, emit_place, emit_pop};
use crate::instructions::{arithmetic_op, zero_op};
use crate::kinds::kind_of;
use crate::put::put;
use crate::site::Site;
use crate::sizes::place_size;
use crate::storage::{emit_fetch, emit_put, fetch_size, storage_of};
use scode_ops::Op;
use sed_typed::{Expr, Kind, Place, Update};
use sed_value::Memory;

// An expression whose value is taken off.
fn emit_taken(ops: &mut Vec<Op>, site: &Site<'_>, at: usize, e: &Expr) -> Result<(), Memory>
    requires room { site.now.locals ≤ 250 }
    requires fits { at + sizes.expr_size (seen site.now) e.now ≤ 65535 }
    ensures { OnOk result (ops.new.items ≡ ops.old.items
        ++ (code.expr_code (seen site.now) at e.now ++ meant.pop_code (kind_in e.now))) }
{
    emit_expr(ops, site, at, e)?;
    emit_pop(ops, kind_of(e))
}

// An assignment whose value is not used.
fn emit_stored(
    ops: &mut Vec<Op>,
    site: &Site<'_>,
    at: usize,
    target: &Place,
    value: &Expr,
) -> Result<(), Memory>
    requires room { site.now.locals ≤ 250 }
    requires fits { at + sizes.place_size (seen site.now) target.now
        + sizes.expr_size (seen site.now) value.now ≤ 65535 }
    ensures { OnOk result (ops.new.items ≡ ops.old.items ++ stored_code (seen site.now) at target.now value.now) }
{
    emit_place(ops, site, at, target)?;
    emit_expr(ops, site, at + place_size(site, target), value)?;
    emit_put(ops, storage_of(site, target))
}

// A compound assignment whose value is not used.
fn emit_updated(
    ops: &mut Vec<Op>,
    site: &Site<'_>,
    at: usize,
    update: Update,
    target: &Place,
    operand: &Expr,
) -> Result<(), Memory>
    requires room { site.now.locals ≤ 250 }
    requires fits { at + sizes.place_size (seen site.now) target.now
        + meant.fetch_size (meant.storage (seen site.now) target.now)
        + sizes.expr_size (seen site.now) operand.now ≤ 65535 }
    ensures { OnOk result (ops.new.items ≡ ops.old.items
        ++ updated_code (seen site.now) at update target.now operand.now) }
{
    let storage = storage_of(site, target);
    let next = at + place_size(site, target) + fetch_size(storage);
    emit_place(ops, site, at, target)?;
    emit_fetch(ops, site, storage)?;
    emit_expr(ops, site, next, operand)?;
    put(ops, arithmetic_op(update.arithmetic, update.width))?;
    emit_put(ops, storage)
}

// An expression whose value is not used.
pub(crate) fn emit_drop(
    ops: &mut Vec<Op>,
    site: &Site<'_>,
    at: usize,
    e: &Expr,
) -> Result<(), Memory>
    requires room { site.now.locals ≤ 250 }
    requires fits { at + sizes.drop_size (seen site.now) e.now ≤ 65535 }
    ensures { OnOk result (ops.new.items ≡ ops.old.items ++ code.drop_code (seen site.now) at e.now) }
{
    match e {
        Expr::Set(target, value) => emit_stored(ops, site, at, target, value),
        Expr::Update(update, target, operand) => {
            emit_updated(ops, site, at, *update, target, operand)
        }
        Expr::Int(_) => emit_taken(ops, site, at, e),
        Expr::Long(_) => emit_taken(ops, site, at, e),
        Expr::Bool(_) => emit_taken(ops, site, at, e),
        Expr::Null(_) => emit_taken(ops, site, at, e),
        Expr::Text(_) => emit_taken(ops, site, at, e),
        Expr::This(_) => emit_taken(ops, site, at, e),
        Expr::Local(_, _) => emit_taken(ops, site, at, e),
        Expr::Static(_, _) => emit_taken(ops, site, at, e),
        Expr::StaticPart(_, _) => emit_taken(ops, site, at, e),
        Expr::StaticElement(_, _, _, _) => emit_taken(ops, site, at, e),
        Expr::Ticks => emit_taken(ops, site, at, e),
        Expr::Unary(_, _) => emit_taken(ops, site, at, e),
        Expr::Choose(_, _, _) => emit_taken(ops, site, at, e),
        Expr::Call(_, _, _) => emit_taken(ops, site, at, e),
        Expr::Super(_, _, _) => emit_taken(ops, site, at, e),
        Expr::Chain(_, _) => emit_taken(ops, site, at, e),
    }
}

pub(crate) fn emit_begin(
    ops: &mut Vec<Op>,
    site: &Site<'_>,
    at: usize,
    kind: Kind,
    value: &Option<Expr>,
) -> Result<(), Memory>
    requires room { site.now.locals ≤ 250 }
    requires fits { at + sizes.begin_size (seen site.now) kind value.now ≤ 65535 }
    ensures { OnOk result (ops.new.items ≡ ops.old.items ++ code.begin_code (seen site.now) at kind value.now) }
{
    match value {
        Some(e) => emit_expr(ops, site, at, e),
        None => put(ops, zero_op(kind)),
    }
}

pub(crate) fn emit_test(
    ops: &mut Vec<Op>,
    site: &Site<'_>,
    at: usize,
    test: &Option<Expr>,
) -> Result<(), Memory>
    requires room { site.now.locals ≤ 250 }
    requires fits { at + sizes.test_size (seen site.now) test.now ≤ 65535 }
    ensures { OnOk result (ops.new.items ≡ ops.old.items ++ code.test_code (seen site.now) at test.now) }
{
    match test {
        Some(e) => emit_expr(ops, site, at, e),
        None => put(ops, Op::Bool(1)),
    }
}

pub(crate) fn emit_last(
    ops: &mut Vec<Op>,
    site: &Site<'_>,
    at: usize,
    last: &Option<Expr>,
) -> Result<(), Memory>
    requires room { site.now.locals ≤ 250 }
    requires fits { at + sizes.last_size (seen site.now) last.now ≤ 65535 }
    ensures { OnOk result (ops.new.items ≡ ops.old.items ++ code.last_code (seen site.now) at last.now) }
{
    match last {
        Some(e) => emit_drop(ops, site, at, e),
        None => Ok(()),
    }
}

pub(crate) fn emit_return(
    ops: &mut Vec<Op>,
    site: &Site<'_>,
    at: usize,
    value: &Option<Expr>,
) -> Result<(), Memory>
    requires room { site.now.locals ≤ 250 }
    requires fits { at + sizes.stmt_size (seen site.now) (Return value.now) ≤ 65535 }
    ensures { OnOk result (ops.new.items ≡ ops.old.items
        ++ code.stmt_code (seen site.now) at 0 0 (Return value.now)) }
{
    match value {
        Some(e) => {
            emit_expr(ops, site, at, e)?;
            put(ops, Op::ReturnValue)
        }
        None => put(ops, Op::Return),
    }
}

// A jump over so many bytes.
pub(crate) fn emit_over(ops: &mut Vec<Op>, size: usize, to: usize) -> Result<(), Memory>
    requires { to ≤ 65535 }
    ensures { OnOk result (ops.new.items ≡ ops.old.items ++ code.over_code size to) }
{
    if size == 0 {
        return Ok(());
    }
    put(ops, Op::Jump(to as u16))
}
