//! The code of expressions, places and links.
//!
//! Each function puts behind the instructions that are there those of its form, which begins at a place of the method.
ghost use Rattle.std.specs.Prelude.{◌≡◌, ◌≤◌, ◌+◌, ◌∷◌, ◌++◌, [], OnOk};
ghost use Rattle.scode_ops.specs.declared.op.Op.TheVariants.{Call, Jump, Not};
ghost use Rattle.sed_typed.specs.Kinds.{kind_of as kind_in};
ghost use Rattle.scode_emit.specs.Code as code;
ghost use Rattle.scode_emit.specs.Instructions as meant;
ghost use Rattle.scode_emit.specs.Lists.{args_code, args_size as args_in, behind_code as links_code};
ghost use Rattle.scode_emit.specs.Lists.{behind_size as links_in, chain_code, choice_code, low_code, set_code};
ghost use Rattle.scode_emit.specs.Lists.{update_code};
ghost use Rattle.scode_emit.specs.Rows.{seen};
ghost use Rattle.scode_emit.specs.Sizes as sizes;

use crate::instructions::{
    arithmetic_op, binary_op, get_element_op, get_op, invoke_op, part_op, pop_size, text_op,
};
use crate::kinds::{kind_of, link_kind};
use crate::put::put;
use crate::site::Site;
use crate::sizes::{expr_size, link_size, place_size};
use crate::storage::{before_size, emit_before, emit_behind, emit_keep, storage_of};
use scode_ops::Op;
use sed_typed::{Expr, Kind, Link, Place, Unary, Update, Width};
use sed_value::Memory;

fn emit_unary(ops: &mut Vec<Op>, op: Unary) -> Result<(), Memory>
    ensures { OnOk result (ops.new.items ≡ ops.old.items ++ meant.unary_code op) }
{
    match op {
        Unary::Not => put(ops, Op::Not),
        Unary::Negate(Width::Int) => put(ops, Op::IntNeg),
        Unary::Negate(Width::Long) => put(ops, Op::LongNeg),
        Unary::Flip(Width::Int) => put(ops, Op::IntNot),
        Unary::Flip(Width::Long) => put(ops, Op::LongNot),
        Unary::ToLong => put(ops, Op::IntToLong),
        Unary::ToInt => put(ops, Op::LongToInt),
        Unary::LowByte(width) => emit_low(ops, width, Op::IntToByte),
        Unary::LowShort(width) => emit_low(ops, width, Op::IntToShort),
    }
}

// The low bits of a number of a width.
fn emit_low(ops: &mut Vec<Op>, width: Width, op: Op) -> Result<(), Memory>
    ensures { OnOk result (ops.new.items ≡ ops.old.items ++ low_code width op) }
{
    match width {
        Width::Int => put(ops, op),
        Width::Long => {
            put(ops, Op::LongToInt)?;
            put(ops, op)
        }
    }
}

// A value is taken off, where there is one.
pub(crate) fn emit_pop(ops: &mut Vec<Op>, kind: Kind) -> Result<(), Memory>
    ensures { OnOk result (ops.new.items ≡ ops.old.items ++ meant.pop_code kind) }
{
    match kind {
        Kind::Void => Ok(()),
        _ => put(ops, Op::Pop),
    }
}

// The code of an expression.
#[cycle(expressions)]
pub(crate) fn emit_expr(
    ops: &mut Vec<Op>,
    site: &Site<'_>,
    at: usize,
    e: &Expr,
) -> Result<(), Memory>
    requires room { site.now.locals ≤ 250 }
    requires fits { at + sizes.expr_size (seen site.now) e.now ≤ 65535 }
    ensures { OnOk result (ops.new.items ≡ ops.old.items ++ code.expr_code (seen site.now) at e.now) }
{
    match e {
        Expr::Int(number) => put(ops, Op::Int(*number)),
        Expr::Long(number) => put(ops, Op::Long(*number)),
        Expr::Bool(truth) => put(ops, Op::Bool(*truth)),
        Expr::Null(_) => put(ops, Op::Null),
        Expr::Text(number) => put(ops, Op::Text(*number)),
        Expr::This(_) => put(ops, Op::Load(0)),
        Expr::Local(_, number) => put(ops, Op::Load(*number)),
        Expr::Static(prim, number) => {
            put(ops, Op::Statics)?;
            put(ops, get_op(*prim, site.static_offset(*number)))
        }
        Expr::StaticPart(kind, number) => {
            put(ops, Op::Statics)?;
            put(
                ops,
                part_op(
                    *kind,
                    site.static_offset(*number),
                    site.static_room(*number),
                ),
            )
        }
        Expr::StaticElement(prim, count, number, index) => {
            put(ops, Op::Statics)?;
            emit_expr(ops, site, at + 1, index)?;
            put(
                ops,
                get_element_op(*prim, site.static_offset(*number), *count),
            )
        }
        Expr::Ticks => put(ops, Op::Ticks),
        Expr::Unary(op, operand) => {
            emit_expr(ops, site, at, operand)?;
            emit_unary(ops, *op)
        }
        Expr::Choose(test, met, unmet) => emit_choice(ops, site, at, test, met, unmet),
        Expr::Set(target, value) => emit_set(ops, site, at, target, value),
        Expr::Update(update, target, operand) => {
            emit_update(ops, site, at, *update, target, operand)
        }
        Expr::Call(_, method, args) => emit_call(ops, site, at, *method, args),
        Expr::Super(_, method, args) => {
            put(ops, Op::Load(0))?;
            emit_call(ops, site, at + 2, *method, args)
        }
        Expr::Chain(head, links) => emit_chain(ops, site, at, head, links),
    }
}

#[cycle(expressions)]
fn emit_choice(
    ops: &mut Vec<Op>,
    site: &Site<'_>,
    at: usize,
    test: &Expr,
    met: &Expr,
    unmet: &Expr,
) -> Result<(), Memory>
    requires room { site.now.locals ≤ 250 }
    requires fits { at + sizes.expr_size (seen site.now) test.now + sizes.expr_size (seen site.now) met.now
        + sizes.expr_size (seen site.now) unmet.now + 6 ≤ 65535 }
    ensures { OnOk result (ops.new.items ≡ ops.old.items
        ++ choice_code (seen site.now) at test.now met.now unmet.now) }
{
    let first = at + expr_size(site, test) + 3;
    let second = first + expr_size(site, met) + 3;
    let end = second + expr_size(site, unmet);
    emit_expr(ops, site, at, test)?;
    put(ops, Op::JumpFalse(second as u16))?;
    emit_expr(ops, site, first, met)?;
    put(ops, Op::Jump(end as u16))?;
    emit_expr(ops, site, second, unmet)
}

// An assignment whose value is used.
#[cycle(expressions)]
fn emit_set(
    ops: &mut Vec<Op>,
    site: &Site<'_>,
    at: usize,
    target: &Place,
    value: &Expr,
) -> Result<(), Memory>
    requires room { site.now.locals ≤ 250 }
    requires fits { at + sizes.place_size (seen site.now) target.now
        + sizes.expr_size (seen site.now) value.now ≤ 65535 }
    ensures { OnOk result (ops.new.items ≡ ops.old.items ++ set_code (seen site.now) at target.now value.now) }
{
    emit_place(ops, site, at, target)?;
    emit_expr(ops, site, at + place_size(site, target), value)?;
    emit_keep(ops, site, storage_of(site, target))
}

// A compound assignment whose value is used.
#[cycle(expressions)]
fn emit_update(
    ops: &mut Vec<Op>,
    site: &Site<'_>,
    at: usize,
    update: Update,
    target: &Place,
    operand: &Expr,
) -> Result<(), Memory>
    requires room { site.now.locals ≤ 250 }
    requires fits { at + sizes.place_size (seen site.now) target.now
        + meant.before_size update.gives (meant.storage (seen site.now) target.now)
        + sizes.expr_size (seen site.now) operand.now ≤ 65535 }
    ensures { OnOk result (ops.new.items ≡ ops.old.items
        ++ update_code (seen site.now) at update target.now operand.now) }
{
    let storage = storage_of(site, target);
    let next = at + place_size(site, target) + before_size(update.gives, storage);
    emit_place(ops, site, at, target)?;
    emit_before(ops, site, update.gives, storage)?;
    emit_expr(ops, site, next, operand)?;
    put(ops, arithmetic_op(update.arithmetic, update.width))?;
    emit_behind(ops, site, update.gives, storage)
}

// What stands on the stack before a value is stored at a place.
#[cycle(expressions)]
pub(crate) fn emit_place(
    ops: &mut Vec<Op>,
    site: &Site<'_>,
    at: usize,
    target: &Place,
) -> Result<(), Memory>
    requires room { site.now.locals ≤ 250 }
    requires fits { at + sizes.place_size (seen site.now) target.now ≤ 65535 }
    ensures { OnOk result (ops.new.items ≡ ops.old.items ++ code.place_code (seen site.now) at target.now) }
{
    match target {
        Place::Local(_, _) => Ok(()),
        Place::Static(_, _) => put(ops, Op::Statics),
        Place::Field(_, object, _) => emit_expr(ops, site, at, object),
        Place::Element(_, _, object, _, index) => {
            emit_expr(ops, site, at, object)?;
            emit_expr(ops, site, at + expr_size(site, object), index)
        }
        Place::StaticElement(_, _, _, index) => {
            put(ops, Op::Statics)?;
            emit_expr(ops, site, at + 1, index)
        }
    }
}

// Arguments, and the call of a method that is known.
#[cycle(expressions)]
fn emit_call(
    ops: &mut Vec<Op>,
    site: &Site<'_>,
    at: usize,
    method: u16,
    args: &[Expr],
) -> Result<(), Memory>
    requires room { site.now.locals ≤ 250 }
    requires fits { at + args_in (seen site.now) args.now ≤ 65535 }
    ensures { OnOk result (ops.new.items ≡ ops.old.items
        ++ (args_code (seen site.now) at args.now ++ Call method ∷ [])) }
{
    emit_args(ops, site, at, args)?;
    put(ops, Op::Call(method))
}

// Arguments, one behind the other.
#[cycle(expressions)]
fn emit_args(ops: &mut Vec<Op>, site: &Site<'_>, at: usize, args: &[Expr]) -> Result<(), Memory>
    requires room { site.now.locals ≤ 250 }
    requires fits { at + args_in (seen site.now) args.now ≤ 65535 }
    ensures { OnOk result (ops.new.items ≡ ops.old.items ++ args_code (seen site.now) at args.now) }
{
    let mut place = at;
    for arg in args {
        emit_expr(ops, site, place, arg)?;
        place += expr_size(site, arg);
    }
    Ok(())
}

// An operand, and what is done with it.
#[cycle(expressions)]
fn emit_chain(
    ops: &mut Vec<Op>,
    site: &Site<'_>,
    at: usize,
    head: &Expr,
    links: &[Link],
) -> Result<(), Memory>
    requires room { site.now.locals ≤ 250 }
    requires fits { at + sizes.expr_size (seen site.now) head.now
        + links_in (seen site.now) (kind_in head.now) links.now ≤ 65535 }
    ensures { OnOk result (ops.new.items ≡ ops.old.items ++ chain_code (seen site.now) at head.now links.now) }
{
    emit_expr(ops, site, at, head)?;
    emit_links(ops, site, at + expr_size(site, head), kind_of(head), links)
}

// Links, with the kind of what is on their left.
#[cycle(expressions)]
fn emit_links(
    ops: &mut Vec<Op>,
    site: &Site<'_>,
    at: usize,
    start: Kind,
    links: &[Link],
) -> Result<(), Memory>
    requires room { site.now.locals ≤ 250 }
    requires fits { at + links_in (seen site.now) start links.now ≤ 65535 }
    ensures { OnOk result (ops.new.items ≡ ops.old.items ++ links_code (seen site.now) at start links.now) }
{
    let mut place = at;
    let mut kind = start;
    for link in links {
        emit_link(ops, site, place, kind, link)?;
        place += link_size(site, kind, link);
        kind = link_kind(link);
    }
    Ok(())
}

// A link with the kind of what is on its left.
#[cycle(expressions)]
fn emit_link(
    ops: &mut Vec<Op>,
    site: &Site<'_>,
    at: usize,
    kind: Kind,
    link: &Link,
) -> Result<(), Memory>
    requires room { site.now.locals ≤ 250 }
    requires fits { at + sizes.link_size (seen site.now) kind link.now ≤ 65535 }
    ensures { OnOk result (ops.new.items ≡ ops.old.items ++ code.link_code (seen site.now) at kind link.now) }
{
    match link {
        Link::Binary(op, operand) => {
            emit_expr(ops, site, at, operand)?;
            put(ops, binary_op(*op))
        }
        Link::And(operand) => {
            let unmet = at + 3 + expr_size(site, operand) + 5;
            put(ops, Op::JumpFalse(unmet as u16))?;
            emit_truth(ops, site, at + 3, operand, unmet + 2)?;
            put(ops, Op::Bool(0))
        }
        Link::Or(operand) => {
            let met = at + 3 + expr_size(site, operand) + 5;
            put(ops, Op::JumpTrue(met as u16))?;
            emit_truth(ops, site, at + 3, operand, met + 2)?;
            put(ops, Op::Bool(1))
        }
        Link::Field(prim, number) => put(ops, get_op(*prim, site.offset_in(kind, *number))),
        Link::Part(part, number) => put(
            ops,
            part_op(
                *part,
                site.offset_in(kind, *number),
                site.room_in(kind, *number),
            ),
        ),
        Link::Element(prim, count, number, index) => {
            emit_expr(ops, site, at, index)?;
            put(
                ops,
                get_element_op(*prim, site.offset_in(kind, *number), *count),
            )
        }
        Link::Size(number) => put(ops, Op::BufSize(site.offset_in(kind, *number))),
        Link::Byte(number, index) => {
            emit_expr(ops, site, at, index)?;
            put(
                ops,
                Op::BufGet {
                    offset: site.offset_in(kind, *number),
                    capacity: site.room_in(kind, *number),
                },
            )
        }
        Link::Invoke(_, method, args) => {
            emit_args(ops, site, at, args)?;
            put(ops, invoke_op(site, kind, *method))
        }
        Link::TextCall(call, args) => {
            emit_args(ops, site, at, args)?;
            put(ops, text_op(*call))
        }
        Link::After(e) => {
            emit_pop(ops, kind)?;
            emit_expr(ops, site, at + pop_size(kind), e)
        }
    }
}

// A bool that is met or not, and then a jump.
#[cycle(expressions)]
fn emit_truth(
    ops: &mut Vec<Op>,
    site: &Site<'_>,
    at: usize,
    operand: &Expr,
    to: usize,
) -> Result<(), Memory>
    requires room { site.now.locals ≤ 250 }
    requires fits { at + sizes.expr_size (seen site.now) operand.now ≤ 65535 }
    requires to { to ≤ 65535 }
    ensures { OnOk result (ops.new.items ≡ ops.old.items
        ++ (code.expr_code (seen site.now) at operand.now ++ Not ∷ Not ∷ Jump to ∷ [])) }
{
    emit_expr(ops, site, at, operand)?;
    put(ops, Op::Not)?;
    put(ops, Op::Not)?;
    put(ops, Op::Jump(to as u16))
}
