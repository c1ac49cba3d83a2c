//! The marks of expressions, places and links.
//!
//! Each function puts behind the marks that are there those of its form, which begins at a place of the method with
//! something on the stack below it.
ghost use Rattle.std.specs.Prelude.{◌≡◌, ◌≤◌, ◌+◌, ◌++◌, OnOk};
ghost use Rattle.sed_typed.specs.Kinds.{kind_of as kind_in};
ghost use Rattle.scode_entries.specs.Below.{kinds_on};
ghost use Rattle.scode_entries.specs.Entries as entries;
ghost use Rattle.scode_emit.specs.Instructions as meant;
ghost use Rattle.scode_emit.specs.Lists.{args_size as args_in, behind_size as links_in};
ghost use Rattle.scode_entries.specs.MarkLists.{args_marks, behind_marks as links_marks, chain_marks, choice_marks};
ghost use Rattle.scode_entries.specs.MarkLists.{set_marks, truth_marks, update_marks};
ghost use Rattle.scode_emit.specs.Rows.{seen};
ghost use Rattle.scode_emit.specs.Sizes as sizes;

use crate::cells::{
    Below, above, with_bool, with_holder, with_index, with_object, with_statics, with_wanted,
};
use crate::marks::{Mark, put_mark};
use scode_emit::{
    Site, before_size, expr_size, kind_of, link_kind, link_size, place_kind, place_size, pop_size,
    storage_of,
};
use sed_typed::{Expr, Kind, Link, Place, Update};
use sed_value::Memory;

// The marks of an expression.
#[cycle(marks)]
pub(crate) fn mark_expr(
    marks: &mut Vec<Mark>,
    site: &Site<'_>,
    below: &Below<'_>,
    at: usize,
    e: &Expr,
) -> Result<(), Memory>
    requires { at + sizes.expr_size (seen site.now) e.now ≤ 65535 }
    ensures { OnOk result (marks.new.items ≡ marks.old.items
        ++ entries.expr_marks (seen site.now) (kinds_on below.now) at e.now) }
{
    match e {
        Expr::Int(_) => Ok(()),
        Expr::Long(_) => Ok(()),
        Expr::Bool(_) => Ok(()),
        Expr::Null(_) => Ok(()),
        Expr::Text(_) => Ok(()),
        Expr::This(_) => Ok(()),
        Expr::Local(_, _) => Ok(()),
        Expr::Static(_, _) => Ok(()),
        Expr::StaticPart(_, _) => Ok(()),
        Expr::StaticElement(_, _, _, index) => {
            mark_expr(marks, site, &with_statics(&*below), at + 1, index)
        }
        Expr::Ticks => Ok(()),
        Expr::Unary(_, operand) => mark_expr(marks, site, below, at, operand),
        Expr::Choose(test, met, unmet) => mark_choice(marks, site, below, at, test, met, unmet),
        Expr::Set(target, value) => mark_set(marks, site, below, at, target, value),
        Expr::Update(update, target, operand) => {
            mark_update(marks, site, below, at, *update, target, operand)
        }
        Expr::Call(_, _, args) => mark_args(marks, site, below, at, args),
        Expr::Super(_, _, args) => {
            mark_args(marks, site, &with_object(site.class, &*below), at + 2, args)
        }
        Expr::Chain(head, links) => mark_chain(marks, site, below, at, head, links),
    }
}

#[cycle(marks)]
fn mark_choice(
    marks: &mut Vec<Mark>,
    site: &Site<'_>,
    below: &Below<'_>,
    at: usize,
    test: &Expr,
    met: &Expr,
    unmet: &Expr,
) -> Result<(), Memory>
    requires { at + sizes.expr_size (seen site.now) test.now + sizes.expr_size (seen site.now) met.now
        + sizes.expr_size (seen site.now) unmet.now + 6 ≤ 65535 }
    ensures { OnOk result (marks.new.items ≡ marks.old.items
        ++ choice_marks (seen site.now) (kinds_on below.now) at test.now met.now unmet.now) }
{
    let first = at + expr_size(site, test) + 3;
    let second = first + expr_size(site, met) + 3;
    let end = second + expr_size(site, unmet);
    mark_expr(marks, site, below, at, test)?;
    mark_expr(marks, site, below, first, met)?;
    put_mark(marks, second, below)?;
    mark_expr(marks, site, below, second, unmet)?;
    put_mark(marks, end, &above(kind_of(met), &*below))
}

// The marks of an assignment.
#[cycle(marks)]
pub(crate) fn mark_set(
    marks: &mut Vec<Mark>,
    site: &Site<'_>,
    below: &Below<'_>,
    at: usize,
    target: &Place,
    value: &Expr,
) -> Result<(), Memory>
    requires { at + sizes.place_size (seen site.now) target.now
        + sizes.expr_size (seen site.now) value.now ≤ 65535 }
    ensures { OnOk result (marks.new.items ≡ marks.old.items
        ++ set_marks (seen site.now) (kinds_on below.now) at target.now value.now) }
{
    let holder = with_holder(target, &*below);
    let place = with_index(target, &holder);
    mark_place(marks, site, below, at, target)?;
    mark_expr(marks, site, &place, at + place_size(site, target), value)
}

// The marks of a compound assignment whose value is used.
#[cycle(marks)]
fn mark_update(
    marks: &mut Vec<Mark>,
    site: &Site<'_>,
    below: &Below<'_>,
    at: usize,
    update: Update,
    target: &Place,
    operand: &Expr,
) -> Result<(), Memory>
    requires { at + sizes.place_size (seen site.now) target.now
        + meant.before_size update.gives (meant.storage (seen site.now) target.now)
        + sizes.expr_size (seen site.now) operand.now ≤ 65535 }
    ensures { OnOk result (marks.new.items ≡ marks.old.items
        ++ update_marks (seen site.now) (kinds_on below.now) at update target.now operand.now) }
{
    let holder = with_holder(target, &*below);
    let place = with_index(target, &holder);
    let wanted = with_wanted(update.gives, target, &place);
    let old = above(place_kind(target), &wanted);
    let next = at + place_size(site, target) + before_size(update.gives, storage_of(site, target));
    mark_place(marks, site, below, at, target)?;
    mark_expr(marks, site, &old, next, operand)
}

// The marks of what stands on the stack before a value is stored at a place.
#[cycle(marks)]
pub(crate) fn mark_place(
    marks: &mut Vec<Mark>,
    site: &Site<'_>,
    below: &Below<'_>,
    at: usize,
    target: &Place,
) -> Result<(), Memory>
    requires { at + sizes.place_size (seen site.now) target.now ≤ 65535 }
    ensures { OnOk result (marks.new.items ≡ marks.old.items
        ++ entries.place_marks (seen site.now) (kinds_on below.now) at target.now) }
{
    match target {
        Place::Local(_, _) => Ok(()),
        Place::Static(_, _) => Ok(()),
        Place::Field(_, object, _) => mark_expr(marks, site, below, at, object),
        Place::Element(_, _, object, _, index) => {
            mark_expr(marks, site, below, at, object)?;
            let holder = above(kind_of(object), &*below);
            mark_expr(marks, site, &holder, at + expr_size(site, object), index)
        }
        Place::StaticElement(_, _, _, index) => {
            mark_expr(marks, site, &with_statics(&*below), at + 1, index)
        }
    }
}

// The marks of arguments, one above the other.
#[cycle(marks)]
#[tactic(auto, using(crate::proofs::MarkRows::expr_positive))]
fn mark_args(
    marks: &mut Vec<Mark>,
    site: &Site<'_>,
    below: &Below<'_>,
    at: usize,
    args: &[Expr],
) -> Result<(), Memory>
    requires { at + args_in (seen site.now) args.now ≤ 65535 }
    ensures { OnOk result (marks.new.items ≡ marks.old.items
        ++ args_marks (seen site.now) (kinds_on below.now) at args.now) }
{
    let Some((first, rest)) = args.split_first() else {
        return Ok(());
    };
    mark_expr(marks, site, below, at, first)?;
    let more = above(kind_of(first), &*below);
    mark_args(marks, site, &more, at + expr_size(site, first), rest)
}

#[cycle(marks)]
fn mark_chain(
    marks: &mut Vec<Mark>,
    site: &Site<'_>,
    below: &Below<'_>,
    at: usize,
    head: &Expr,
    links: &[Link],
) -> Result<(), Memory>
    requires { at + sizes.expr_size (seen site.now) head.now
        + links_in (seen site.now) (kind_in head.now) links.now ≤ 65535 }
    ensures { OnOk result (marks.new.items ≡ marks.old.items
        ++ chain_marks (seen site.now) (kinds_on below.now) at head.now links.now) }
{
    mark_expr(marks, site, below, at, head)?;
    let next = at + expr_size(site, head);
    mark_links(marks, site, below, next, kind_of(head), links)
}

// The marks of links, with the kind of what is on their left.
#[cycle(marks)]
fn mark_links(
    marks: &mut Vec<Mark>,
    site: &Site<'_>,
    below: &Below<'_>,
    at: usize,
    start: Kind,
    links: &[Link],
) -> Result<(), Memory>
    requires { at + links_in (seen site.now) start links.now ≤ 65535 }
    ensures { OnOk result (marks.new.items ≡ marks.old.items
        ++ links_marks (seen site.now) (kinds_on below.now) at start links.now) }
{
    let mut place = at;
    let mut kind = start;
    for link in links {
        mark_link(marks, site, below, place, kind, link)?;
        place += link_size(site, kind, link);
        kind = link_kind(link);
    }
    Ok(())
}

// The marks of a link with the kind of what is on its left, which is not among what is below.
#[cycle(marks)]
fn mark_link(
    marks: &mut Vec<Mark>,
    site: &Site<'_>,
    below: &Below<'_>,
    at: usize,
    kind: Kind,
    link: &Link,
) -> Result<(), Memory>
    requires { at + sizes.link_size (seen site.now) kind link.now ≤ 65535 }
    ensures { OnOk result (marks.new.items ≡ marks.old.items
        ++ entries.link_marks (seen site.now) (kinds_on below.now) at kind link.now) }
{
    match link {
        Link::Binary(_, operand) => mark_expr(marks, site, &above(kind, &*below), at, operand),
        Link::And(operand) => mark_truth(marks, site, below, at, operand),
        Link::Or(operand) => mark_truth(marks, site, below, at, operand),
        Link::Field(_, _) => Ok(()),
        Link::Part(_, _) => Ok(()),
        Link::Element(_, _, _, index) => mark_expr(marks, site, &above(kind, &*below), at, index),
        Link::Size(_) => Ok(()),
        Link::Byte(_, index) => mark_expr(marks, site, &above(kind, &*below), at, index),
        Link::Invoke(_, _, args) => mark_args(marks, site, &above(kind, &*below), at, args),
        Link::TextCall(_, args) => mark_args(marks, site, &above(kind, &*below), at, args),
        Link::After(e) => mark_expr(marks, site, below, at + pop_size(kind), e),
    }
}

// The marks of `&&` and `||`.
#[cycle(marks)]
fn mark_truth(
    marks: &mut Vec<Mark>,
    site: &Site<'_>,
    below: &Below<'_>,
    at: usize,
    operand: &Expr,
) -> Result<(), Memory>
    requires { at + sizes.expr_size (seen site.now) operand.now + 10 ≤ 65535 }
    ensures { OnOk result (marks.new.items ≡ marks.old.items
        ++ truth_marks (seen site.now) (kinds_on below.now) at operand.now) }
{
    let other = at + 3 + expr_size(site, operand) + 5;
    mark_expr(marks, site, below, at + 3, operand)?;
    put_mark(marks, other, below)?;
    put_mark(marks, other + 2, &with_bool(&*below))
}
