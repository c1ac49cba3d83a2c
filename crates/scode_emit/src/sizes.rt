//! How many bytes the code of a tree has, or 65,536 where there are more: no method is so long.
ghost use Rattle.std.specs.Prelude.{◌≡◌, ◌+◌, min};
ghost use Rattle.std.specs.Option.{option_map_or};
ghost use Rattle.sed_typed.specs.Kinds.{kind_of as kind_in};
ghost use Rattle.sed_typed.specs.declared.statement.Stmt.TheVariants.{Return};
ghost use Rattle.scode_emit.specs.Instructions as meant;
ghost use Rattle.scode_emit.specs.Sizes as sizes;
ghost use Rattle.scode_emit.specs.Lists.{args_size as args_in, behind_size as links_in, block_size as block_in};
ghost use Rattle.scode_emit.specs.Rows.{seen};

use crate::instructions::{invoke_size, pop_size, unary_size, zero_size};
use crate::kinds::{kind_of, link_kind};
use crate::site::Site;
use crate::storage::{before_size, behind_size, fetch_size, keep_size, put_size, storage_of};
use sed_typed::{Expr, Kind, Label, Link, Place, Stmt, Update};

/// A size past that of the longest method, which stands for every such size.
pub const TOO_LONG: usize = 65_536;

fn capped(size: usize) -> usize
    ensures { result ≡ min size 65536 }
{
    size.min(TOO_LONG)
}

// What a compound assignment has around its operand.
fn around_size(site: &Site<'_>, update: Update, target: &Place) -> usize
    ensures { result ≡ meant.before_size update.gives (meant.storage (seen site.now) target.now) + 1
        + meant.behind_size update.gives (meant.storage (seen site.now) target.now) }
{
    let storage = storage_of(site, target);
    before_size(update.gives, storage) + 1 + behind_size(update.gives, storage)
}

// ---- expressions

/// How many bytes the code of an expression has, or 65,536 if there are more.
#[cycle(sizes)]
pub fn expr_size(site: &Site<'_>, e: &Expr) -> usize
    ensures { result ≡ min (sizes.expr_size (seen site.now) e.now) 65536 }
{
    match e {
        Expr::Int(_) => 5,
        Expr::Long(_) => 9,
        Expr::Bool(_) => 2,
        Expr::Null(_) => 1,
        Expr::Text(_) => 3,
        Expr::This(_) => 2,
        Expr::Local(_, _) => 2,
        Expr::Static(_, _) => 4,
        Expr::StaticPart(_, _) => 6,
        Expr::StaticElement(_, _, _, index) => capped(expr_size(site, index) + 6),
        Expr::Ticks => 1,
        Expr::Unary(op, operand) => capped(expr_size(site, operand) + unary_size(*op)),
        Expr::Choose(test, met, unmet) => {
            capped(expr_size(site, test) + expr_size(site, met) + expr_size(site, unmet) + 6)
        }
        Expr::Set(target, value) => capped(
            place_size(site, target) + expr_size(site, value) + keep_size(storage_of(site, target)),
        ),
        Expr::Update(update, target, operand) => capped(
            place_size(site, target)
                + expr_size(site, operand)
                + around_size(site, *update, target),
        ),
        Expr::Call(_, _, args) => capped(args_size(site, args) + 3),
        Expr::Super(_, _, args) => capped(args_size(site, args) + 5),
        Expr::Chain(head, links) => {
            capped(expr_size(site, head) + links_size(site, kind_of(head), links))
        }
    }
}

/// The same of what puts on the stack what has to be there before a value is stored at a place.
#[cycle(sizes)]
pub fn place_size(site: &Site<'_>, target: &Place) -> usize
    ensures { result ≡ min (sizes.place_size (seen site.now) target.now) 65536 }
{
    match target {
        Place::Local(_, _) => 0,
        Place::Static(_, _) => 1,
        Place::Field(_, object, _) => expr_size(site, object),
        Place::Element(_, _, object, _, index) => {
            capped(expr_size(site, object) + expr_size(site, index))
        }
        Place::StaticElement(_, _, _, index) => capped(expr_size(site, index) + 1),
    }
}

// Arguments.
#[cycle(sizes)]
fn args_size(site: &Site<'_>, args: &[Expr]) -> usize
    ensures { result ≡ min (args_in (seen site.now) args.now) 65536 }
{
    let mut sum = 0;
    for arg in args {
        sum = capped(sum + expr_size(site, arg));
    }
    sum
}

// Links, with the kind of what is on their left.
#[cycle(sizes)]
fn links_size(site: &Site<'_>, start: Kind, links: &[Link]) -> usize
    ensures { result ≡ min (links_in (seen site.now) start links.now) 65536 }
{
    let mut sum = 0;
    let mut kind = start;
    for link in links {
        sum = capped(sum + link_size(site, kind, link));
        kind = link_kind(link);
    }
    sum
}

/// The same of a link, with the kind of what is on its left.
#[cycle(sizes)]
pub fn link_size(site: &Site<'_>, kind: Kind, link: &Link) -> usize
    ensures { result ≡ min (sizes.link_size (seen site.now) kind link.now) 65536 }
{
    match link {
        Link::Binary(_, operand) => capped(expr_size(site, operand) + 1),
        Link::And(operand) => capped(expr_size(site, operand) + 10),
        Link::Or(operand) => capped(expr_size(site, operand) + 10),
        Link::Field(_, _) => 3,
        Link::Part(_, _) => 5,
        Link::Element(_, _, _, index) => capped(expr_size(site, index) + 5),
        Link::Size(_) => 3,
        Link::Byte(_, index) => capped(expr_size(site, index) + 5),
        Link::Invoke(_, method, args) => {
            capped(args_size(site, args) + invoke_size(site, *method))
        }
        Link::TextCall(_, args) => capped(args_size(site, args) + 1),
        Link::After(e) => capped(expr_size(site, e) + pop_size(kind)),
    }
}

// An expression whose value is used or taken off.
fn taken_size(site: &Site<'_>, e: &Expr) -> usize
    ensures { result ≡ min (sizes.expr_size (seen site.now) e.now + meant.pop_size (kind_in e.now)) 65536 }
{
    capped(expr_size(site, e) + pop_size(kind_of(e)))
}

// An expression whose value is not used.
pub(crate) fn drop_size(site: &Site<'_>, e: &Expr) -> usize
    ensures { result ≡ min (sizes.drop_size (seen site.now) e.now) 65536 }
{
    match e {
        Expr::Set(target, value) => capped(
            place_size(site, target) + expr_size(site, value) + put_size(storage_of(site, target)),
        ),
        Expr::Update(_, target, operand) => {
            let storage = storage_of(site, target);
            capped(
                place_size(site, target)
                    + fetch_size(storage)
                    + expr_size(site, operand)
                    + 1
                    + put_size(storage),
            )
        }
        Expr::Int(_) => taken_size(site, e),
        Expr::Long(_) => taken_size(site, e),
        Expr::Bool(_) => taken_size(site, e),
        Expr::Null(_) => taken_size(site, e),
        Expr::Text(_) => taken_size(site, e),
        Expr::This(_) => taken_size(site, e),
        Expr::Local(_, _) => taken_size(site, e),
        Expr::Static(_, _) => taken_size(site, e),
        Expr::StaticPart(_, _) => taken_size(site, e),
        Expr::StaticElement(_, _, _, _) => taken_size(site, e),
        Expr::Ticks => taken_size(site, e),
        Expr::Unary(_, _) => taken_size(site, e),
        Expr::Choose(_, _, _) => taken_size(site, e),
        Expr::Call(_, _, _) => taken_size(site, e),
        Expr::Super(_, _, _) => taken_size(site, e),
        Expr::Chain(_, _) => taken_size(site, e),
    }
}

// ---- statements

pub(crate) fn begin_size(site: &Site<'_>, kind: Kind, value: &Option<Expr>) -> usize
    ensures { result ≡ min (sizes.begin_size (seen site.now) kind value.now) 65536 }
{
    match value {
        Some(e) => expr_size(site, e),
        None => zero_size(kind),
    }
}

/// The same of the condition of a `for`, which is true where none is written.
pub fn test_size(site: &Site<'_>, test: &Option<Expr>) -> usize
    ensures { result ≡ min (sizes.test_size (seen site.now) test.now) 65536 }
{
    match test {
        Some(e) => expr_size(site, e),
        None => 2,
    }
}

/// The same of the last part of a `for`, whose value is not used.
pub fn last_size(site: &Site<'_>, last: &Option<Expr>) -> usize
    ensures { result ≡ min (sizes.last_size (seen site.now) last.now) 65536 }
{
    match last {
        Some(e) => drop_size(site, e),
        None => 0,
    }
}

/// How many bytes a jump over so many bytes has: none, if there are none to jump over.
pub fn over_size(size: usize) -> usize
    ensures { result ≡ sizes.over_size size }
{
    if size == 0 { 0 } else { 3 }
}

/// How many bytes the tests of a `switch` have, or 65,536 if there are more.
pub fn tests_size(labels: &[Label]) -> usize
    ensures { result ≡ min (sizes.tests_size labels.now) 65536 }
{
    let mut sum = 0;
    for label in labels {
        sum = match label {
            Label::Case(_) => capped(sum + 11),
            Label::Default => sum,
        };
    }
    sum
}

/// How many bytes the code of a statement has, or 65,536 if there are more.
#[cycle(stmt_sizes)]
#[tactic(auto, using(crate::proofs::RowLemmas::over_capped))]
pub fn stmt_size(site: &Site<'_>, s: &Stmt) -> usize
    ensures { result ≡ min (sizes.stmt_size (seen site.now) s.now) 65536 }
{
    match s {
        Stmt::Empty => 0,
        Stmt::Do(e) => drop_size(site, e),
        Stmt::Local(kind, _, value) => capped(begin_size(site, *kind, value) + 2),
        Stmt::Block(all) => block_size(site, all),
        Stmt::If(test, met, unmet) => {
            let other = stmt_size(site, unmet);
            capped(expr_size(site, test) + 3 + stmt_size(site, met) + over_size(other) + other)
        }
        Stmt::While(test, body) => capped(stmt_size(site, body) + expr_size(site, test) + 7),
        Stmt::DoWhile(body, test) => capped(stmt_size(site, body) + expr_size(site, test) + 4),
        Stmt::For(first, test, last, body) => capped(
            stmt_size(site, first)
                + stmt_size(site, body)
                + last_size(site, last)
                + test_size(site, test)
                + 7,
        ),
        Stmt::Switch(e, labels, all) => {
            capped(expr_size(site, e) + tests_size(labels) + block_size(site, all) + 5)
        }
        Stmt::Break => 3,
        Stmt::Continue => 3,
        Stmt::Return(value) => return_size(site, value),
    }
}

fn return_size(site: &Site<'_>, value: &Option<Expr>) -> usize
    ensures { result ≡ min (sizes.stmt_size (seen site.now) (Return value.now)) 65536 }
{
    match value {
        Some(e) => capped(expr_size(site, e) + 1),
        None => 1,
    }
}

// Statements, one behind the other.
#[cycle(stmt_sizes)]
pub(crate) fn block_size(site: &Site<'_>, all: &[Stmt]) -> usize
    ensures { result ≡ min (block_in (seen site.now) all.now) 65536 }
{
    let mut sum = 0;
    for s in all {
        sum = capped(sum + stmt_size(site, s));
    }
    sum
}

// ---- methods

fn end_size(kind: Kind) -> usize
    ensures { result ≡ sizes.end_size kind }
{
    match kind {
        Kind::Void => 1,
        _ => zero_size(kind) + 1,
    }
}

/// How many bytes the code of a method has, or 65,536 if there are more.
pub fn body_size(site: &Site<'_>, kind: Kind, body: &Option<Stmt>) -> usize
    ensures { result ≡ min (sizes.body_size (seen site.now) kind body.now) 65536 }
{
    match body {
        Some(body) => capped(stmt_size(site, body) + end_size(kind)),
        None => 0,
    }
}
