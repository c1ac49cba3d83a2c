//! How many cells the code of a tree has on the stack at most, or a number past the longest method.
ghost use Rattle.std.specs.Prelude.{◌≡◌, ◌≤◌, ◌+◌, max, min};
ghost use Rattle.scode_entries.specs.Stack as stack;
ghost use Rattle.scode_entries.specs.StackLists.{args_stack as args_on, block_stack as block_on};
ghost use Rattle.scode_entries.specs.StackLists.{behind_stack as links_on};

use scode_emit::TOO_LONG;
use sed_typed::{Expr, Link, Place, Stmt};

// One cell more.
fn more(cells: usize) -> usize
    requires { cells ≤ 65536 }
    ensures { result ≡ min (cells + 1) 65536 }
{
    (cells + 1).min(TOO_LONG)
}

fn place_cells(target: &Place) -> usize
    ensures value { result ≡ stack.place_cells target.now }
    ensures few { result ≤ 2 }
{
    match target {
        Place::Local(_, _) => 0,
        Place::Static(_, _) => 1,
        Place::Field(_, _, _) => 1,
        Place::Element(_, _, _, _, _) => 2,
        Place::StaticElement(_, _, _, _) => 2,
    }
}

// A value above so many cells that stand there before it is stored, and what is needed before it is computed.
fn stored_stack(before: usize, cells: usize, value: usize) -> usize
    requires before { before ≤ 65536 }
    requires cells { cells ≤ 4 }
    requires value { value ≤ 65536 }
    ensures { result ≡ max before (min (cells + value) 65536) }
{
    before.max((cells + value).min(TOO_LONG))
}

#[cycle(stacks)]
fn expr_stack(e: &Expr) -> usize
    ensures { result ≡ min (stack.expr_stack e.now) 65536 }
{
    match e {
        Expr::Int(_) => 1,
        Expr::Long(_) => 1,
        Expr::Bool(_) => 1,
        Expr::Null(_) => 1,
        Expr::Text(_) => 1,
        Expr::This(_) => 1,
        Expr::Local(_, _) => 1,
        Expr::Static(_, _) => 1,
        Expr::StaticPart(_, _) => 1,
        Expr::StaticElement(_, _, _, index) => more(expr_stack(index)),
        Expr::Ticks => 1,
        Expr::Unary(_, operand) => expr_stack(operand),
        Expr::Choose(test, met, unmet) => {
            expr_stack(test).max(expr_stack(met)).max(expr_stack(unmet))
        }
        Expr::Set(target, value) => stored_stack(
            place_stack(target),
            place_cells(target) + 1,
            expr_stack(value),
        ),
        Expr::Update(_, target, operand) => stored_stack(
            place_stack(target),
            place_cells(target) + 2,
            expr_stack(operand),
        ),
        Expr::Call(_, _, args) => more(args_stack(args)),
        Expr::Super(_, _, args) => more(args_stack(args)),
        Expr::Chain(head, links) => expr_stack(head).max(links_stack(links)),
    }
}

// What stands on the stack before a value is stored at a place, while it is computed.
#[cycle(stacks)]
fn place_stack(target: &Place) -> usize
    ensures { result ≡ min (stack.place_stack target.now) 65536 }
{
    match target {
        Place::Local(_, _) => 0,
        Place::Static(_, _) => 1,
        Place::Field(_, object, _) => expr_stack(object),
        Place::Element(_, _, object, _, index) => expr_stack(object).max(more(expr_stack(index))),
        Place::StaticElement(_, _, _, index) => more(expr_stack(index)),
    }
}

// Arguments, one above the other.
#[cycle(stacks)]
fn args_stack(args: &[Expr]) -> usize
    ensures { result ≡ min (args_on args.now) 65536 }
{
    let mut most = 0;
    let mut depth = 0;
    for arg in args {
        most = most.max((depth + expr_stack(arg)).min(TOO_LONG));
        depth = more(depth);
    }
    most.max(depth)
}

#[cycle(stacks)]
fn links_stack(links: &[Link]) -> usize
    ensures { result ≡ min (links_on links.now) 65536 }
{
    let mut most = 0;
    for link in links {
        most = most.max(link_stack(link));
    }
    most
}

// A link, with what is on its left.
#[cycle(stacks)]
fn link_stack(link: &Link) -> usize
    ensures { result ≡ min (stack.link_stack link.now) 65536 }
{
    match link {
        Link::Binary(_, operand) => more(expr_stack(operand)),
        Link::And(operand) => expr_stack(operand).max(1),
        Link::Or(operand) => expr_stack(operand).max(1),
        Link::Field(_, _) => 1,
        Link::Part(_, _) => 1,
        Link::Element(_, _, _, index) => more(expr_stack(index)),
        Link::Size(_) => 1,
        Link::Byte(_, index) => more(expr_stack(index)),
        Link::Invoke(_, _, args) => more(args_stack(args)),
        Link::TextCall(_, args) => more(args_stack(args)),
        Link::After(e) => expr_stack(e).max(1),
    }
}

// ---- statements

// A part that may be missing.
fn part_stack(part: &Option<Expr>) -> usize
    ensures { result ≡ min (stack.part_stack part.now) 65536 }
{
    match part {
        Some(e) => expr_stack(e),
        None => 1,
    }
}

#[cycle(stmt_stacks)]
fn stmt_stack(s: &Stmt) -> usize
    ensures { result ≡ min (stack.stmt_stack s.now) 65536 }
{
    match s {
        Stmt::Empty => 0,
        Stmt::Do(e) => expr_stack(e),
        Stmt::Local(_, _, value) => part_stack(value),
        Stmt::Block(all) => block_stack(all),
        Stmt::If(test, met, unmet) => {
            expr_stack(test).max(stmt_stack(met)).max(stmt_stack(unmet))
        }
        Stmt::While(test, body) => stmt_stack(body).max(expr_stack(test)),
        Stmt::DoWhile(body, test) => stmt_stack(body).max(expr_stack(test)),
        Stmt::For(first, test, last, body) => {
            let parts = part_stack(last).max(part_stack(test));
            stmt_stack(first).max(stmt_stack(body)).max(parts)
        }
        Stmt::Switch(e, _, all) => expr_stack(e).max(2).max(block_stack(all)),
        Stmt::Break => 0,
        Stmt::Continue => 0,
        Stmt::Return(value) => part_stack(value),
    }
}

#[cycle(stmt_stacks)]
fn block_stack(all: &[Stmt]) -> usize
    ensures { result ≡ min (block_on all.now) 65536 }
{
    let mut most = 0;
    for s in all {
        most = most.max(stmt_stack(s));
    }
    most
}

// A body, behind which 0, false or null is answered.
pub(crate) fn body_stack(body: &Option<Stmt>) -> usize
    ensures { result ≡ min (stack.body_stack body.now) 65536 }
{
    match body {
        Some(body) => stmt_stack(body).max(1),
        None => 0,
    }
}
