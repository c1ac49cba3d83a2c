//! The ints that cases spell.
ghost use Rattle.std.specs.Prelude.{◌≡◌, IfOk};
ghost use Rattle.sed_units.specs.Tree.{row};
ghost use Rattle.sed_body_rules.specs.Scope.{local_named};
ghost use Rattle.sed_statements.specs.Cases as spelled;

use sed_bodies::{Before, Body, before_link};
use sed_body_rules::Locals;
use sed_lexer::Number;
use sed_names::{Constant, Lookup, Member, character_of, integer_of};
use sed_units::{Expr, Link, Literal, LiteralKind, Node, Step};

fn literal_int(l: &Literal) -> Option<i32>
    ensures { result ≡ spelled.literal_int l.now.kind l.now.bytes }
{
    match l.kind {
        LiteralKind::Integer => match integer_of(l.bytes.as_slice()) {
            Some(Number::Int(i)) => Some(i),
            Some(Number::Long(_)) | None => None,
        },
        LiteralKind::Character => match character_of(l.bytes.as_slice()) {
            Some(c) => Some(i32::from(c)),
            None => None,
        },
        LiteralKind::Text | LiteralKind::True | LiteralKind::False | LiteralKind::Null => None,
    }
}

fn define_int(member: Option<Member>) -> Option<i32>
    ensures { result ≡ spelled.define_int member }
{
    match member {
        Some(Member::Define(Some(Constant::Int(i)))) => Some(i),
        _ => None,
    }
}

fn named_int<N: Lookup>(names: &N, body: &Body, scope: &Locals, name: &[u8]) -> Option<i32>
    ensures { result ≡ spelled.named_int (local_named scope.now.entries name.now)
        ((N.names names.now).member body.now.class.0 name.now) }
{
    match scope.local(name) {
        Some(_) => None,
        None => define_int(names.member(body.class, name)),
    }
}

fn member_int<N: Lookup>(names: &N, before: Before, link: &Link) -> Option<i32>
    ensures { result ≡ spelled.member_int (N.names names.now) before link.now }
{
    match before {
        Before::Class(class) => match &link.step {
            Step::Member(id) => define_int(names.member(class, id.bytes.as_slice())),
            Step::Method(_, _) | Step::Index(_) | Step::Operand(_, _) => None,
        },
        Before::Value | Before::System => None,
    }
}

fn chain_int<N: Lookup>(
    names: &N,
    body: &Body,
    scope: &Locals,
    head: &Expr,
    links: &[Link],
) -> Option<i32>
    ensures { result ≡ spelled.chain_int (N.names names.now) body.now scope.now head.now (row links.now) }
{
    match links.split_first() {
        None => None,
        Some((link, more)) => match more.split_first() {
            None => member_int(names, before_link(names, body, scope, head, link), link),
            Some((_, _)) => None,
        },
    }
}

/// The int that an expression spells as a case: that of a literal, or of a define.
pub fn case_int<N: Lookup>(names: &N, body: &Body, scope: &Locals, e: &Expr) -> Option<i32>
    ensures { result ≡ spelled.case_int (N.names names.now) body.now scope.now e.now }
{
    match &e.node {
        Node::Paren(x) => case_int(names, body, scope, x),
        Node::Literal(l) => literal_int(l),
        Node::Name(id) => named_int(names, body, scope, id.bytes.as_slice()),
        Node::Chain(head, links) => chain_int(names, body, scope, head, links),
        Node::This | Node::Super(_, _) | Node::Of(_, _) | Node::Call(_, _) => None,
        Node::Prefix(_, _) | Node::Cast(_, _) | Node::Update(_, _) => None,
        Node::Conditional(_, _, _) | Node::Assign(_, _, _) => None,
    }
}
