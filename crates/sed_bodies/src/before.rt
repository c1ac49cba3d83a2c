//! What stands before a `.`.
ghost use Rattle.std.specs.Prelude.{◌≡◌};
ghost use Rattle.sed_bodies.specs.Members as meaning;
ghost use Rattle.sed_body_rules.specs.Scope as scopes;

use crate::context::{Before, Body};
use sed_body_rules::Locals;
use sed_names::Lookup;
use sed_typed::TypeNo;
use sed_units::{Expr, Link, Node, Step};

fn class_or_value(class: Option<TypeNo>) -> Before
    ensures { result ≡ meaning.class_or_value class }
{
    match class {
        Some(class) => Before::Class(class),
        None => Before::Value,
    }
}

fn no_member_before<N: Lookup>(names: &N, name: &[u8]) -> Before
    ensures { result ≡ meaning.no_member_before (N.names names.now) name.now }
{
    if name == b"Sys".as_slice() {
        Before::System
    } else {
        class_or_value(names.class(name))
    }
}

fn name_before<N: Lookup>(names: &N, body: &Body, scope: &Locals, name: &[u8]) -> Before
    ensures { result ≡ meaning.name_before (N.names names.now) name.now
        (scopes.local_named scope.now.entries name.now) ((N.names names.now).member body.now.class.0 name.now) }
{
    match scope.local(name) {
        Some(_) => Before::Value,
        None => match names.member(body.class, name) {
            Some(_) => Before::Value,
            None => no_member_before(names, name),
        },
    }
}

fn before<N: Lookup>(names: &N, body: &Body, scope: &Locals, head: &Expr) -> Before
    ensures { result ≡ meaning.before (N.names names.now) body.now scope.now head.now }
{
    match &head.node {
        Node::Name(id) => name_before(names, body, scope, id.bytes.as_slice()),
        Node::Of(kit, id) => {
            class_or_value(names.class_in(kit.bytes.as_slice(), id.bytes.as_slice()))
        }
        Node::Literal(_) | Node::This | Node::Super(_, _) | Node::Call(_, _) => Before::Value,
        Node::Paren(_) | Node::Prefix(_, _) | Node::Cast(_, _) | Node::Chain(_, _) => Before::Value,
        Node::Update(_, _) | Node::Conditional(_, _, _) | Node::Assign(_, _, _) => Before::Value,
    }
}

fn is_dot(link: &Link) -> bool
    ensures { result ≡ meaning.is_dot link.now }
{
    match &link.step {
        Step::Member(_) | Step::Method(_, _) => true,
        Step::Index(_) | Step::Operand(_, _) => false,
    }
}

/// What the head of a chain is, before its first link.
pub fn before_link<N: Lookup>(
    names: &N,
    body: &Body,
    scope: &Locals,
    head: &Expr,
    link: &Link,
) -> Before
    ensures { result ≡ meaning.before_link (N.names names.now) body.now scope.now head.now link.now }
{
    if is_dot(link) {
        before(names, body, scope, head)
    } else {
        Before::Value
    }
}
