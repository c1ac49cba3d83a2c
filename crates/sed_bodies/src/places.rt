//! Where expressions begin, and which of them may name a place.
ghost use Rattle.std.specs.Prelude.{◌≡◌, true};
ghost use Rattle.sed_bodies.specs.Places as places;

use sed_units::{Expr, Node};

/// The place of an expression's first byte.
pub fn place_of(e: &Expr) -> usize
    ensures place { result ≡ places.place_of e.now }
    ensures part { places.is_part e.now ≡ true }
{
    match &e.node {
        Node::Literal(l) => l.at,
        Node::Name(id) => id.at,
        Node::Of(kit, _) => kit.at,
        Node::Call(id, _) => id.at,
        Node::This => e.at,
        Node::Super(_, _) => e.at,
        Node::Paren(_) => e.at,
        Node::Prefix(_, _) => e.at,
        Node::Cast(_, _) => e.at,
        Node::Chain(_, _) => e.at,
        Node::Update(_, _) => e.at,
        Node::Conditional(_, _, _) => e.at,
        Node::Assign(_, _, _) => e.at,
    }
}

/// Whether an expression may name a place: a cast names none, whatever is cast.
pub fn may_name(e: &Expr) -> bool
    ensures { result ≡ places.may_name e.now }
{
    match &e.node {
        Node::Cast(_, _) => false,
        Node::Paren(x) => may_name(x),
        Node::Literal(_) | Node::This | Node::Super(_, _) | Node::Name(_) | Node::Of(_, _) => true,
        Node::Call(_, _) | Node::Prefix(_, _) | Node::Chain(_, _) | Node::Update(_, _) => true,
        Node::Conditional(_, _, _) | Node::Assign(_, _, _) => true,
    }
}
