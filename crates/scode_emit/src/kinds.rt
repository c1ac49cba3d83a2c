//! Kinds of expressions.
ghost use Rattle.std.specs.Prelude.{◌≡◌};
ghost use Rattle.sed_typed.specs.Kinds as kinds;
ghost use Rattle.scode_emit.specs.Lists.{kind_behind as kind_behind_of};

use sed_typed::{Binary, Expr, Kind, Link, Place, TextCall, Unary, Width};
use sed_value::Prim;

fn read_kind(prim: Prim) -> Kind
    ensures { result ≡ kinds.read_kind prim }
{
    match prim {
        Prim::Bool => Kind::Bool,
        Prim::Byte | Prim::Short | Prim::Int => Kind::Int,
        Prim::Long => Kind::Long,
    }
}

fn width_kind(width: Width) -> Kind
    ensures { result ≡ kinds.width_kind width }
{
    match width {
        Width::Int => Kind::Int,
        Width::Long => Kind::Long,
    }
}

fn unary_kind(op: Unary) -> Kind
    ensures { result ≡ kinds.unary_kind op }
{
    match op {
        Unary::Not => Kind::Bool,
        Unary::Negate(width) | Unary::Flip(width) => width_kind(width),
        Unary::ToLong => Kind::Long,
        Unary::ToInt | Unary::LowByte(_) | Unary::LowShort(_) => Kind::Int,
    }
}

fn binary_kind(op: Binary) -> Kind
    ensures { result ≡ kinds.binary_kind op }
{
    match op {
        Binary::Arithmetic(_, width) => width_kind(width),
        _ => Kind::Bool,
    }
}

fn text_kind(call: TextCall) -> Kind
    ensures { result ≡ kinds.text_kind call }
{
    match call {
        TextCall::Length | TextCall::Get => Kind::Int,
        TextCall::Set | TextCall::Copy => Kind::Void,
        TextCall::Equals => Kind::Bool,
    }
}

/// The kind of a value that is read from a place.
pub fn place_kind(target: &Place) -> Kind
    ensures { result ≡ kinds.place_kind target.now }
{
    match target {
        Place::Local(kind, _) => *kind,
        Place::Static(prim, _) => read_kind(*prim),
        Place::Field(prim, _, _) => read_kind(*prim),
        Place::Element(prim, _, _, _, _) => read_kind(*prim),
        Place::StaticElement(prim, _, _, _) => read_kind(*prim),
    }
}

/// The kind of an expression.
#[cycle(kinds)]
#[tactic(auto, using(crate::proofs::RowLemmas::kind_after_hidden))]
pub fn kind_of(e: &Expr) -> Kind
    ensures { result ≡ kinds.kind_of e.now }
{
    match e {
        Expr::Int(_) => Kind::Int,
        Expr::Long(_) => Kind::Long,
        Expr::Bool(_) => Kind::Bool,
        Expr::Null(kind) => *kind,
        Expr::Text(_) => Kind::Text,
        Expr::This(class) => Kind::Object(*class),
        Expr::Local(kind, _) => *kind,
        Expr::Static(prim, _) => read_kind(*prim),
        Expr::StaticPart(kind, _) => *kind,
        Expr::StaticElement(prim, _, _, _) => read_kind(*prim),
        Expr::Ticks => Kind::Long,
        Expr::Unary(op, _) => unary_kind(*op),
        Expr::Choose(_, met, _) => kind_of(met),
        Expr::Set(target, _) => place_kind(target),
        Expr::Update(_, target, _) => place_kind(target),
        Expr::Call(kind, _, _) => *kind,
        Expr::Super(kind, _, _) => *kind,
        Expr::Chain(head, links) => kind_behind(kind_of(head), links),
    }
}

// The kind of what links give.
#[cycle(kinds)]
fn kind_behind(start: Kind, links: &[Link]) -> Kind
    ensures { result ≡ kind_behind_of start links.now }
{
    let mut kind = start;
    for link in links {
        kind = link_kind(link);
    }
    kind
}

/// The kind of what a link gives.
#[cycle(kinds)]
pub fn link_kind(link: &Link) -> Kind
    ensures { result ≡ kinds.link_kind link.now }
{
    match link {
        Link::Binary(op, _) => binary_kind(*op),
        Link::And(_) => Kind::Bool,
        Link::Or(_) => Kind::Bool,
        Link::Field(prim, _) => read_kind(*prim),
        Link::Part(kind, _) => *kind,
        Link::Element(prim, _, _, _) => read_kind(*prim),
        Link::Size(_) => Kind::Int,
        Link::Byte(_, _) => Kind::Int,
        Link::Invoke(kind, _, _) => *kind,
        Link::TextCall(call, _) => text_kind(*call),
        Link::After(e) => kind_of(e),
    }
}
