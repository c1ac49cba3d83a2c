// Links behind an expression, and what an expression whose last access is held back becomes.
ghost use Rattle.std.specs.Prelude.{◌≡◌, IfOk, true};
ghost use Rattle.sed_typed.specs.declared.tree.Link.TheVariants as tied;
ghost use Rattle.sed_typed.specs.Flat.{IsFlat, IsFlatLink, IsFlatPlace, IsNoChain};
ghost use Rattle.sed_terms.specs.FlatOpen.{IsFlatBox, IsFlatOpen};
ghost use Rattle.sed_terms.specs.Forms as forms;
ghost use Rattle.sed_terms.specs.OpenTerm.{open_term, is_open, behind, evaluated_behind, optional_boxed};
ghost use Rattle.sed_terms.specs.Seen.{term_of, place_term, link_term};
ghost use Rattle.sed_terms.specs.Sorts.{is_value};

use crate::boxes::{boxed, push_boxed};
use crate::open::Open;
use sed_typed::{Binary, Expr, Link, Place};
use sed_value::{Memory, Prim};
use std::alloc::Global;

/// An expression with one more link behind it.
pub fn with_link(alloc: Global, mut tree: Box<Expr>, link: Box<Link>) -> Result<Box<Expr>, Memory>
    requires tree_is_flat { IsFlat tree.value }
    requires link_is_flat { IsFlatLink link.value }
    ensures term { IfOk result (λ e. term_of e.value ≡ link_term (term_of tree.value) link.value) }
    ensures flat { IfOk result (λ e. IsFlat e.value) }
{
    if let Expr::Chain(_, links) = &mut *tree {
        push_boxed(links, link)?;
        return Ok(tree);
    }
    chain(alloc, tree, link)
}

// A chain of one link.
fn chain(alloc: Global, head: Box<Expr>, link: Box<Link>) -> Result<Box<Expr>, Memory>
    requires head_is_flat { IsFlat head.value }
    requires head_is_no_chain { IsNoChain head.value }
    requires link_is_flat { IsFlatLink link.value }
    ensures term { IfOk result (λ e. term_of e.value ≡ link_term (term_of head.value) link.value) }
    ensures flat { IfOk result (λ e. IsFlat e.value) }
{
    let mut links = Vec::new(alloc);
    push_boxed(&mut links, link)?;
    let tree = boxed(alloc, Expr::Chain(head, links))?;
    Ok(tree)
}

// ---- links that hold an expression

/// The link of a binary operator with its right operand.
pub fn binary_link(alloc: Global, op: Binary, e: Box<Expr>) -> Result<Box<Link>, Memory>
    ensures { IfOk result (λ l. l.value ≡ tied.Binary op e.value) }
{
    boxed(alloc, Link::Binary(op, Box::into_inner(e)))
}

/// The link of `&&` with its right operand.
pub fn and_link(alloc: Global, e: Box<Expr>) -> Result<Box<Link>, Memory>
    ensures { IfOk result (λ l. l.value ≡ tied.And e.value) }
{
    boxed(alloc, Link::And(Box::into_inner(e)))
}

/// The link of `||` with its right operand.
pub fn or_link(alloc: Global, e: Box<Expr>) -> Result<Box<Link>, Memory>
    ensures { IfOk result (λ l. l.value ≡ tied.Or e.value) }
{
    boxed(alloc, Link::Or(Box::into_inner(e)))
}

/// The link of an element of an array of so many elements, with the index.
pub fn element_link(
    alloc: Global,
    prim: Prim,
    count: u16,
    number: u16,
    e: Box<Expr>,
) -> Result<Box<Link>, Memory>
    ensures { IfOk result (λ l. l.value ≡ tied.Element prim count number e.value) }
{
    boxed(
        alloc,
        Link::Element(prim, count, number, Box::into_inner(e)),
    )
}

/// The link of a byte of a Buf, with the index.
pub fn byte_link(alloc: Global, number: u16, e: Box<Expr>) -> Result<Box<Link>, Memory>
    ensures { IfOk result (λ l. l.value ≡ tied.Byte number e.value) }
{
    boxed(alloc, Link::Byte(number, Box::into_inner(e)))
}

/// The link of a static member through an instance: the value on the left is not used.
pub fn after_link(alloc: Global, e: Box<Expr>) -> Result<Box<Link>, Memory>
    ensures { IfOk result (λ l. l.value ≡ tied.After e.value) }
{
    boxed(alloc, Link::After(Box::into_inner(e)))
}

// ---- with a last access behind it

/// What is evaluated of an expression whose value is not used: of a value all, with its last access behind it.
#[tactic(auto, using(crate::proofs::Discarded::whole))]
pub fn evaluated_part(alloc: Global, tree: Open) -> Result<Option<Box<Expr>>, Memory>
    requires { IsFlatOpen tree }
    ensures term { IfOk result (λ e. optional_boxed e ≡ forms.discarded (open_term tree)) }
    ensures flat { IfOk result (λ e. IsFlatBox e) }
{
    match tree {
        Open::Nothing | Open::StaticArray(_, _, _) => Ok(None),
        Open::Array(_, _, e, _) | Open::Buf(e, _) | Open::Bytes(e, _) => Ok(Some(e)),
        Open::Value(e) => Ok(Some(e)),
        Open::Local(kind, number) => {
            let e = boxed(alloc, Expr::Local(kind, number))?;
            Ok(Some(e))
        }
        Open::Static(prim, number) => {
            let e = boxed(alloc, Expr::Static(prim, number))?;
            Ok(Some(e))
        }
        Open::StaticElement(prim, count, number, index) => {
            let e = boxed(alloc, Expr::StaticElement(prim, count, number, index))?;
            Ok(Some(e))
        }
        Open::Field(prim, e, number) => {
            let link = boxed(alloc, Link::Field(prim, number))?;
            let e = with_link(alloc, e, link)?;
            Ok(Some(e))
        }
        Open::Element(prim, count, e, number, index) => {
            let link = element_link(alloc, prim, count, number, index)?;
            let e = with_link(alloc, e, link)?;
            Ok(Some(e))
        }
    }
}

/// The same behind what is evaluated before it.
#[tactic(auto, using(crate::proofs::Discarded::after_is))]
pub fn evaluated(
    alloc: Global,
    before: Option<Box<Expr>>,
    part: Option<Box<Expr>>,
) -> Result<Option<Box<Expr>>, Memory>
    requires before_is_flat { IsFlatBox before }
    requires part_is_flat { IsFlatBox part }
    ensures term { IfOk result (λ e. optional_boxed e ≡ evaluated_behind before (optional_boxed part)) }
    ensures flat { IfOk result (λ e. IsFlatBox e) }
{
    match (before, part) {
        (None, part) => Ok(part),
        (Some(before), None) => Ok(Some(before)),
        (Some(before), Some(part)) => {
            let link = after_link(alloc, part)?;
            let both = with_link(alloc, before, link)?;
            Ok(Some(both))
        }
    }
}

/// A value with its last access behind it.
#[tactic(auto, using(crate::proofs::Discarded::value_whole))]
pub fn closed(alloc: Global, tree: Open) -> Result<Box<Expr>, Memory>
    requires is_value { is_value (open_term tree) ≡ true }
    requires is_flat { IsFlatOpen tree }
    ensures term { IfOk result (λ e. term_of e.value ≡ open_term tree) }
    ensures flat { IfOk result (λ e. IsFlat e.value) }
{
    let part = evaluated_part(alloc, tree)?;
    match part {
        Some(e) => Ok(e),
        None => Err(Memory),
    }
}

/// What may be assigned to.
pub fn placed(tree: Open) -> Result<Place, Memory>
    requires is_open { is_open tree ≡ true }
    requires is_flat { IsFlatOpen tree }
    ensures term { IfOk result (λ p. place_term p ≡ open_term tree) }
    ensures flat { IfOk result (λ p. IsFlatPlace p) }
{
    match tree {
        Open::Local(kind, number) => Ok(Place::Local(kind, number)),
        Open::Static(prim, number) => Ok(Place::Static(prim, number)),
        Open::StaticElement(prim, count, number, index) => Ok(Place::StaticElement(
            prim, count, number, index,
        )),
        Open::Field(prim, e, number) => Ok(Place::Field(prim, e, number)),
        Open::Element(prim, count, e, number, index) => Ok(Place::Element(
            prim, count, e, number, index,
        )),
        _ => Err(Memory),
    }
}

/// A value behind what is evaluated before it.
pub fn put_behind(
    alloc: Global,
    before: Option<Box<Expr>>,
    e: Box<Expr>,
) -> Result<Box<Expr>, Memory>
    requires before_is_flat { IsFlatBox before }
    requires is_flat { IsFlat e.value }
    ensures term { IfOk result (λ r. term_of r.value ≡ behind before (term_of e.value)) }
    ensures flat { IfOk result (λ r. IsFlat r.value) }
{
    match before {
        None => Ok(e),
        Some(before) => {
            let link = after_link(alloc, e)?;
            with_link(alloc, before, link)
        }
    }
}
