// Elements, Bufs and stores of typed expressions in the making. A static through an instance stays behind that
// instance.
ghost use Rattle.std.specs.Prelude.{◌≡◌, IfOk, true};
ghost use Rattle.sed_typed.specs.declared.operators.Gives.TheVariants as gives;
ghost use Rattle.sed_terms.specs.declared.sort.Sort.TheVariants as sorted;
ghost use Rattle.sed_typed.specs.Flat.{IsFlat};
ghost use Rattle.sed_terms.specs.FlatOpen.{IsFlatBox, IsFlatOpen};
ghost use Rattle.sed_terms.specs.Forms as forms;
ghost use Rattle.sed_terms.specs.OpenTerm.{open_term, is_open, behind};
ghost use Rattle.sed_terms.specs.Ones as ones;
ghost use Rattle.sed_terms.specs.Seen.{literal_operand, operand_term, term_of};
ghost use Rattle.sed_terms.specs.Sorts as sorts;
ghost use Rattle.sed_terms.specs.Sorts.{is_value, sort_of, term_kind};
ghost use Rattle.sed_terms.specs.Term.{Term};

use super::{Found, held, opened};
use crate::boxes::boxed;
use crate::kinds::read_kind;
use crate::links::{byte_link, placed, with_link};
use crate::open::Open;
use crate::sort::Sort;
use sed_typed::{Arithmetic, Expr, Gives, Kind, Link, Update, Width};
use sed_value::Memory;
use std::alloc::Global;

impl Found {
    /// An element of an array, or a byte of a Buf's `bytes`.
    pub fn indexed(alloc: Global, array: Found, index: Found) -> Result<Found, Memory>
        requires has_elements { forms.has_elements (sort_of array) ≡ true }
        requires index_is_value { is_value index ≡ true }
        ensures { IfOk result (λ r. r ≡ forms.indexed array index) }
    {
        let index = index.into_expr(alloc)?;
        let array = opened(array);
        element(alloc, array.before, array.tree, index)
    }

    /// `bytes` of a Buf.
    pub fn bytes(alloc: Global, buf: Found) -> Result<Found, Memory>
        requires { sort_of buf ≡ sorted.Buf }
        ensures { IfOk result (λ r. r ≡ forms.bytes_of buf) }
    {
        let buf = opened(buf);
        bytes_in(alloc, buf.before, buf.tree)
    }

    /// `size` of a Buf.
    pub fn size(alloc: Global, buf: Found) -> Result<Found, Memory>
        requires { sort_of buf ≡ sorted.Buf }
        ensures { IfOk result (λ r. r ≡ forms.size_of buf) }
    {
        let buf = opened(buf);
        size_in(alloc, buf.before, buf.tree)
    }

    /// `=`, of a value in a place that may be assigned to.
    #[tactic(auto, using(crate::proofs::Behind::kind_behind))]
    pub fn set(alloc: Global, target: Found, value: Found) -> Result<Found, Memory>
        requires target_is_place { sorts.is_place target ≡ true }
        requires value_is_value { is_value value ≡ true }
        ensures { IfOk result (λ r. r ≡ forms.stored target value) }
    {
        let kind = target.kind();
        let value = value.into_expr(alloc)?;
        let target = opened(target);
        stored(alloc, kind, target.before, target.tree, value)
    }

    /// `op=`, and `++` and `--` in front, of an operand.
    #[tactic(auto, using(crate::proofs::Behind::kind_behind))]
    pub fn update(
        alloc: Global,
        update: Update,
        target: Found,
        operand: Found,
    ) -> Result<Found, Memory>
        requires target_is_place { sorts.is_place target ≡ true }
        requires operand_is_value { is_value operand ≡ true }
        requires gives_new { update.gives ≡ gives.New }
        ensures { IfOk result (λ r. r ≡ forms.updated update target operand) }
    {
        let kind = target.kind();
        let operand = operand.into_expr(alloc)?;
        let target = opened(target);
        updated(alloc, update, kind, target.before, target.tree, operand)
    }

    /// `++` and `--` behind their target, which give the value before.
    #[tactic(auto, using(crate::proofs::Behind::kind_behind))]
    pub fn counted(
        alloc: Global,
        arithmetic: Arithmetic,
        width: Width,
        target: Found,
    ) -> Result<Found, Memory>
        requires { sorts.is_place target ≡ true }
        ensures { IfOk result (λ r. r ≡ forms.counted arithmetic width target) }
    {
        let kind = target.kind();
        let update = Update {
            arithmetic,
            width,
            gives: Gives::Old,
        };
        let one = boxed(alloc, one_in(width))?;
        let target = opened(target);
        updated(alloc, update, kind, target.before, target.tree, one)
    }
}

#[tactic(auto, using(crate::proofs::Behind::indexed_behind))]
fn element(
    alloc: Global,
    before: Option<Box<Expr>>,
    array: Open,
    index: Box<Expr>,
) -> Result<Found, Memory>
    requires before_is_flat { IsFlatBox before }
    requires array_is_flat { IsFlatOpen array }
    requires index_is_flat { IsFlat index.value }
    ensures { IfOk result (λ r. r ≡ forms.indexed (behind before (open_term array)) (term_of index.value)) }
{
    match array {
        Open::Array(prim, count, e, number) => {
            let sort = Sort::Of(read_kind(prim));
            held(
                alloc,
                before,
                sort,
                Open::Element(prim, count, e, number, index),
            )
        }
        Open::StaticArray(prim, count, number) => {
            let sort = Sort::Of(read_kind(prim));
            held(
                alloc,
                before,
                sort,
                Open::StaticElement(prim, count, number, index),
            )
        }
        Open::Bytes(e, number) => {
            let link = byte_link(alloc, number, index)?;
            let tree = with_link(alloc, e, link)?;
            held(alloc, before, Sort::Of(Kind::Int), Open::Value(tree))
        }
        _ => Err(Memory),
    }
}

#[tactic(auto, using(crate::proofs::Behind::bytes_behind))]
fn bytes_in(alloc: Global, before: Option<Box<Expr>>, buf: Open) -> Result<Found, Memory>
    requires before_is_flat { IsFlatBox before }
    requires buf_is_flat { IsFlatOpen buf }
    ensures { IfOk result (λ r. r ≡ forms.bytes_of (behind before (open_term buf))) }
{
    match buf {
        Open::Buf(e, number) => held(alloc, before, Sort::Bytes, Open::Bytes(e, number)),
        _ => Err(Memory),
    }
}

#[tactic(auto, using(crate::proofs::Behind::size_behind))]
fn size_in(alloc: Global, before: Option<Box<Expr>>, buf: Open) -> Result<Found, Memory>
    requires before_is_flat { IsFlatBox before }
    requires buf_is_flat { IsFlatOpen buf }
    ensures { IfOk result (λ r. r ≡ forms.size_of (behind before (open_term buf))) }
{
    match buf {
        Open::Buf(e, number) => {
            let link = boxed(alloc, Link::Size(number))?;
            let tree = with_link(alloc, e, link)?;
            held(alloc, before, Sort::Of(Kind::Int), Open::Value(tree))
        }
        _ => Err(Memory),
    }
}

#[tactic(auto, using(crate::proofs::Behind::stored_open))]
fn stored(
    alloc: Global,
    kind: Kind,
    before: Option<Box<Expr>>,
    place: Open,
    value: Box<Expr>,
) -> Result<Found, Memory>
    requires is_place { is_open place ≡ true }
    requires before_is_flat { IsFlatBox before }
    requires place_is_flat { IsFlatOpen place }
    requires kind_is { kind ≡ term_kind (open_term place) }
    requires value_is_flat { IsFlat value.value }
    ensures { IfOk result (λ r. r ≡ forms.stored (behind before (open_term place)) (term_of value.value)) }
{
    let place = placed(place)?;
    let tree = boxed(alloc, Expr::Set(place, value))?;
    held(alloc, before, Sort::Of(kind), Open::Value(tree))
}

#[tactic(auto, using(crate::proofs::Behind::updated_open))]
fn updated(
    alloc: Global,
    update: Update,
    kind: Kind,
    before: Option<Box<Expr>>,
    place: Open,
    operand: Box<Expr>,
) -> Result<Found, Memory>
    requires is_place { is_open place ≡ true }
    requires before_is_flat { IsFlatBox before }
    requires place_is_flat { IsFlatOpen place }
    requires kind_is { kind ≡ term_kind (open_term place) }
    requires operand_is_flat { IsFlat operand.value }
    requires operand_is { operand_term update.gives operand.value (term_of operand.value) ≡ term_of operand.value }
    ensures { IfOk result (λ r. r ≡ forms.updated update (behind before (open_term place)) (term_of operand.value)) }
{
    let place = placed(place)?;
    let tree = boxed(alloc, Expr::Update(update, place, operand))?;
    held(alloc, before, Sort::Of(kind), Open::Value(tree))
}

// The 1 of a width.
fn one_in(width: Width) -> Expr
    ensures of_width { term_of result ≡ ones.one_in width }
    ensures literal { (t : Term) → literal_operand result t ≡ t }
    ensures flat { IsFlat result }
{
    match width {
        Width::Int => Expr::Int(1),
        Width::Long => Expr::Long(1),
    }
}
