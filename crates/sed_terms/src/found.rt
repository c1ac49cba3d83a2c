//! A typed expression in the making.
ghost use Rattle.std.specs.Prelude.{◌≡◌, IfOk, false, true};
ghost use Rattle.sed_terms.specs.declared.sign.Sign.TheVariants as sign;
ghost use Rattle.sed_typed.specs.Flat.{IsFlat};
ghost use Rattle.sed_terms.specs.FlatOpen.{IsFlatBox, IsFlatOpen};
ghost use Rattle.sed_terms.specs.Forms as forms;
ghost use Rattle.sed_terms.specs.OpenTerm.{open_term, is_open, behind, optional_boxed};
ghost use Rattle.sed_terms.specs.Seen.{term_of};
ghost use Rattle.sed_terms.specs.Sorts as sorts;
ghost use Rattle.sed_terms.specs.Sorts.{is_value, sort_of};
ghost use Rattle.sed_terms.specs.Term.{Absent, Node, leaf};

mod accesses;
mod calls;
mod stores;

use crate::boxes::boxed;
use crate::kinds::{binary_kind, kind_in, read_kind, unary_kind};
use crate::links::{
    and_link, binary_link, closed, evaluated, evaluated_part, or_link, put_behind, with_link,
};
use crate::open::Open;
use crate::sort::Sort;
use sed_typed::{Binary, Expr, Kind, TypeNo, Unary};
use sed_value::{Memory, Prim};
use std::alloc::Global;
use std::marker::Model;

/// A typed expression in the making, with what it comes to. Contracts see its term; its tree is flat.
#[derive(Drop)]
pub struct Found {
    made: Box<Made>,
}

// What is made of it so far: what is evaluated before it, and its tree.
#[derive(Drop)]
struct Made {
    sort: Sort,
    before: Option<Box<Expr>>,
    tree: Open,
}

impl Model for Found {
    ghost use Rattle.std.specs.Prelude.{◌≡◌};
    ghost use Rattle.sed_terms.specs.Term.{Term, term_code};
    ghost use Rattle.sed_terms.specs.Sorts.{sort_of, is_place};
    ghost use Rattle.sed_terms.specs.FlatOpen.{IsFlatBox, IsFlatOpen};
    ghost use Rattle.sed_terms.specs.OpenTerm.{open_term, is_open, behind};
    ghost use Rattle.sed_terms.specs.contracts.sign.Sign as s;

    ghost Value = { Term };

    ghost coded = { term_code s.the_row.coded };

    ghost view = { λ f. behind f.made.value.before (open_term f.made.value.tree) };

    ghost invariant = { λ f. (f.made.value.sort ≡ sort_of (behind f.made.value.before (open_term f.made.value.tree)))
        × (is_open f.made.value.tree ≡ is_place (behind f.made.value.before (open_term f.made.value.tree)))
        × IsFlatBox f.made.value.before × IsFlatOpen f.made.value.tree };
}

// One with its parts.
#[tactic(auto, using(crate::proofs::Values::place_behind, crate::proofs::Values::sort_behind))]
fn held(alloc: Global, before: Option<Box<Expr>>, sort: Sort, tree: Open) -> Result<Found, Memory>
    requires sort_is { sort ≡ sort_of (open_term tree) }
    requires place_is { is_open tree ≡ sorts.is_place (open_term tree) }
    requires before_is_flat { IsFlatBox before }
    requires tree_is_flat { IsFlatOpen tree }
    ensures { IfOk result (λ r. r ≡ behind before (open_term tree)) }
{
    let made = boxed(alloc, Made { sort, before, tree })?;
    Ok(Found { made })
}

// A value.
fn whole(alloc: Global, sort: Sort, tree: Box<Expr>) -> Result<Found, Memory>
    requires sort_is { sort ≡ sort_of (term_of tree.value) }
    requires is_no_place { sorts.is_place (term_of tree.value) ≡ false }
    requires is_flat { IsFlat tree.value }
    ensures { IfOk result (λ r. r ≡ term_of tree.value) }
{
    held(alloc, None, sort, Open::Value(tree))
}

// Its parts.
fn opened(found: Found) -> Made
    ensures term { behind result.before (open_term result.tree) ≡ found }
    ensures sort { result.sort ≡ sort_of found }
    ensures place { is_open result.tree ≡ sorts.is_place found }
    ensures flat_before { IsFlatBox result.before }
    ensures flat_tree { IsFlatOpen result.tree }
{
    Box::into_inner(found.made)
}

// ---- what stands alone

impl Found {
    /// An int literal.
    pub fn int(alloc: Global, n: i32) -> Result<Found, Memory>
        ensures { IfOk result (λ r. r ≡ leaf (sign.Int n)) }
    {
        let tree = boxed(alloc, Expr::Int(n))?;
        whole(alloc, Sort::Of(Kind::Int), tree)
    }

    /// A long literal.
    pub fn long(alloc: Global, n: i64) -> Result<Found, Memory>
        ensures { IfOk result (λ r. r ≡ leaf (sign.Long n)) }
    {
        let tree = boxed(alloc, Expr::Long(n))?;
        whole(alloc, Sort::Of(Kind::Long), tree)
    }

    /// 0 false, 1 true, 2 null.
    pub fn truth(alloc: Global, t: u8) -> Result<Found, Memory>
        ensures { IfOk result (λ r. r ≡ leaf (sign.Bool t)) }
    {
        let tree = boxed(alloc, Expr::Bool(t))?;
        whole(alloc, Sort::Of(Kind::Bool), tree)
    }

    /// `null`, before its place gives it a kind.
    pub fn nothing(alloc: Global) -> Result<Found, Memory>
        ensures { IfOk result (λ r. r ≡ leaf sign.Nothing) }
    {
        held(alloc, None, Sort::Nothing, Open::Nothing)
    }

    /// `null` in a place of this kind.
    pub fn null(alloc: Global, kind: Kind) -> Result<Found, Memory>
        ensures { IfOk result (λ r. r ≡ leaf (sign.Null kind)) }
    {
        let tree = boxed(alloc, Expr::Null(kind))?;
        whole(alloc, Sort::Of(kind), tree)
    }

    /// The text literal of this number among those of its program.
    pub fn text(alloc: Global, number: u16) -> Result<Found, Memory>
        ensures { IfOk result (λ r. r ≡ leaf (sign.Text number)) }
    {
        let tree = boxed(alloc, Expr::Text(number))?;
        whole(alloc, Sort::Of(Kind::Text), tree)
    }

    /// `this` in a method of a class.
    pub fn this(alloc: Global, class: TypeNo) -> Result<Found, Memory>
        ensures { IfOk result (λ r. r ≡ leaf (sign.This class)) }
    {
        let tree = boxed(alloc, Expr::This(class))?;
        whole(alloc, Sort::Of(Kind::Object(class)), tree)
    }

    /// A parameter or local, by its kind and its number in the frame.
    pub fn local(alloc: Global, kind: Kind, number: u8) -> Result<Found, Memory>
        ensures { IfOk result (λ r. r ≡ leaf (sign.Local kind number)) }
    {
        held(alloc, None, Sort::Of(kind), Open::Local(kind, number))
    }

    /// A static field of a primitive type, by its number.
    pub fn static_field(alloc: Global, prim: Prim, number: u16) -> Result<Found, Memory>
        ensures { IfOk result (λ r. r ≡ leaf (sign.Static prim number)) }
    {
        held(
            alloc,
            None,
            Sort::Of(read_kind(prim)),
            Open::Static(prim, number),
        )
    }

    /// A static Str or object, by its number.
    pub fn static_part(alloc: Global, kind: Kind, number: u16) -> Result<Found, Memory>
        ensures { IfOk result (λ r. r ≡ leaf (sign.StaticPart kind number)) }
    {
        let tree = boxed(alloc, Expr::StaticPart(kind, number))?;
        whole(alloc, Sort::Of(kind), tree)
    }

    /// A static array of so many elements, by its number.
    pub fn static_array(alloc: Global, prim: Prim, count: u16, number: u16) -> Result<Found, Memory>
        ensures { IfOk result (λ r. r ≡ leaf (sign.StaticArray prim count number)) }
    {
        held(
            alloc,
            None,
            Sort::Array(prim),
            Open::StaticArray(prim, count, number),
        )
    }

    /// The moment of the last tick.
    pub fn ticks(alloc: Global) -> Result<Found, Memory>
        ensures { IfOk result (λ r. r ≡ leaf sign.Ticks) }
    {
        let tree = boxed(alloc, Expr::Ticks)?;
        whole(alloc, Sort::Of(Kind::Long), tree)
    }
}

// ---- what is found

impl Found {
    /// What it comes to.
    pub fn sort(&self) -> Sort
        ensures { result ≡ sort_of self.now }
    {
        self.made.sort
    }

    /// The kind of a value; void where it is none.
    #[tactic(auto, using(crate::proofs::Values::kind_is))]
    pub fn kind(&self) -> Kind
        ensures { result ≡ sorts.term_kind self.now }
    {
        kind_in(self.made.sort)
    }

    /// Whether it may be assigned to.
    pub fn is_place(&self) -> bool
        ensures { result ≡ sorts.is_place self.now }
    {
        match &self.made.tree {
            Open::Local(_, _) | Open::Static(_, _) | Open::StaticElement(_, _, _, _) => true,
            Open::Field(_, _, _) | Open::Element(_, _, _, _, _) => true,
            Open::Value(_) | Open::Nothing | Open::Array(_, _, _, _) | Open::StaticArray(_, _, _) =>
                false,
            Open::Buf(_, _) | Open::Bytes(_, _) => false,
        }
    }

    /// The expression.
    #[tactic(auto, using(crate::proofs::Values::value_behind))]
    pub fn into_expr(self, alloc: Global) -> Result<Box<Expr>, Memory>
        requires { is_value self ≡ true }
        ensures term { IfOk result (λ e. term_of e.value ≡ self) }
        ensures flat { IfOk result (λ e. IsFlat e.value) }
    {
        let made = opened(self);
        let e = closed(alloc, made.tree)?;
        put_behind(alloc, made.before, e)
    }
}

impl Found {
    /// What is evaluated of it where its value is not used; nothing, where it names only an array or a Buf without a
    /// receiver.
    #[tactic(auto, using(crate::proofs::Discarded::discarded_behind))]
    pub fn into_evaluated(self, alloc: Global) -> Result<Option<Box<Expr>>, Memory>
        ensures term { IfOk result (λ e. optional_boxed e ≡ forms.discarded self) }
        ensures flat { IfOk result (λ e. IsFlatBox e) }
    {
        let made = opened(self);
        let part = evaluated_part(alloc, made.tree)?;
        evaluated(alloc, made.before, part)
    }
}

// ---- operators

impl Found {
    /// A unary operator on a value.
    pub fn unary(alloc: Global, op: Unary, operand: Found) -> Result<Found, Memory>
        requires { is_value operand ≡ true }
        ensures { IfOk result (λ r. r ≡ Node (sign.Unary op) operand Absent) }
    {
        let operand = operand.into_expr(alloc)?;
        let tree = boxed(alloc, Expr::Unary(op, operand))?;
        whole(alloc, Sort::Of(unary_kind(op)), tree)
    }

    /// A binary operator on two values, the left of which is evaluated first.
    pub fn binary(alloc: Global, op: Binary, left: Found, right: Found) -> Result<Found, Memory>
        requires left_is_value { is_value left ≡ true }
        requires right_is_value { is_value right ≡ true }
        ensures { IfOk result (λ r. r ≡ Node (sign.Binary op) left right) }
    {
        let left = left.into_expr(alloc)?;
        let right = right.into_expr(alloc)?;
        let link = binary_link(alloc, op, right)?;
        let tree = with_link(alloc, left, link)?;
        whole(alloc, Sort::Of(binary_kind(op)), tree)
    }

    /// `&&`: the right value is evaluated where the left one is true.
    pub fn and(alloc: Global, left: Found, right: Found) -> Result<Found, Memory>
        requires left_is_value { is_value left ≡ true }
        requires right_is_value { is_value right ≡ true }
        ensures { IfOk result (λ r. r ≡ Node sign.And left right) }
    {
        let left = left.into_expr(alloc)?;
        let right = right.into_expr(alloc)?;
        let link = and_link(alloc, right)?;
        let tree = with_link(alloc, left, link)?;
        whole(alloc, Sort::Of(Kind::Bool), tree)
    }

    /// `||`: the right value is evaluated where the left one is false.
    pub fn or(alloc: Global, left: Found, right: Found) -> Result<Found, Memory>
        requires left_is_value { is_value left ≡ true }
        requires right_is_value { is_value right ≡ true }
        ensures { IfOk result (λ r. r ≡ Node sign.Or left right) }
    {
        let left = left.into_expr(alloc)?;
        let right = right.into_expr(alloc)?;
        let link = or_link(alloc, right)?;
        let tree = with_link(alloc, left, link)?;
        whole(alloc, Sort::Of(Kind::Bool), tree)
    }

    /// `? :`.
    pub fn choose(alloc: Global, test: Found, left: Found, right: Found) -> Result<Found, Memory>
        requires test_is_value { is_value test ≡ true }
        requires left_is_value { is_value left ≡ true }
        requires right_is_value { is_value right ≡ true }
        ensures { IfOk result (λ r. r ≡ Node sign.Choose test (Node sign.Pair left right)) }
    {
        let kind = left.kind();
        let test = test.into_expr(alloc)?;
        let left = left.into_expr(alloc)?;
        let right = right.into_expr(alloc)?;
        let tree = boxed(alloc, Expr::Choose(test, left, right))?;
        whole(alloc, Sort::Of(kind), tree)
    }
}
