// Members of objects, of typed expressions in the making, and static members through an instance.
ghost use Rattle.std.specs.Prelude.{◌≡◌, IfOk, true};
ghost use Rattle.sed_terms.specs.declared.sign.Sign.TheVariants as sign;
ghost use Rattle.sed_typed.specs.Flat.{IsFlat};
ghost use Rattle.sed_terms.specs.FlatOpen.{IsFlatOpen};
ghost use Rattle.sed_terms.specs.Forms as forms;
ghost use Rattle.sed_terms.specs.OpenTerm.{open_term, is_open, behind};
ghost use Rattle.sed_terms.specs.Seen.{term_of};
ghost use Rattle.sed_terms.specs.Sorts.{is_place, is_value, sort_of};
ghost use Rattle.sed_terms.specs.Term.{Absent, Node};

use super::{Found, held, opened, whole};
use crate::boxes::boxed;
use crate::kinds::read_kind;
use crate::links::with_link;
use crate::open::Open;
use crate::sort::Sort;
use sed_typed::{Expr, Kind, Link};
use sed_value::{Memory, Prim};
use std::alloc::Global;

// ---- members of an object

impl Found {
    /// A primitive field.
    pub fn field(alloc: Global, object: Found, prim: Prim, number: u16) -> Result<Found, Memory>
        requires { is_value object ≡ true }
        ensures { IfOk result (λ r. r ≡ Node (sign.Field prim number) object Absent) }
    {
        let object = object.into_expr(alloc)?;
        held(
            alloc,
            None,
            Sort::Of(read_kind(prim)),
            Open::Field(prim, object, number),
        )
    }

    /// An inline object or a Str.
    pub fn part(alloc: Global, object: Found, kind: Kind, number: u16) -> Result<Found, Memory>
        requires { is_value object ≡ true }
        ensures { IfOk result (λ r. r ≡ Node (sign.Part kind number) object Absent) }
    {
        let object = object.into_expr(alloc)?;
        let link = boxed(alloc, Link::Part(kind, number))?;
        let tree = with_link(alloc, object, link)?;
        whole(alloc, Sort::Of(kind), tree)
    }

    /// An array of so many elements.
    pub fn array(
        alloc: Global,
        object: Found,
        prim: Prim,
        count: u16,
        number: u16,
    ) -> Result<Found, Memory>
        requires { is_value object ≡ true }
        ensures { IfOk result (λ r. r ≡ Node (sign.Array prim count number) object Absent) }
    {
        let object = object.into_expr(alloc)?;
        held(
            alloc,
            None,
            Sort::Array(prim),
            Open::Array(prim, count, object, number),
        )
    }

    /// The Buf of an object, by its number among the fields of the class.
    pub fn buf(alloc: Global, object: Found, number: u16) -> Result<Found, Memory>
        requires { is_value object ≡ true }
        ensures { IfOk result (λ r. r ≡ Node (sign.Buf number) object Absent) }
    {
        let object = object.into_expr(alloc)?;
        held(alloc, None, Sort::Buf, Open::Buf(object, number))
    }
}

// ---- through an instance

impl Found {
    /// A static member through an instance, which is evaluated before it.
    pub fn after(alloc: Global, instance: Found, member: Found) -> Result<Found, Memory>
        requires instance_is_value { is_value instance ≡ true }
        requires member_is_alone { forms.is_alone member ≡ true }
        ensures { IfOk result (λ r. r ≡ Node sign.After instance member) }
    {
        let instance = instance.into_expr(alloc)?;
        let member = opened(member);
        put_after(alloc, instance, member.sort, member.before, member.tree)
    }
}

fn put_after(
    alloc: Global,
    instance: Box<Expr>,
    sort: Sort,
    before: Option<Box<Expr>>,
    tree: Open,
) -> Result<Found, Memory>
    requires sort_is { sort ≡ sort_of (behind before (open_term tree)) }
    requires place_is { is_open tree ≡ is_place (behind before (open_term tree)) }
    requires instance_is_flat { IsFlat instance.value }
    requires tree_is_flat { IsFlatOpen tree }
    ensures { IfOk result (λ r. r ≡ Node sign.After (term_of instance.value) (behind before (open_term tree))) }
{
    match before {
        None => held(alloc, Some(instance), sort, tree),
        Some(_) => Err(Memory),
    }
}
