// Types, parameters, members and classes, made of their parts, each in a place of its own.
ghost use Rattle.std.specs.Prelude.{◌≡◌};
ghost use Rattle.sed_trees.specs.Makes.{Makes};
ghost use Rattle.sed_units.specs.declared.classes.Class.{Class as TheClass};
ghost use Rattle.sed_units.specs.declared.classes.Member.{Member as TheMember};
ghost use Rattle.sed_units.specs.declared.classes.MemberForm.TheVariants as form;
ghost use Rattle.sed_units.specs.declared.leaves.Param.{Param as TheParam};
ghost use Rattle.sed_units.specs.declared.leaves.TypeRef.{TypeRef as TheTypeRef};

use crate::boxed::{Boxed, unboxed};
use sed_units::{
    Base, Class, Facet, Ident, Init, Member, MemberForm, Modifier, Param, Size, Stmt, TypeName,
    TypeRef,
};
use sed_value::{Halt, Items};
use std::alloc::Global;

/// A type of its base and its size, if it has one.
pub fn type_ref(
    alloc: Global,
    at: usize,
    base: Boxed<Base>,
    size: Option<Boxed<Size>>,
) -> Result<Boxed<TypeRef>, Halt>
    ensures { Makes result (let t : TheTypeRef = record { at = at; base = base; size = size } in t) }
{
    Boxed::new(
        alloc,
        TypeRef {
            at,
            base: base.into_inner(),
            size: unboxed(size),
        },
    )
}

/// A parameter.
pub fn param(
    alloc: Global,
    at: usize,
    kind: Boxed<TypeRef>,
    name: Ident,
) -> Result<Boxed<Param>, Halt>
    ensures { Makes result (let p : TheParam = record { at = at; kind = kind; name = name } in p) }
{
    Boxed::new(
        alloc,
        Param {
            at,
            kind: kind.into_inner(),
            name,
        },
    )
}

/// What makes a member a field, with its initial value, if it has one.
pub fn field(alloc: Global, value: Option<Boxed<Init>>) -> Result<Boxed<MemberForm>, Halt>
    ensures { Makes result (form.Field value) }
{
    Boxed::new(alloc, MemberForm::Field(unboxed(value)))
}

/// What makes a member a method, with its body, if it has one.
pub fn method(
    alloc: Global,
    params: Items<Param>,
    body: Option<Items<Stmt>>,
) -> Result<Boxed<MemberForm>, Halt>
    ensures { Makes result (form.Method params body) }
{
    Boxed::new(alloc, MemberForm::Method(params, body))
}

/// A member of a class.
pub fn member(
    alloc: Global,
    at: usize,
    facets: Items<Facet>,
    modifiers: Items<Modifier>,
    kind: Boxed<TypeRef>,
    name: Ident,
    form: Boxed<MemberForm>,
) -> Result<Boxed<Member>, Halt>
    ensures { Makes result (let m : TheMember = record {
      at = at;
      facets = facets;
      modifiers = modifiers;
      kind = kind;
      name = name;
      form = form;
    } in m) }
{
    Boxed::new(
        alloc,
        Member {
            at,
            facets,
            modifiers,
            kind: kind.into_inner(),
            name,
            form: form.into_inner(),
        },
    )
}

/// A class, with the name of its base, if it has one.
pub fn class(
    alloc: Global,
    at: usize,
    facets: Items<Facet>,
    modifiers: Items<Modifier>,
    name: Ident,
    base: Option<Boxed<TypeName>>,
    members: Items<Member>,
) -> Result<Boxed<Class>, Halt>
    ensures { Makes result (let c : TheClass = record {
      at = at;
      facets = facets;
      modifiers = modifiers;
      name = name;
      base = base;
      members = members;
    } in c) }
{
    Boxed::new(
        alloc,
        Class {
            at,
            facets,
            modifiers,
            name,
            base: unboxed(base),
            members,
        },
    )
}
