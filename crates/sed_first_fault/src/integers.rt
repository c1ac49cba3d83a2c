//! Integers above the bounds of their forms, where no expression is judged.
ghost use Rattle.std.specs.Prelude.{◌≡◌};
ghost use Rattle.std.specs.List.{flat_map};
ghost use Rattle.sed_faults.specs.Faults.{least};
ghost use Rattle.sed_classes.specs.Members.{form_params, form_value};
ghost use Rattle.sed_first_fault.specs.Integers as rules;

use sed_classes::params_of;
use sed_faults::{Fault, broken_if, joined};
use sed_names::integer_of;
use sed_units::{
    Class, Facet, Init, InitValue, Literal, LiteralKind, Member, MemberForm, Param, Size, TypeRef,
};

fn is_above_bound(literal: &Literal) -> bool
    ensures { result ≡ rules.is_above_bound literal.now.kind literal.now.bytes }
{
    match literal.kind {
        LiteralKind::Integer => integer_of(literal.bytes.as_slice()).is_none(),
        LiteralKind::Character => false,
        LiteralKind::Text => false,
        LiteralKind::True => false,
        LiteralKind::False => false,
        LiteralKind::Null => false,
    }
}

fn too_large(literal: &Literal) -> Option<Fault>
    ensures { result ≡ least (rules.too_large literal.now) }
{
    broken_if(is_above_bound(literal), 21, literal.at)
}

fn too_large_value(value: &Option<Literal>) -> Option<Fault>
    ensures { result ≡ least (rules.too_large_value value.now) }
{
    match value {
        Some(literal) => too_large(literal),
        None => None,
    }
}

fn too_large_in_facets(facets: &[Facet]) -> Option<Fault>
    ensures { result ≡ least (rules.too_large_in_facets facets.now) }
{
    let mut first = None;
    for facet in facets {
        first = joined(first, too_large_value(&facet.value));
    }
    first
}

fn too_large_size(size: &Option<Size>) -> Option<Fault>
    ensures { result ≡ least (rules.too_large_size size.now) }
{
    match size {
        Some(Size::Parens(literal)) => too_large(literal),
        Some(Size::Brackets(literal)) => too_large(literal),
        None => None,
    }
}

/// Where the size of a type is above the bound of its form.
pub fn too_large_in_type(kind: &TypeRef) -> Option<Fault>
    ensures { result ≡ least (rules.too_large_in_type kind.now) }
{
    too_large_size(&kind.size)
}

fn too_large_in_init(init: &Option<Init>) -> Option<Fault>
    ensures { result ≡ least (rules.too_large_in_init init.now) }
{
    match init {
        Some(init) => match &init.value {
            InitValue::Literal(literal) => too_large(literal),
            InitValue::Minus(literal) => too_large(literal),
            InitValue::Name(_) => None,
        },
        None => None,
    }
}

fn too_large_in_form(form: &MemberForm) -> Option<Fault>
    ensures { result ≡ least (rules.too_large_in_init (form_value form.now)) }
{
    match form {
        MemberForm::Field(init) => too_large_in_init(init),
        MemberForm::Method(_, _) => None,
    }
}

fn too_large_in_params(params: &[Param]) -> Option<Fault>
    ensures { result ≡ least (rules.too_large_in_params params.now) }
{
    let mut first = None;
    for param in params {
        first = joined(first, too_large_in_type(&param.kind));
    }
    first
}

fn too_large_in_member(member: &Member) -> Option<Fault>
    ensures { result ≡ least (rules.too_large_in_member member.now) }
{
    let facets = too_large_in_facets(member.facets.as_slice());
    let kind = joined(facets, too_large_in_type(&member.kind));
    let value = joined(kind, too_large_in_form(&member.form));
    joined(value, too_large_in_params(params_of(member)))
}

fn too_large_in_members(members: &[Member]) -> Option<Fault>
    ensures { result ≡ least (flat_map rules.too_large_in_member members.now) }
{
    let mut first = None;
    for member in members {
        first = joined(first, too_large_in_member(member));
    }
    first
}

/// Where an integer that a class declares is above the bound of its form first: in facets, types and initial values.
pub fn too_large_in_class(class: &Class) -> Option<Fault>
    ensures { result ≡ least (rules.too_large_in_class class.now) }
{
    let facets = too_large_in_facets(class.facets.as_slice());
    joined(facets, too_large_in_members(class.members.as_slice()))
}
