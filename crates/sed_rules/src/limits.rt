//! Limits on classes and members, and on the length of names.
ghost use Rattle.std.specs.Prelude.{◌≡◌};
ghost use Rattle.sed_faults.specs.Faults.{least};
ghost use Rattle.sed_classes.specs.Entries.{declaration_of};
ghost use Rattle.sed_classes.specs.LimitRules as rules;
ghost use Rattle.sed_classes.specs.Members.{form_value};

use sed_classes::Entry;
use sed_faults::{Fault, broken_if, joined};
use sed_units::{
    Base, Class, Facet, Ident, Init, InitValue, Member, MemberForm, Param, TypeName, TypeRef,
};

// How many types a kit has at most.
const MOST_TYPES: usize = 64;

// How many parameters a method has at most.
const MOST_PARAMS: usize = 8;

// How many locals a method has at most, its parameters among them.
const MOST_LOCALS: usize = 64;

// How many characters an identifier has at most.
const LONGEST_NAME: usize = 31;

/// Where a kit has one type too many.
pub fn too_many_types(entry: &Entry<'_>) -> Option<Fault>
    ensures { result ≡ least (rules.too_many_types (declaration_of entry.now)) }
{
    broken_if(entry.number == MOST_TYPES, 22, entry.class.at)
}

/// Where a method has one parameter or one local too many, by the parameter's number.
pub fn too_many_params(number: usize, param: &Param) -> Option<Fault>
    ensures { result ≡ least (rules.too_many_params number param.now) }
{
    broken_if(number == MOST_PARAMS || number == MOST_LOCALS, 22, param.at)
}

// ---- names

/// Where an identifier is too long.
pub fn too_long_name(id: &Ident) -> Option<Fault>
    ensures { result ≡ least (rules.too_long_name id.now) }
{
    broken_if(id.bytes.len() > LONGEST_NAME, 22, id.at)
}

fn too_long_kit(kit: &Option<Ident>) -> Option<Fault>
    ensures { result ≡ least (rules.too_long_kit kit.now) }
{
    match kit {
        Some(id) => too_long_name(id),
        None => None,
    }
}

fn too_long_in_name(name: &TypeName) -> Option<Fault>
    ensures { result ≡ least (rules.too_long_in_name name.now) }
{
    joined(too_long_kit(&name.kit), too_long_name(&name.id))
}

fn too_long_in_base(base: &Option<TypeName>) -> Option<Fault>
    ensures { result ≡ least (rules.too_long_in_base base.now) }
{
    match base {
        Some(name) => too_long_in_name(name),
        None => None,
    }
}

/// Where a name in a type is too long.
pub fn too_long_in_type(kind: &TypeRef) -> Option<Fault>
    ensures { result ≡ least (rules.too_long_in_type kind.now) }
{
    match &kind.base {
        Base::Named(name) => too_long_in_name(name),
        Base::Primitive(_) => None,
        Base::Void => None,
    }
}

fn too_long_in_facets(facets: &[Facet]) -> Option<Fault>
    ensures { result ≡ least (rules.too_long_in_facets facets.now) }
{
    let mut first = None;
    for facet in facets {
        first = joined(first, too_long_name(&facet.name));
    }
    first
}

fn too_long_in_init(init: &Option<Init>) -> Option<Fault>
    ensures { result ≡ least (rules.too_long_in_init init.now) }
{
    match init {
        Some(init) => match &init.value {
            InitValue::Name(id) => too_long_name(id),
            InitValue::Literal(_) => None,
            InitValue::Minus(_) => None,
        },
        None => None,
    }
}

/// Where a name of a class itself is too long, without its members.
pub fn too_long_in_class(class: &Class) -> Option<Fault>
    ensures { result ≡ least (rules.too_long_in_class class.now) }
{
    let facets = too_long_in_facets(class.facets.as_slice());
    joined(
        joined(facets, too_long_name(&class.name)),
        too_long_in_base(&class.base),
    )
}

fn too_long_in_value(form: &MemberForm) -> Option<Fault>
    ensures { result ≡ least (rules.too_long_in_init (form_value form.now)) }
{
    match form {
        MemberForm::Field(init) => too_long_in_init(init),
        MemberForm::Method(_, _) => None,
    }
}

/// Where a name of a member is too long, without its parameters and its body.
pub fn too_long_in_member(member: &Member) -> Option<Fault>
    ensures { result ≡ least (rules.too_long_in_member member.now) }
{
    let facets = too_long_in_facets(member.facets.as_slice());
    let named = joined(
        joined(facets, too_long_in_type(&member.kind)),
        too_long_name(&member.name),
    );
    joined(named, too_long_in_value(&member.form))
}

/// Where a name of a parameter is too long.
pub fn too_long_in_param(param: &Param) -> Option<Fault>
    ensures { result ≡ least (rules.too_long_in_param param.now) }
{
    joined(too_long_in_type(&param.kind), too_long_name(&param.name))
}
