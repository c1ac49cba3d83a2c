//! What the types of locals and parameters stand for.
ghost use Rattle.std.specs.Prelude.{◌≡◌};
ghost use Rattle.sed_body_rules.specs.LocalTypes as types;

use crate::local::TypeMeaning;
use sed_names::Lookup;
use sed_typed::{Kind, TypeNo};
use sed_units::{Base, Ident, Size, TypeRef};
use sed_value::Prim;

fn without_size(kind: Kind, size: &Option<Size>) -> TypeMeaning
    ensures { result ≡ types.without_size kind size.now }
{
    match size {
        None => TypeMeaning::Is(kind),
        Some(_) => TypeMeaning::Outside,
    }
}

fn primitive_type(prim: Prim, size: &Option<Size>) -> TypeMeaning
    ensures { result ≡ types.primitive_type prim size.now }
{
    match prim {
        Prim::Bool => without_size(Kind::Bool, size),
        Prim::Int => without_size(Kind::Int, size),
        Prim::Long => without_size(Kind::Long, size),
        Prim::Byte | Prim::Short => TypeMeaning::Outside,
    }
}

fn class_type(at: usize, class: Option<TypeNo>, size: &Option<Size>) -> TypeMeaning
    ensures { result ≡ types.class_type at class size.now }
{
    match class {
        Some(class) => without_size(Kind::Object(class), size),
        None => TypeMeaning::NoClass(at),
    }
}

fn plain_type<N: Lookup>(names: &N, at: usize, name: &[u8], size: &Option<Size>) -> TypeMeaning
    ensures { result ≡ types.plain_type (N.names names.now) at name.now size.now }
{
    if name == b"Str".as_slice() {
        without_size(Kind::Text, size)
    } else if name == b"Buf".as_slice() {
        TypeMeaning::Outside
    } else {
        class_type(at, names.class(name), size)
    }
}

fn named_type<N: Lookup>(
    names: &N,
    at: usize,
    kit: &Option<Ident>,
    name: &[u8],
    size: &Option<Size>,
) -> TypeMeaning
    ensures { result ≡ types.named_type (N.names names.now) at kit.now name.now size.now }
{
    match kit {
        None => plain_type(names, at, name, size),
        Some(kit) => class_type(at, names.class_in(kit.bytes.as_slice(), name), size),
    }
}

/// What a type stands for.
pub fn type_meaning<N: Lookup>(names: &N, kind: &TypeRef) -> TypeMeaning
    ensures { result ≡ types.type_meaning (N.names names.now) kind.now }
{
    match &kind.base {
        Base::Primitive(prim) => primitive_type(*prim, &kind.size),
        Base::Void => TypeMeaning::Outside,
        Base::Named(name) => {
            named_type(
                names,
                name.at,
                &name.kit,
                name.id.bytes.as_slice(),
                &kind.size,
            )
        }
    }
}

/// The kind of a local of this type; none where the type has no meaning.
pub fn local_kind<N: Lookup>(names: &N, kind: &TypeRef) -> Option<Kind>
    ensures { result ≡ types.local_kind (N.names names.now) kind.now }
{
    match type_meaning(names, kind) {
        TypeMeaning::Is(kind) => Some(kind),
        TypeMeaning::NoClass(_) | TypeMeaning::Outside => None,
    }
}
