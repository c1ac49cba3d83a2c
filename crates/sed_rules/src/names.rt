//! Rules on names and bases.
ghost use Rattle.std.specs.Prelude.{◌≡◌};
ghost use Rattle.sed_typed.specs.TypedSchema.{is_reserved};
ghost use Rattle.sed_faults.specs.Faults.{least};
ghost use Rattle.sed_classes.specs.Entries.{declaration_of};
ghost use Rattle.sed_classes.specs.NameRules as rules;

use sed_classes::{Based, Classes, Entry, is_buffer_name, is_text_name};
use sed_faults::{Fault, broken_if};
use sed_units::{Base, TypeName, TypeRef};

// ---- 1: a type name has a class, or is `Str` or `Buf`

fn is_without_class(classes: &Classes<'_>, kit: usize, name: &TypeName) -> bool
    ensures { result ≡ rules.is_without_class classes.now kit name.now }
{
    !is_text_name(name) && !is_buffer_name(name) && classes.class_of_name(kit, name).is_none()
}

fn name_without_class(classes: &Classes<'_>, kit: usize, name: &TypeName) -> Option<Fault>
    ensures { result ≡ least (rules.name_without_class classes.now kit name.now) }
{
    broken_if(is_without_class(classes, kit, name), 1, name.at)
}

/// Where the name behind `extends` has no class.
pub fn base_without_class(
    classes: &Classes<'_>,
    kit: usize,
    base: &Option<TypeName>,
) -> Option<Fault>
    ensures { result ≡ least (rules.base_without_class classes.now kit base.now) }
{
    match base {
        Some(name) => name_without_class(classes, kit, name),
        None => None,
    }
}

/// Where the name in the type of a member, a parameter or a local has no class.
pub fn type_without_class(classes: &Classes<'_>, kit: usize, kind: &TypeRef) -> Option<Fault>
    ensures { result ≡ least (rules.type_without_class classes.now kit kind.now) }
{
    match &kind.base {
        Base::Named(name) => name_without_class(classes, kit, name),
        Base::Primitive(_) => None,
        Base::Void => None,
    }
}

// ---- 2: a class has a name of its own in its kit, and none of the reserved ones

fn is_reserved(name: &[u8]) -> bool
    ensures { result ≡ is_reserved name.now }
{
    name == b"Str".as_slice() || name == b"Buf".as_slice() || name == b"Sys".as_slice()
}

/// Where the class at a place has the name of an earlier class of its kit, or a reserved one.
pub fn class_name_not_free(classes: &Classes<'_>, class: usize, entry: &Entry<'_>) -> Option<Fault>
    ensures { result ≡ least (rules.class_name_not_free classes.now class (declaration_of entry.now)) }
{
    let name = entry.class.name.bytes.as_slice();
    let taken = is_reserved(name) || classes.is_named_before(name, entry.kit, class);
    broken_if(taken, 2, entry.class.at)
}

// ---- 3: no base leads back to its class, or is `App`, `Str` or `Buf`

// The place of `App`.
const APP: usize = 3;

fn is_app(place: Option<usize>) -> bool
    ensures { result ≡ rules.is_app place }
{
    match place {
        Some(base) => base == APP,
        None => false,
    }
}

fn is_no_base(based: &Based<'_>, class: usize, kit: usize, name: &TypeName) -> bool
    ensures { result ≡ rules.is_no_base based.now class kit name.now }
{
    is_text_name(name)
        || is_buffer_name(name)
        || is_app(based.classes().base_named(kit, name))
        || based.leads_back(class)
}

/// Where what stands behind `extends` of the class at a place is no base for it.
pub fn base_not_fit(based: &Based<'_>, class: usize, entry: &Entry<'_>) -> Option<Fault>
    ensures { result ≡ least (rules.base_not_fit based.now class (declaration_of entry.now)) }
{
    match &entry.class.base {
        Some(name) => broken_if(is_no_base(based, class, entry.kit, name), 3, name.at),
        None => None,
    }
}
