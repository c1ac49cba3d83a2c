//! Rules on members and on what they override.
ghost use Rattle.std.specs.Prelude.{◌≡◌, ◌==◌, Some};
ghost use Rattle.std.specs.List.{list_all, list_any, zip};
ghost use Rattle.sed_faults.specs.Faults.{least};
ghost use Rattle.sed_classes.specs.Declarations.{class_at};
ghost use Rattle.sed_classes.specs.Entries.{declaration_of};
ghost use Rattle.sed_classes.specs.Bases as ancestry;
ghost use Rattle.sed_classes.specs.MemberRules as rules;

use sed_classes::{
    Based, Classes, Entry, SourceType, has_body, has_name, is_abstract_class, is_action,
    is_argument_type, is_method, is_open, is_property, is_property_type, is_same_type, is_unknown,
    is_void, overrides, params_of, says_abstract, says_virtual,
};
use sed_faults::{Fault, broken_if};
use sed_units::{Class, Member, Param};
use sed_value::is_among;

// The place of `Virtual`.
const VIRTUAL: usize = 1;

// The place of `Component`.
const COMPONENT: usize = 2;

// ---- 4: a member has a name of its own in its class

/// Where a member has the name of an earlier one of its class, which stands at the place, by its number among them.
pub fn name_repeated(
    classes: &Classes<'_>,
    class: usize,
    entry: &Entry<'_>,
    number: usize,
    member: &Member,
) -> Option<Fault>
    requires { class_at classes.now class ≡ Some (declaration_of entry.now) }
    ensures { result ≡ least (rules.name_repeated (declaration_of entry.now) number member.now) }
{
    let taken = classes.declares_before(member.name.bytes.as_slice(), class, number);
    broken_if(taken, 4, member.at)
}

// ---- 5: a member that has the name of an inherited one says `override`

/// Where a member of a class with these bases has an inherited name and doesn't say `override`.
pub fn inherited_name_taken(
    classes: &Classes<'_>,
    class: usize,
    bases: &[usize],
    member: &Member,
) -> Option<Fault>
    requires { bases.now ≡ ancestry.bases classes.now class }
    ensures { result ≡ least (rules.inherited_name_taken classes.now class member.now) }
{
    let name = member.name.bytes.as_slice();
    broken_if(
        !overrides(member) && classes.any_declares(bases, name),
        5,
        member.at,
    )
}

// ---- 6: what says `override` has something to override

fn same_truth(a: bool, b: bool) -> bool
    ensures { result ≡ rules.same_truth a b }
{
    if a { b } else { !b }
}

fn is_same_param(
    classes: &Classes<'_>,
    kit: usize,
    param: &Param,
    other: usize,
    inherited: &Param,
) -> bool
    ensures { result ≡ rules.is_same_param classes.now kit other (param.now, inherited.now) }
{
    is_same_type(
        classes.type_of(kit, &param.kind),
        classes.type_of(other, &inherited.kind),
    )
}

// Whether as many as both rows have are equal one by one.
fn are_same_params(
    classes: &Classes<'_>,
    kit: usize,
    params: &[Param],
    other: usize,
    others: &[Param],
) -> bool
    ensures { result ≡ list_all (rules.is_same_param classes.now kit other) (zip params.now others.now) }
{
    params.iter().zip(others.iter()).all(|(param, inherited)| is_same_param(
        classes, kit, param, other, inherited,
    ))
}

fn same_params(
    classes: &Classes<'_>,
    kit: usize,
    params: &[Param],
    other: usize,
    others: &[Param],
) -> bool
    ensures { result ≡ rules.same_params classes.now kit params.now other others.now }
{
    params.len() == others.len() && are_same_params(classes, kit, params, other, others)
}

fn fits(
    classes: &Classes<'_>,
    kit: usize,
    member: &Member,
    other: usize,
    inherited: &Member,
) -> bool
    ensures { result ≡ rules.fits classes.now kit member.now other inherited.now }
{
    is_open(inherited)
        && has_name(inherited, member.name.bytes.as_slice())
        && same_truth(is_action(member), is_action(inherited))
        && is_same_type(
            classes.type_of(kit, &member.kind),
            classes.type_of(other, &inherited.kind),
        )
        && same_params(classes, kit, params_of(member), other, params_of(inherited))
}

fn fits_one_of(classes: &Classes<'_>, kit: usize, member: &Member, class: usize) -> bool
    ensures { result ≡ rules.fits_one_of classes.now kit member.now class }
{
    let other = classes.kit_of(class);
    fits_any(classes, kit, member, other, classes.members(class))
}

fn fits_any(
    classes: &Classes<'_>,
    kit: usize,
    member: &Member,
    other: usize,
    all: &[Member],
) -> bool
    ensures { result ≡ list_any (rules.fits classes.now kit member.now other) all.now }
{
    all.iter()
        .any(|inherited| fits(classes, kit, member, other, inherited))
}

fn fits_in_bases(classes: &Classes<'_>, kit: usize, member: &Member, bases: &[usize]) -> bool
    ensures { result ≡ list_any (rules.fits_one_of classes.now kit member.now) bases.now }
{
    bases
        .iter()
        .any(|base| fits_one_of(classes, kit, member, *base))
}

/// Where a member of a class with these bases says `override` and there is nothing to override.
pub fn overrides_nothing(
    classes: &Classes<'_>,
    class: usize,
    kit: usize,
    bases: &[usize],
    member: &Member,
) -> Option<Fault>
    requires { bases.now ≡ ancestry.bases classes.now class }
    ensures { result ≡ least (rules.overrides_nothing classes.now class kit member.now) }
{
    let fits = is_method(member) && fits_in_bases(classes, kit, member, bases);
    broken_if(overrides(member) && !fits, 6, member.at)
}

// ---- 7: virtual and abstract methods

fn is_virtual_elsewhere(based: &Based<'_>, class: usize, lineage: &[usize], member: &Member) -> bool
    requires { lineage.now ≡ ancestry.lineage based.now class }
    ensures { result ≡ rules.is_virtual_elsewhere based.now class member.now }
{
    (says_virtual(member) || says_abstract(member) || overrides(member))
        && !is_among(lineage, VIRTUAL)
}

fn is_abstract_elsewhere(class: &Class, member: &Member) -> bool
    ensures { result ≡ rules.is_abstract_elsewhere class.now member.now }
{
    says_abstract(member) && !is_abstract_class(class)
}

fn has_wrong_body(member: &Member) -> bool
    ensures { result ≡ rules.has_wrong_body member.now }
{
    same_truth(has_body(member), says_abstract(member))
}

/// Where a method of a class with this lineage says what it may not say there, or has a wrong body.
pub fn method_not_runnable(
    based: &Based<'_>,
    class: usize,
    lineage: &[usize],
    entry: &Entry<'_>,
    member: &Member,
) -> Option<Fault>
    requires { lineage.now ≡ ancestry.lineage based.now class }
    ensures { result ≡ least (rules.method_not_runnable based.now class (declaration_of entry.now) member.now) }
{
    let wrong = is_virtual_elsewhere(based, class, lineage, member)
        || is_abstract_elsewhere(entry.class, member)
        || has_wrong_body(member);
    broken_if(is_method(member) && wrong, 7, member.at)
}

fn is_abstract_method(member: &Member) -> bool
    ensures { result ≡ rules.is_abstract_method member.now }
{
    is_method(member) && says_abstract(member)
}

fn is_named_abstract(
    classes: &Classes<'_>,
    class: usize,
    lineage: &[usize],
    member: &Member,
) -> bool
    requires { lineage.now ≡ ancestry.lineage classes.now class }
    ensures { result ≡ rules.is_named_abstract classes.now class member.now }
{
    match classes.nearest_among(member.name.bytes.as_slice(), lineage) {
        Some(found) => is_abstract_method(found.member),
        None => false,
    }
}

fn any_named_abstract(
    classes: &Classes<'_>,
    class: usize,
    lineage: &[usize],
    all: &[Member],
) -> bool
    requires { lineage.now ≡ ancestry.lineage classes.now class }
    ensures { result ≡ list_any (rules.is_named_abstract classes.now class) all.now }
{
    all.iter().any(|member| is_named_abstract(classes, class, lineage, member))
}

fn any_abstract(all: &[Member]) -> bool
    ensures { result ≡ list_any rules.is_abstract_method all.now }
{
    all.iter().any(|member| is_abstract_method(member))
}

fn reaches_abstract(classes: &Classes<'_>, class: usize, lineage: &[usize]) -> bool
    requires { lineage.now ≡ ancestry.lineage classes.now class }
    ensures { result ≡ rules.reaches_abstract classes.now class }
{
    lineage.iter().any(|c| any_named_abstract(classes, class, lineage, classes.members(*c)))
}

fn has_abstract_method(classes: &Classes<'_>, class: usize, lineage: &[usize]) -> bool
    requires { lineage.now ≡ ancestry.lineage classes.now class }
    ensures { result ≡ rules.has_abstract_method classes.now class }
{
    any_abstract(classes.members(class)) || reaches_abstract(classes, class, lineage)
}

/// Where a class with this lineage is not abstract and has an abstract method.
pub fn class_not_runnable(
    based: &Based<'_>,
    class: usize,
    lineage: &[usize],
    entry: &Entry<'_>,
) -> Option<Fault>
    requires { lineage.now ≡ ancestry.lineage based.now class }
    ensures { result ≡ least (rules.class_not_runnable based.now class (declaration_of entry.now)) }
{
    let wrong = !is_abstract_class(entry.class)
        && has_abstract_method(based.classes(), class, lineage);
    broken_if(wrong, 7, entry.class.at)
}

// ---- 8: properties and actions

fn is_no_property_type(kind: SourceType) -> bool
    ensures { result ≡ rules.is_no_property_type kind }
{
    !is_unknown(kind) && !is_property_type(kind)
}

fn is_no_argument(kind: SourceType) -> bool
    ensures { result ≡ rules.is_no_argument kind }
{
    !is_unknown(kind) && !is_argument_type(kind)
}

fn is_no_answer(kind: SourceType) -> bool
    ensures { result ≡ rules.is_no_answer kind }
{
    !is_unknown(kind) && !is_void(kind)
}

fn are_no_arguments(classes: &Classes<'_>, kit: usize, params: &[Param]) -> bool
    ensures { result ≡ rules.are_no_arguments classes.now kit params.now }
{
    match params {
        [] => false,
        [param] => is_no_argument(classes.type_of(kit, &param.kind)),
        _ => true,
    }
}

fn is_no_action(classes: &Classes<'_>, kit: usize, member: &Member) -> bool
    ensures { result ≡ rules.is_no_action classes.now kit member.now }
{
    is_no_answer(classes.type_of(kit, &member.kind))
        || are_no_arguments(classes, kit, params_of(member))
}

// A property or an action in a class of this lineage, which is not below `Component`.
fn is_slot_elsewhere(based: &Based<'_>, class: usize, lineage: &[usize], member: &Member) -> bool
    requires { lineage.now ≡ ancestry.lineage based.now class }
    ensures { result ≡ rules.is_slot_elsewhere based.now class member.now }
{
    (is_property(member) || is_action(member)) && !is_among(lineage, COMPONENT)
}

/// Whether a property is of a type that none may have.
pub fn is_wrong_property(classes: &Classes<'_>, kit: usize, member: &Member) -> bool
    ensures { result ≡ rules.is_wrong_property classes.now kit member.now }
{
    is_property(member) && is_no_property_type(classes.type_of(kit, &member.kind))
}

/// Whether an action has a result or parameters that none may have.
pub fn is_wrong_action(classes: &Classes<'_>, kit: usize, member: &Member) -> bool
    ensures { result ≡ rules.is_wrong_action classes.now kit member.now }
{
    is_action(member) && is_no_action(classes, kit, member)
}

/// Where a property or an action of a class with this lineage is none that a class may have there.
pub fn slot_not_fit(
    based: &Based<'_>,
    class: usize,
    lineage: &[usize],
    kit: usize,
    member: &Member,
) -> Option<Fault>
    requires { lineage.now ≡ ancestry.lineage based.now class }
    ensures { result ≡ least (rules.slot_not_fit based.now class kit member.now) }
{
    let wrong = is_slot_elsewhere(based, class, lineage, member)
        || is_wrong_property(based.classes(), kit, member)
        || is_wrong_action(based.classes(), kit, member);
    broken_if(wrong, 8, member.at)
}
