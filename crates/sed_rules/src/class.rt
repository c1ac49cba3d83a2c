//! What is seen of a class's names, words and types alone.
ghost use Rattle.std.specs.Prelude.{◌≡◌, ◌≤◌, IfOk, Some, unwrap_or};
ghost use Rattle.std.specs.Option.{option_map_or};
ghost use Rattle.sed_faults.specs.Faults.{least, said_from};
ghost use Rattle.sed_classes.specs.Bases as ancestry;
ghost use Rattle.sed_classes.specs.Declarations.{class_at};
ghost use Rattle.sed_classes.specs.Entries.{declaration_of};
ghost use Rattle.sed_classes.specs.Faults as faults;

use crate::fields::{member_not_fit, param_not_fit};
use crate::limits::{
    too_long_in_class, too_long_in_member, too_long_in_param, too_many_params, too_many_types,
};
use crate::members::{
    class_not_runnable, inherited_name_taken, method_not_runnable, name_repeated,
    overrides_nothing, slot_not_fit,
};
use crate::names::{base_not_fit, base_without_class, class_name_not_free, type_without_class};
use sed_classes::{Based, Classes, Entry, behind_first, params_of};
use sed_faults::{Fault, joined};
use sed_units::{Member, Param};
use sed_value::Memory;
use std::alloc::Global;

fn param_fault(classes: &Classes<'_>, kit: usize, number: usize, param: &Param) -> Option<Fault>
    ensures { result ≡ least (faults.param_faults classes.now kit number param.now) }
{
    let kind = joined(
        type_without_class(classes, kit, &param.kind),
        param_not_fit(classes, kit, param),
    );
    let counted = joined(kind, too_many_params(number, param));
    joined(counted, too_long_in_param(param))
}

fn params_fault(classes: &Classes<'_>, kit: usize, params: &[Param]) -> Option<Fault>
    ensures { result ≡ least (said_from (faults.param_faults classes.now kit) 0 params.now) }
{
    let mut first = None;
    for number in 0..params.len() {
        first = joined(first, param_fault(classes, kit, number, &params[number]));
    }
    first
}

fn member_name_fault(
    classes: &Classes<'_>,
    class: usize,
    lineage: &[usize],
    entry: &Entry<'_>,
    number: usize,
    member: &Member,
) -> Option<Fault>
    requires lineage { lineage.now ≡ ancestry.lineage classes.now class }
    requires entry { class_at classes.now class ≡ Some (declaration_of entry.now) }
    ensures { result
        ≡ least (faults.member_name_faults classes.now class (declaration_of entry.now) number member.now) }
{
    let bases = behind_first(lineage);
    let names = joined(
        type_without_class(classes, entry.kit, &member.kind),
        name_repeated(classes, class, entry, number, member),
    );
    let inherited = joined(names, inherited_name_taken(classes, class, bases, member));
    joined(
        inherited,
        overrides_nothing(classes, class, entry.kit, bases, member),
    )
}

fn member_word_fault(
    based: &Based<'_>,
    class: usize,
    lineage: &[usize],
    entry: &Entry<'_>,
    member: &Member,
) -> Option<Fault>
    requires { lineage.now ≡ ancestry.lineage based.now class }
    ensures { result ≡ least (faults.member_word_faults based.now class (declaration_of entry.now) member.now) }
{
    let runs = method_not_runnable(based, class, lineage, entry, member);
    let slots = joined(runs, slot_not_fit(based, class, lineage, entry.kit, member));
    let forms = joined(slots, member_not_fit(based.classes(), entry.kit, member));
    joined(forms, too_long_in_member(member))
}

fn member_fault(
    based: &Based<'_>,
    class: usize,
    lineage: &[usize],
    entry: &Entry<'_>,
    number: usize,
    member: &Member,
) -> Option<Fault>
    requires lineage { lineage.now ≡ ancestry.lineage based.now class }
    requires entry { class_at based.now class ≡ Some (declaration_of entry.now) }
    ensures { result ≡ least (faults.member_form_faults based.now class (declaration_of entry.now) number member.now) }
{
    let own = joined(
        member_name_fault(based.classes(), class, lineage, entry, number, member),
        member_word_fault(based, class, lineage, entry, member),
    );
    joined(
        own,
        params_fault(based.classes(), entry.kit, params_of(member)),
    )
}

fn members_fault(
    based: &Based<'_>,
    class: usize,
    lineage: &[usize],
    entry: &Entry<'_>,
) -> Option<Fault>
    requires lineage { lineage.now ≡ ancestry.lineage based.now class }
    requires entry { class_at based.now class ≡ Some (declaration_of entry.now) }
    ensures { result ≡ least (said_from (faults.member_form_faults based.now class (declaration_of entry.now))
        0 entry.now.class.now.members) }
{
    let members = entry.class.members.as_slice();
    let mut first = None;
    for number in 0..members.len() {
        let fault = member_fault(based, class, lineage, entry, number, &members[number]);
        first = joined(first, fault);
    }
    first
}

fn class_name_fault(based: &Based<'_>, class: usize, entry: &Entry<'_>) -> Option<Fault>
    ensures { result ≡ least (faults.class_name_faults based.now class (declaration_of entry.now)) }
{
    let classes = based.classes();
    let names = joined(
        base_without_class(classes, entry.kit, &entry.class.base),
        class_name_not_free(classes, class, entry),
    );
    joined(names, base_not_fit(based, class, entry))
}

fn class_fault(
    based: &Based<'_>,
    class: usize,
    lineage: &[usize],
    entry: &Entry<'_>,
) -> Option<Fault>
    requires { lineage.now ≡ ancestry.lineage based.now class }
    ensures { result ≡ least (faults.class_form_faults based.now class (declaration_of entry.now)) }
{
    let runs = joined(
        class_name_fault(based, class, entry),
        class_not_runnable(based, class, lineage, entry),
    );
    let counted = joined(runs, too_many_types(entry));
    joined(counted, too_long_in_class(entry.class))
}

/// The first fault that is seen of the names, words and types of the class at a place and of its members; a place
/// without a class has none.
///
/// Want of memory is the only refusal.
pub fn form_fault(alloc: Global, based: &Based<'_>, class: usize) -> Result<Option<Fault>, Memory>
    ensures { IfOk result (λ f. f ≡ option_map_or (λ d. least (faults.form_faults based.now class d))
        (class_at based.now class) None) }
{
    match based.classes().entry_at(class) {
        Some(entry) => {
            let lineage = based.lineage(alloc, class)?;
            Ok(joined(
                class_fault(based, class, lineage.as_slice(), entry),
                members_fault(based, class, lineage.as_slice(), entry),
            ))
        }
        None => Ok(None),
    }
}
