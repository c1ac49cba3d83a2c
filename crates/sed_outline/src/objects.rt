//! The rule on the classes of inline objects.
ghost use Rattle.std.specs.Prelude.{◌≡◌, ◌==◌, IfOk};
ghost use Rattle.std.specs.List.{flat_map, list_any};
ghost use Rattle.sed_faults.specs.Faults.{least};
ghost use Rattle.sed_classes.specs.FieldRules as rules;
ghost use Rattle.sed_classes.specs.Members as members;
ghost use Rattle.sed_classes.specs.Objects as objects;

use crate::fields::inline_class;
use crate::measured::Measured;
use sed_classes::{Classes, is_abstract_class, is_instance_field};
use sed_faults::{Fault, broken_if, joined};
use sed_units::Member;
use sed_value::Memory;
use std::alloc::Global;

// The place of `Component`.
const COMPONENT: usize = 2;

fn is_abstract_at(classes: &Classes<'_>, class: usize) -> bool
    ensures { result ≡ rules.is_abstract_at classes.now class }
{
    match classes.entry_at(class) {
        Some(entry) => is_abstract_class(entry.class),
        None => false,
    }
}

fn any_instance_field(all: &[Member]) -> bool
    ensures { result ≡ list_any members.is_instance_field all.now }
{
    all.iter().any(|member| is_instance_field(member))
}

fn declares_field(classes: &Classes<'_>, class: usize) -> bool
    ensures { result ≡ objects.declares_field classes.now class }
{
    any_instance_field(classes.members(class))
}

fn any_declares_field(classes: &Classes<'_>, lineage: &[usize]) -> bool
    ensures { result ≡ list_any (objects.declares_field classes.now) lineage.now }
{
    lineage.iter().any(|class| declares_field(classes, *class))
}

// Whether there is no inline object of a class.
fn is_no_object_class(alloc: Global, measured: &Measured<'_>, class: usize) -> Result<bool, Memory>
    ensures { IfOk result (λ b. b ≡ rules.is_no_object_class measured.now class) }
{
    let based = measured.based();
    let classes = based.classes();
    let lineage = based.lineage(alloc, class)?;
    Ok(
        is_abstract_at(classes, class)
            || based.is_below(COMPONENT, class)
            || !any_declares_field(classes, lineage.as_slice())
            || measured.holds_itself(class),
    )
}

// Where a member of a class of a kit is an inline object that there is not.
fn object_fault(
    alloc: Global,
    measured: &Measured<'_>,
    kit: usize,
    member: &Member,
) -> Result<Option<Fault>, Memory>
    ensures { IfOk result (λ f. f ≡ least (rules.object_not_fit measured.now kit member.now)) }
{
    match inline_class(measured.based().classes(), kit, member) {
        Some(class) => {
            let wrong = is_no_object_class(alloc, measured, class)?;
            Ok(broken_if(wrong, 9, member.at))
        }
        None => Ok(None),
    }
}

/// Where these members of a class of a kit first are an inline object of a class of which there is none.
///
/// Want of memory is the only refusal.
pub fn objects_fault(
    alloc: Global,
    measured: &Measured<'_>,
    kit: usize,
    members: &[Member],
) -> Result<Option<Fault>, Memory>
    ensures { IfOk result (λ f. f ≡ least (flat_map (rules.object_not_fit measured.now kit) members.now)) }
{
    let mut first = None;
    for member in members {
        let fault = object_fault(alloc, measured, kit, member)?;
        first = joined(first, fault);
    }
    Ok(first)
}
