//! The first fault where it is known before a body is judged.
//!
//! A body's trees have numbers of 16 bits, and units that break a limit may have more classes, fields, static fields or
//! methods than these tell apart. Such units have a fault in what they declare. Where no body that could have a fault
//! before it has anything in it, that fault is the first of all, and no body has to be judged.
ghost use Rattle.std.specs.Prelude.{◌≡◌, Bool, IfSome, Some};
ghost use Rattle.std.specs.List.{list_all};
ghost use Rattle.sed_classes.specs.Entries.{declaration_of};
ghost use Rattle.sed_classes.specs.Faults.{first_of};
ghost use Rattle.sed_classes.specs.Members.{form_body};
ghost use Rattle.sed_first_fault.specs.Faults.{cycle_faults, declared_faults};
ghost use Rattle.sed_check.specs.Checked.{first_fault};
ghost use Rattle.sed_check.specs.Settled as meaning;

use sed_classes::{Classes, Entry, PlacedFault, params_of};
use sed_first_fault::first;
use sed_units::{Member, MemberForm};

// The place of the first class that the units declare.
const FIRST: usize = 5;

fn is_blank(member: &Member) -> bool
    ensures { result ≡ meaning.is_blank (form_body member.now.form) }
{
    match &member.form {
        MemberForm::Method(_, Some(all)) => all.as_slice().is_empty(),
        MemberForm::Method(_, None) => true,
        MemberForm::Field(_) => true,
    }
}

fn is_bare(member: &Member) -> bool
    ensures { result ≡ meaning.is_bare member.now }
{
    params_of(member).is_empty() && is_blank(member)
}

fn are_bare(members: &[Member]) -> bool
    ensures { result ≡ list_all meaning.is_bare members.now }
{
    members.iter().all(|member| is_bare(member))
}

fn is_behind(fault: PlacedFault, entry: &Entry<'_>) -> bool
    ensures { result ≡ meaning.is_behind fault (declaration_of entry.now) }
{
    fault.kit < entry.kit || (fault.kit == entry.kit && fault.text < entry.text)
}

fn is_silent(fault: PlacedFault, entry: &Entry<'_>) -> bool
    ensures { result ≡ meaning.is_silent fault (declaration_of entry.now) }
{
    is_behind(fault, entry) || are_bare(entry.class.members.as_slice())
}

// A place without a class has no body.
fn is_silent_at(classes: &Classes<'_>, fault: PlacedFault, class: usize) -> bool
    ensures { result ≡ meaning.is_silent_at classes.now fault class }
{
    match classes.entry_at(class) {
        Some(entry) => is_silent(fault, entry),
        None => true,
    }
}

// Whether no body has a fault that comes before this one.
fn settles(classes: &Classes<'_>, fault: PlacedFault) -> bool
    ensures { result ≡ meaning.settles classes.now fault }
{
    (FIRST..classes.len()).all(|class| is_silent_at(classes, fault, class))
}

/// The first fault of all, where these are the first of what is declared and of what `cycles` asks, and no fault of a
/// body comes before them. None where a body has to be judged to tell.
pub fn settled(
    classes: &Classes<'_>,
    declared: Option<PlacedFault>,
    cycle: Option<PlacedFault>,
) -> Option<PlacedFault>
    ensures { (cycles : Bool) → declared ≡ first_of (declared_faults classes.now) →
        cycle ≡ first_of (cycle_faults classes.now cycles) →
        IfSome result (λ f. first_fault classes.now cycles ≡ Some f) }
{
    match first(declared, cycle) {
        Some(fault) => {
            if settles(classes, fault) {
                Some(fault)
            } else {
                None
            }
        }
        None => None,
    }
}
