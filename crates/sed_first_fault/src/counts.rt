//! The limits, one by one, and together.
ghost use Rattle.std.specs.Prelude.{◌≡◌, ◌<◌, ◌-◌, ◌^◌, IfOk, None};
ghost use Rattle.std.specs.Option.{option_map_or};
ghost use Rattle.sed_faults.specs.Faults.{least, said_from};
ghost use Rattle.sed_classes.specs.Bases as ancestry;
ghost use Rattle.sed_classes.specs.Declarations.{class_at};
ghost use Rattle.sed_classes.specs.Entries.{declaration_of};
ghost use Rattle.sed_classes.specs.Faults as faults;
ghost use Rattle.sed_classes.specs.LimitRules as rules;
ghost use Rattle.sed_outline.specs.Rounds.{capped};
ghost use Rattle.sed_first_fault.specs.Counts.{size_faults, summed};

use crate::counted::Counted;
use crate::passed::{classes_sum, passed_fault};
use sed_classes::{Entry, behind_first};
use sed_faults::{Fault, joined};
use sed_outline::Measured;
use sed_value::Memory;
use std::alloc::Global;

// How many methods a class itself declares at most.
const MOST_METHODS: u64 = 60;

// How many virtual methods a class has at most.
const MOST_VIRTUAL: u64 = 255;

// How many slots a class has at most.
const MOST_SLOTS: u64 = 64;

// How many bytes of config values a class has at most, and of runtime values.
const MOST_VALUES: u64 = 400;

// How many bytes an object takes at most.
const MOST_DATA: u64 = 65_535;

// How many bytes the statics of a program take at most.
const MOST_STATICS: u64 = 65_535;

fn methods_fault(measured: &Measured<'_>, entry: &Entry<'_>) -> Option<Fault>
    ensures { result ≡ least (said_from (rules.too_many_methods (declaration_of entry.now))
        0 entry.now.class.now.members) }
{
    passed_fault(
        measured,
        Counted::Methods,
        MOST_METHODS,
        0,
        entry.kit,
        entry.class.members.as_slice(),
    )
}

// Where a sum over inherited members and a class's own passes a bound.
fn summed_fault(
    measured: &Measured<'_>,
    class: usize,
    bases: &[usize],
    entry: &Entry<'_>,
    counted: Counted,
    most: u64,
) -> Option<Fault>
    requires bases { bases.now ≡ ancestry.bases measured.now class }
    requires most { most < 2 ^ 64 - 1 }
    ensures { result ≡ least (said_from (summed most counted measured.now class (declaration_of entry.now))
        0 entry.now.class.now.members) }
{
    let start = classes_sum(measured, counted, bases);
    passed_fault(
        measured,
        counted,
        most,
        start,
        entry.kit,
        entry.class.members.as_slice(),
    )
}

fn virtual_fault(
    measured: &Measured<'_>,
    class: usize,
    bases: &[usize],
    entry: &Entry<'_>,
) -> Option<Fault>
    requires { bases.now ≡ ancestry.bases measured.now class }
    ensures { result ≡ least (said_from (rules.too_many_virtual measured.now class (declaration_of entry.now))
        0 entry.now.class.now.members) }
{
    summed_fault(
        measured,
        class,
        bases,
        entry,
        Counted::Virtual,
        MOST_VIRTUAL,
    )
}

fn slots_fault(
    measured: &Measured<'_>,
    class: usize,
    bases: &[usize],
    entry: &Entry<'_>,
) -> Option<Fault>
    requires { bases.now ≡ ancestry.bases measured.now class }
    ensures { result ≡ least (said_from (rules.too_many_slots measured.now class (declaration_of entry.now))
        0 entry.now.class.now.members) }
{
    summed_fault(measured, class, bases, entry, Counted::Slots, MOST_SLOTS)
}

fn config_fault(
    measured: &Measured<'_>,
    class: usize,
    bases: &[usize],
    entry: &Entry<'_>,
) -> Option<Fault>
    requires { bases.now ≡ ancestry.bases measured.now class }
    ensures { result ≡ least (said_from (rules.too_large_config measured.now class (declaration_of entry.now))
        0 entry.now.class.now.members) }
{
    summed_fault(measured, class, bases, entry, Counted::Config, MOST_VALUES)
}

fn runtime_fault(
    measured: &Measured<'_>,
    class: usize,
    bases: &[usize],
    entry: &Entry<'_>,
) -> Option<Fault>
    requires { bases.now ≡ ancestry.bases measured.now class }
    ensures { result ≡ least (said_from (rules.too_large_runtime measured.now class (declaration_of entry.now))
        0 entry.now.class.now.members) }
{
    summed_fault(measured, class, bases, entry, Counted::Runtime, MOST_VALUES)
}

fn data_fault(
    measured: &Measured<'_>,
    class: usize,
    bases: &[usize],
    entry: &Entry<'_>,
) -> Option<Fault>
    requires { bases.now ≡ ancestry.bases measured.now class }
    ensures { result ≡ least (said_from (rules.too_much_data measured.now class (declaration_of entry.now))
        0 entry.now.class.now.members) }
{
    summed_fault(measured, class, bases, entry, Counted::Data, MOST_DATA)
}

// The first of the limits on counts that a class with these bases passes.
fn class_count_fault(
    measured: &Measured<'_>,
    class: usize,
    bases: &[usize],
    entry: &Entry<'_>,
) -> Option<Fault>
    requires { bases.now ≡ ancestry.bases measured.now class }
    ensures { result ≡ least (faults.count_faults measured.now class (declaration_of entry.now)) }
{
    let values = joined(
        config_fault(measured, class, bases, entry),
        runtime_fault(measured, class, bases, entry),
    );
    let slots = joined(slots_fault(measured, class, bases, entry), values);
    let counted = joined(virtual_fault(measured, class, bases, entry), slots);
    joined(methods_fault(measured, entry), counted)
}

// Where the statics of a class pass the limit, the classes before it taking so much.
fn statics_fault(
    measured: &Measured<'_>,
    class: usize,
    before: u64,
    entry: &Entry<'_>,
) -> Option<Fault>
    requires { before ≡ capped (rules.statics_before measured.now class) }
    ensures { result ≡ least (said_from (rules.too_many_statics measured.now class (declaration_of entry.now))
        0 entry.now.class.now.members) }
{
    passed_fault(
        measured,
        Counted::Statics,
        MOST_STATICS,
        before,
        entry.kit,
        entry.class.members.as_slice(),
    )
}

/// The first fault of the class at a place against the limits on methods, virtual methods, slots and the values of
/// properties; a place without a class has none.
///
/// Want of memory is the only refusal.
pub fn count_fault(
    alloc: Global,
    measured: &Measured<'_>,
    class: usize,
) -> Result<Option<Fault>, Memory>
    ensures { IfOk result (λ f. f ≡ option_map_or (λ d. least (faults.count_faults measured.now class d))
        (class_at measured.now class) None) }
{
    match measured.based().classes().entry_at(class) {
        Some(entry) => {
            let lineage = measured.based().lineage(alloc, class)?;
            let bases = behind_first(lineage.as_slice());
            Ok(class_count_fault(measured, class, bases, entry))
        }
        None => Ok(None),
    }
}

/// The first fault of the class at a place against the limits on the data of an object and on statics, where the
/// statics of the classes before it take so much; a place without a class has none.
///
/// Want of memory is the only refusal.
pub fn size_fault(
    alloc: Global,
    measured: &Measured<'_>,
    class: usize,
    before: u64,
) -> Result<Option<Fault>, Memory>
    requires { before ≡ capped (rules.statics_before measured.now class) }
    ensures { IfOk result (λ f. f ≡ option_map_or (λ d. least (size_faults measured.now class d))
        (class_at measured.now class) None) }
{
    match measured.based().classes().entry_at(class) {
        Some(entry) => {
            let lineage = measured.based().lineage(alloc, class)?;
            let bases = behind_first(lineage.as_slice());
            Ok(joined(
                data_fault(measured, class, bases, entry),
                statics_fault(measured, class, before, entry),
            ))
        }
        None => Ok(None),
    }
}
