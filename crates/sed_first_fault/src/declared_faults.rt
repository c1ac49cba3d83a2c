//! All rules on what a class declares.
ghost use Rattle.std.specs.Prelude.{◌≡◌, IfOk, None, Some};
ghost use Rattle.std.specs.Option.{option_map_or};
ghost use Rattle.sed_faults.specs.Faults.{least};
ghost use Rattle.sed_classes.specs.Declarations.{class_at};
ghost use Rattle.sed_classes.specs.Entries.{declaration_of};
ghost use Rattle.sed_classes.specs.Faults as faults;
ghost use Rattle.sed_classes.specs.LimitRules as rules;
ghost use Rattle.sed_outline.specs.Rounds.{capped};

use crate::{count_fault, size_fault};
use sed_classes::Entry;
use sed_faults::{Fault, joined};
use sed_outline::{Measured, objects_fault};
use sed_rules::{Defines, form_fault, values_fault};
use sed_value::Memory;
use std::alloc::Global;

// Where inline objects, initial values and sizes break a rule first, of this class that stands at the place.
fn value_fault(
    alloc: Global,
    measured: &Measured<'_>,
    defines: &Defines<'_, '_>,
    class: usize,
    before: u64,
    entry: &Entry<'_>,
) -> Result<Option<Fault>, Memory>
    requires defines { defines.now ≡ measured.now }
    requires before { before ≡ capped (rules.statics_before measured.now class) }
    requires entry { class_at measured.now class ≡ Some (declaration_of entry.now) }
    ensures { IfOk result (λ f. f ≡ least (faults.value_faults measured.now class (declaration_of entry.now))) }
{
    let members = entry.class.members.as_slice();
    let objects = objects_fault(alloc, measured, entry.kit, members)?;
    let values = values_fault(alloc, defines, class, entry.kit, members)?;
    let sizes = size_fault(alloc, measured, class, before)?;
    let first = joined(objects, values);
    Ok(joined(first, sizes))
}

/// The first fault of what the class at a place declares, against all rules but those on bodies, where the statics of
/// the classes before it take so much; a place without a class has none.
///
/// Want of memory is the only refusal.
pub fn declaration_fault(
    alloc: Global,
    measured: &Measured<'_>,
    defines: &Defines<'_, '_>,
    class: usize,
    before: u64,
) -> Result<Option<Fault>, Memory>
    requires defines { defines.now ≡ measured.now }
    requires before { before ≡ capped (rules.statics_before measured.now class) }
    ensures { IfOk result (λ f.
        f ≡ option_map_or (λ d. least (faults.declaration_faults measured.now class d)) (class_at measured.now class)
        None) }
{
    let based = measured.based();
    let classes = based.classes();
    let Some(entry) = classes.entry_at(class) else {
        return Ok(None);
    };
    let form = form_fault(alloc, based, class)?;
    let count = count_fault(alloc, measured, class)?;
    let value = value_fault(alloc, measured, defines, class, before, entry)?;
    let first = joined(form, count);
    Ok(joined(first, value))
}
