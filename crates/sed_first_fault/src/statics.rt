//! What the statics of a program take.
ghost use Rattle.std.specs.Prelude.{◌≡◌, IfOk};
ghost use Rattle.std.specs.Option.{option_map_or};
ghost use Rattle.sed_classes.specs.Declarations.{class_at};
ghost use Rattle.sed_classes.specs.LimitRules as rules;
ghost use Rattle.sed_outline.specs.Rounds.{capped, row_of};

use crate::counted::Counted;
use crate::passed::{add, members_sum};
use sed_outline::Measured;
use sed_value::Memory;
use std::alloc::Global;

// What the statics of the class at a place take; of a place without a class, 0.
fn class_statics(measured: &Measured<'_>, class: usize) -> u64
    ensures { result ≡ capped (option_map_or (rules.statics_of measured.now) (class_at measured.now class) 0) }
{
    match measured.based().classes().entry_at(class) {
        Some(entry) => members_sum(
            measured,
            Counted::Statics,
            entry.kit,
            entry.class.members.as_slice(),
        ),
        None => 0,
    }
}

/// For each class what the statics of the classes before it take, as far as 64 bits tell it.
///
/// Want of memory is the only refusal.
pub fn statics_before(alloc: Global, measured: &Measured<'_>) -> Result<Vec<u64>, Memory>
    ensures { IfOk result (λ v. v.items
        ≡ row_of measured.now (λ class. capped (rules.statics_before measured.now class))) }
{
    let mut all = Vec::new(alloc);
    let mut before = 0;
    for class in 0..measured.based().classes().len() {
        all.push(before)?;
        before = add(before, class_statics(measured, class));
    }
    Ok(all)
}
