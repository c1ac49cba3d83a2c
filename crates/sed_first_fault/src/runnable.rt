//! What `cycles` asks of the first class.
ghost use Rattle.std.specs.Prelude.{◌≡◌, ◌==◌, ◌&&◌, not, map, IfOk};
ghost use Rattle.std.specs.List.{list_any};
ghost use Rattle.std.specs.Option.{option_copied, option_map};
ghost use Rattle.sed_classes.specs.Bases as ancestry;
ghost use Rattle.sed_classes.specs.Declarations.{Declaration};
ghost use Rattle.sed_classes.specs.Entries.{declaration_of};
ghost use Rattle.sed_classes.specs.Faults.{first_of, placed_in};
ghost use Rattle.sed_classes.specs.Members as members;
ghost use Rattle.sed_faults.specs.Faults as faults;
ghost use Rattle.sed_first_fault.specs.Faults.{cycle_faults, no_class};

use crate::firsts::placed;
use sed_classes::{Based, Entry, PlacedFault, is_abstract_class};
use sed_faults::broken_if;
use sed_value::{Memory, is_among};
use std::alloc::Global;

// The place of `Component`.
const COMPONENT: usize = 2;

// The place of the first class that the units declare.
const FIRST: usize = 5;

// Whether the class at a place is a component.
fn is_component(alloc: Global, based: &Based<'_>, class: usize) -> Result<bool, Memory>
    ensures { IfOk result (λ b. b ≡ ancestry.is_below based.now 2 class) }
{
    let lineage = based.lineage(alloc, class)?;
    Ok(is_among(lineage.as_slice(), COMPONENT))
}

fn no_class() -> PlacedFault
    ensures { result ≡ no_class }
{
    PlacedFault {
        kit: 1,
        text: 0,
        at: 0,
        rule: 25,
    }
}

// Where a class breaks the rule, if it is one that may not run.
fn broken_at(entry: &Entry<'_>, is_component: bool) -> Option<PlacedFault>
    ensures { (d : Declaration) → d ≡ declaration_of entry.now → result ≡ first_of (map (placed_in d)
        (faults.broken_if (not (is_component && not (members.is_abstract_class d.class))) 25 d.class.at)) }
{
    let runs = is_component && !is_abstract_class(entry.class);
    placed(entry, broken_if(!runs, 25, entry.class.at))
}

/// Where the first class that the units declare is no component that may have objects, if that is asked.
///
/// Want of memory is the only refusal.
pub fn cycle_fault(
    alloc: Global,
    based: &Based<'_>,
    cycles: bool,
) -> Result<Option<PlacedFault>, Memory>
    ensures { IfOk result (λ f. f ≡ first_of (cycle_faults based.now cycles)) }
{
    if !cycles {
        return Ok(None);
    }
    let is_component = is_component(alloc, based, FIRST)?;
    match based.classes().entry_at(FIRST) {
        Some(entry) => Ok(broken_at(entry, is_component)),
        None => Ok(Some(no_class())),
    }
}
