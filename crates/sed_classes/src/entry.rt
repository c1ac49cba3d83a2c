//! All classes of a program in a row.
ghost use Rattle.std.specs.Prelude.{◌≡◌, ◌≤◌, ◌+◌, ◌-◌, ◌++◌, length, IfOk, OnOk};
ghost use Rattle.sed_classes.specs.Declarations.{text_declares, kit_declares, kits_declare, all_classes};
ghost use Rattle.sed_classes.specs.SysSource.{sys_classes};
ghost use Rattle.sed_classes.specs.Entries.{declarations};

use crate::kit_units::KitUnits;
use sed_units::{Class, Unit};
use sed_value::Memory;
use std::alloc::Global;

/// A class where it is declared: its kit, the number of its text in the kit, and its own number in the kit.
#[derive(Drop)]
pub struct Entry<'a> {
    pub kit: usize,
    pub text: usize,
    pub number: usize,
    pub class: &'a Class,
}

/// All classes, those of kit `sys` first.
#[tactic(auto, unfolding(crate::specs::Declarations::all_classes))]
pub fn entries<'a>(
    alloc: Global,
    sys: &'a [Class],
    units: &'a [KitUnits],
) -> Result<Vec<Entry<'a>>, Memory>
    requires { sys.now ≡ sys_classes }
    ensures { IfOk result (λ v. declarations v.items ≡ all_classes units.now) }
{
    let mut all = Vec::new(alloc);
    push_text(&mut all, 0, 0, 0, sys)?;
    push_kits(&mut all, units)?;
    Ok(all)
}

// The classes of kits, of which the first has the number 1.
fn push_kits<'a>(all: &mut Vec<Entry<'a>>, units: &'a [KitUnits]) -> Result<(), Memory>
    ensures { OnOk result (declarations all.new.items ≡ declarations all.old.items ++ kits_declare 1 units.now) }
{
    for before in 0..units.len() {
        push_kit(all, before + 1, units[before].units.as_slice())?;
    }
    Ok(())
}

// The classes of the texts of a kit.
fn push_kit<'a>(all: &mut Vec<Entry<'a>>, kit: usize, units: &'a [Unit]) -> Result<(), Memory>
    ensures { OnOk result (declarations all.new.items ≡ declarations all.old.items ++ kit_declares kit 0 0 units.now) }
{
    let start = all.len();
    for text in 0..units.len() {
        push_text(all, kit, text, start, units[text].classes.as_slice())?;
    }
    Ok(())
}

// The classes of a text of a kit whose classes begin at a start.
fn push_text<'a>(
    all: &mut Vec<Entry<'a>>,
    kit: usize,
    text: usize,
    start: usize,
    classes: &'a [Class],
) -> Result<(), Memory>
    requires { start ≤ length all.old.items }
    ensures entries { OnOk result (declarations all.new.items
        ≡ declarations all.old.items ++ text_declares kit text (length all.old.items - start) classes.now) }
    ensures len { OnOk result (length all.new.items ≡ length all.old.items + length classes.now) }
{
    for class in classes {
        let number = all.len() - start;
        all.push(Entry {
            kit,
            text,
            number,
            class,
        })?;
    }
    Ok(())
}
