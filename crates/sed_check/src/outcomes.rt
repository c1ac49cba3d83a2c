//! What units come to: their program, or their first fault.
ghost use Rattle.std.specs.Prelude.{◌≡◌, ◌≤◌, List, length, true, All, Bool, IfOk};
ghost use Rattle.sed_classes.specs.declared.kit_units.KitUnits.{KitUnits as TheKitUnits};
ghost use Rattle.sed_classes.specs.Declarations.{declared_in};
ghost use Rattle.sed_classes.specs.Faults.{first_of};
ghost use Rattle.sed_outline.specs.Fits.{Spelled as AreSpelled, Unbroken};
ghost use Rattle.sed_program.specs.Methods.{methods_of};
ghost use Rattle.sed_program.specs.Texts.{program_texts};
ghost use Rattle.sed_first_fault.specs.Faults.{cycle_faults, declared_faults};
ghost use Rattle.sed_check.specs.Bodies.{AreBodies, body_faults};
ghost use Rattle.sed_check.specs.Checked.{IsSpelled, first_fault};
ghost use Rattle.sed_check.specs.Parts.{IsOutcome};

use crate::heads::methods;
use crate::settling::settled;
use crate::{Bodies, judged_bodies};
use sed_classes::{Based, Classes, KitUnits, PlacedFault, sys_classes};
use sed_first_fault::{cycle_fault, declared_fault, first};
use sed_outline::{Measured, classes};
use sed_program::{Spelled, Tables, note_bodies};
use sed_typed::{Bytes255, Program};
use sed_value::{Items, Memory};
use std::alloc::Global;

/// The program of units without a fault, or the first fault of the others.
#[derive(Drop)]
pub enum Outcome {
    Program(Program),
    Broken(PlacedFault),
}

// The program of units without a fault. Each body is known then; one that is not is refused as want of memory is.
fn program(
    alloc: Global,
    units: &[KitUnits],
    tables: &Tables<'_, '_>,
    bodies: Bodies,
) -> Result<Program, Memory>
    requires same { tables.now ≡ units.now }
    requires unbroken { Unbroken units.now }
    requires trees { bodies.are_known ≡ true → AreBodies units.now (methods_of units.now) bodies.trees.items }
    ensures { IfOk result (IsSpelled units.now) }
{
    if !bodies.are_known {
        return Err(Memory);
    }
    let methods = methods(alloc, tables, bodies.trees)?;
    let schema = classes(alloc, units)?;
    let fields = tables.ordered().fields(alloc)?;
    let statics = tables.ordered().statics(alloc)?;
    let texts = Vec::from_slice(alloc, tables.texts())?;
    Ok(Program {
        schema,
        methods: Items::new(methods),
        fields: Items::new(fields),
        statics: Items::new(statics),
        texts: Items::new(texts),
    })
}

// The first fault of all, where these are those of what is declared, of bodies, and of what `cycles` asks.
fn earliest(
    declared: Option<PlacedFault>,
    bodies: Option<PlacedFault>,
    cycle: Option<PlacedFault>,
) -> Option<PlacedFault>
    ensures { (units : List TheKitUnits) (cycles : Bool) → declared ≡ first_of (declared_faults units) →
        bodies ≡ first_of (body_faults units) → cycle ≡ first_of (cycle_faults units cycles) →
        result ≡ first_fault units cycles }
{
    first(first(declared, bodies), cycle)
}

// What units come to whose bodies have to be judged, where these are their texts, the first fault of what they declare,
// and that of what `cycles` asks.
fn judged(
    alloc: Global,
    units: &[KitUnits],
    based: &Based<'_>,
    texts: Vec<Bytes255>,
    declared: Option<PlacedFault>,
    cycle: Option<PlacedFault>,
) -> Result<Outcome, Memory>
    requires same { based.now ≡ units.now }
    requires kits { length units.now ≤ 15 }
    requires spelled { All AreSpelled (declared_in units.now) }
    requires texts { texts.items ≡ program_texts based.now }
    requires declared { declared ≡ first_of (declared_faults units.now) }
    requires asked { (cycles : Bool) × (cycle ≡ first_of (cycle_faults units.now cycles)) }
    ensures { (cycles : Bool) → cycle ≡ first_of (cycle_faults units.now cycles) →
        IfOk result (IsOutcome units.now cycles) }
{
    let tables = Tables::new(alloc, based, texts)?;
    let bodies = judged_bodies(alloc, &tables)?;
    match earliest(declared, bodies.first, cycle) {
        Some(fault) => Ok(Outcome::Broken(fault)),
        None => {
            let program = program(alloc, units, &tables, bodies)?;
            Ok(Outcome::Program(program))
        }
    }
}

// What units come to whose classes these are.
fn found(
    alloc: Global,
    units: &[KitUnits],
    measured: &Measured<'_>,
    cycles: bool,
) -> Result<Outcome, Memory>
    requires same { measured.now ≡ units.now }
    requires kits { length units.now ≤ 15 }
    requires spelled { All AreSpelled (declared_in units.now) }
    ensures { IfOk result (IsOutcome units.now cycles) }
{
    let based = measured.based();
    let Spelled { texts, faults } = note_bodies(alloc, based)?;
    let declared = declared_fault(alloc, measured, faults.as_slice())?;
    let cycle = cycle_fault(alloc, based, cycles)?;
    match settled(based.classes(), declared, cycle) {
        Some(fault) => Ok(Outcome::Broken(fault)),
        None => judged(alloc, units, based, texts, declared, cycle),
    }
}

/// What units come to; with `cycles` the first class must be a component type that is not abstract.
///
/// Want of memory is the only refusal.
pub fn outcome_of(alloc: Global, units: &[KitUnits], cycles: bool) -> Result<Outcome, Memory>
    requires kits { length units.now ≤ 15 }
    requires spelled { All AreSpelled (declared_in units.now) }
    ensures { IfOk result (IsOutcome units.now cycles) }
{
    let sys = sys_classes(alloc)?;
    let all = Classes::new(alloc, sys.as_slice(), units)?;
    let based = Based::new(alloc, all)?;
    let measured = Measured::new(alloc, based)?;
    found(alloc, units, &measured, cycles)
}
