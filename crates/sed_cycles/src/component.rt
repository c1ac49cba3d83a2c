//! A component alone, and its cycles.
ghost use Rattle.std.specs.Prelude.{◌≡◌, ◌↔◌, ◌<◌, ◌≤◌, ◌+◌, ℕ, false, IfOk, IsSomeAnd, IsTrue, OnErr};
ghost use Rattle.std.specs.FinMap as map;
ghost use Rattle.sed_engine.specs.Code.{data_of, is_creatable};
ghost use Rattle.sed_cycles.specs.Alone.{Alone, after_cycles, begun, executed, fault_by};
ghost use Rattle.sed_cycles.specs.Standing.{StandsFor};

use sed_engine::{AddRefusal, CallEnd, Engine, Place, Root};
use sed_typed::TypeNo;
use sed_value::SlotBuf;

// A cycle comes so many nanoseconds after the one before it.
const SECOND: i64 = 1_000_000_000;

/// A component of an engine: where it is kept, its class, and its fault, which is 0 or the number of the trap that it
/// met.
#[derive(Clone, Copy)]
pub struct Component {
    pub place: Place,
    pub class: TypeNo,
    pub fault: u8,
}

fn fault_of(end: CallEnd) -> u8
    ensures { result ≡ fault_by end }
{
    match end {
        CallEnd::Done { .. } => 0,
        CallEnd::Trap { number } => number,
    }
}

/// Makes a component of a component type that is not abstract.
///
/// `DataFull` comes exactly where the data sizes of what the engine keeps and of the new component pass its limit,
/// `Memory` only where the engine is not fixed. A refusal changes nothing, and limit and `fixed` stay in any case.
pub fn add_component<E: Engine>(engine: &mut E, class: TypeNo) -> Result<Component, AddRefusal>
    requires creatable { IsTrue (is_creatable (E.meaning engine.old) class.0) }
    requires few { map.len (E.live engine.old) < 4096 }
    ensures begun { IfOk result (λ c.
        StandsFor (E.live engine.new) (E.statics engine.new) c
        (begun (E.meaning engine.old) class.0 (E.statics engine.old))) }
    ensures full { (result ≡ Err AddRefusal.DataFull) ↔ (E.limit engine.old
        < data_of (E.meaning engine.old) (E.live engine.old) + (E.meaning engine.old).data_size class.0) }
    ensures memory { result ≡ Err AddRefusal.Memory → E.fixed engine.old ≡ false }
    ensures stays { OnErr result (E.live engine.new ≡ E.live engine.old) }
    ensures statics { E.statics engine.new ≡ E.statics engine.old }
    ensures meaning { E.meaning engine.new ≡ E.meaning engine.old }
    ensures limit { E.limit engine.new ≡ E.limit engine.old }
    ensures fixed { E.fixed engine.new ≡ E.fixed engine.old }
{
    match engine.add(class) {
        Ok(place) => Ok(Component {
            place,
            class,
            fault: 0,
        }),
        Err(refusal) => Err(refusal),
    }
}

// Executes the component, if it is not faulted, with so many turns at a moment in nanoseconds.
fn execute<E: Engine>(engine: &mut E, component: &mut Component, turns: u32, moment: i64)
    requires live { IsSomeAnd (map.get (E.live engine.old) component.old.place.0)
        (λ o. o.class ≡ component.old.class.0) }
    requires some_turns { 1 ≤ turns }
    requires most_turns { turns ≤ 1000000 }
    ensures executed { (a : Alone) → StandsFor (E.live engine.old) (E.statics engine.old) component.old a →
        StandsFor (E.live engine.new) (E.statics engine.new) component.new
        (executed (E.meaning engine.old) turns moment a) }
    ensures live { IsSomeAnd (map.get (E.live engine.new) component.new.place.0)
        (λ o. o.class ≡ component.new.class.0) }
    ensures meaning { E.meaning engine.new ≡ E.meaning engine.old }
    ensures place { component.new.place ≡ component.old.place }
    ensures class { component.new.class ≡ component.old.class }
{
    if component.fault != 0 {
        return;
    }
    let nothing = SlotBuf::new();
    let end = engine.call(component.place, Root::Execute, &nothing, turns, moment);
    component.fault = fault_of(end);
}

/// Runs so many cycles of the component, each with so many turns: cycle n, counted from 1, at the moment of n seconds.
/// While it is faulted it is not executed.
///
/// At most 1,000,000 cycles, each with 1 to 1,000,000 turns. Takes no memory.
pub fn run_cycles<E: Engine>(engine: &mut E, component: &mut Component, cycles: u32, turns: u32)
    requires live { IsSomeAnd (map.get (E.live engine.old) component.old.place.0)
        (λ o. o.class ≡ component.old.class.0) }
    requires most_cycles { cycles ≤ 1000000 }
    requires some_turns { 1 ≤ turns }
    requires most_turns { turns ≤ 1000000 }
    ensures run { (a : Alone) → StandsFor (E.live engine.old) (E.statics engine.old) component.old a →
        StandsFor (E.live engine.new) (E.statics engine.new) component.new
        (after_cycles (E.meaning engine.old) turns cycles a) }
    ensures live { IsSomeAnd (map.get (E.live engine.new) component.new.place.0)
        (λ o. o.class ≡ component.new.class.0) }
    ensures meaning { E.meaning engine.new ≡ E.meaning engine.old }
    ensures place { component.new.place ≡ component.old.place }
    ensures class { component.new.class ≡ component.old.class }
{
    for done in 0..cycles {
        execute(engine, component, turns, (i64::from(done) + 1) * SECOND);
    }
}
