//! The values that the config properties of a class begin with.
ghost use Rattle.std.specs.Prelude.{◌≡◌, ◌≤◌, ◌++◌, map as map_list, Some, IfOk, OnOk, IsTrue};
ghost use Rattle.std.specs.FinMap as map;
ghost use Rattle.std.specs.List.{list_all};
ghost use Rattle.sed_engine.specs.Code.{is_creatable, is_property, new_object, slot_value};
ghost use Rattle.node_table.specs.Values.{spelling_of, spelling_of_all};
ghost use Rattle.record_making.specs.Types.{initial_config};

use crate::class::{Sort, slots_that};
use app_parts::write_value;
use sed_engine::{AddRefusal, Engine, Place};
use sed_typed::{SlotNo, TypeNo};
use sed_value::{Memory, SlotBuf, Value};
use std::alloc::Global;

/// The values that the config properties of a class begin with, in the bytes that spell them. They are read off a new
/// object of an engine without live places that has room for one, and that object is removed again.
pub(crate) fn initial_config<E: Engine>(
    alloc: Global,
    engine: &mut E,
    class: TypeNo,
) -> Result<Vec<u8>, Memory>
    requires bare { E.live engine.old ≡ map.empty }
    requires room { 65536 ≤ E.limit engine.old }
    requires creatable { IsTrue (is_creatable (E.meaning engine.old) class.0) }
    ensures config { IfOk result (λ config. config.items ≡ initial_config (E.meaning engine.old) class.0) }
    ensures bare { OnOk result (E.live engine.new ≡ map.empty) }
    ensures meaning { E.meaning engine.new ≡ E.meaning engine.old }
    ensures limit { E.limit engine.new ≡ E.limit engine.old }
{
    let slots = slots_that(alloc, engine.schema().slots_of(class), Sort::Config)?;
    let place = match engine.add(class) {
        Ok(place) => place,
        Err(AddRefusal::Memory) => return Err(Memory),
        Err(AddRefusal::DataFull) => unreachable!(),
    };
    let config = first_values(alloc, engine, place, class, &slots)?;
    engine.remove(place);
    Ok(config)
}

// The values in properties of a new object, in the bytes that spell them.
fn first_values<E: Engine>(
    alloc: Global,
    engine: &E,
    place: Place,
    class: TypeNo,
    slots: &[u8],
) -> Result<Vec<u8>, Memory>
    requires new { map.get (E.live engine.now) place.0 ≡ Some (new_object (E.meaning engine.now) class.0) }
    requires properties { IsTrue (list_all (is_property (E.meaning engine.now) class.0) slots.now) }
    ensures { IfOk result (λ bytes. bytes.items ≡ spelling_of_all
        (map_list (slot_value (E.meaning engine.now) (new_object (E.meaning engine.now) class.0)) slots.now)) }
{
    let mut bytes = Vec::new(alloc);
    let mut holder = SlotBuf::new();
    for slot in slots {
        engine.get(place, SlotNo(*slot), &mut holder);
        push_value(&mut bytes, holder.value())?;
    }
    Ok(bytes)
}

// Puts what spells a value behind other bytes.
fn push_value(bytes: &mut Vec<u8>, value: &Value) -> Result<(), Memory>
    ensures { OnOk result (bytes.new.items ≡ bytes.old.items ++ spelling_of value.now) }
{
    let mut spelled = [0; 130];
    let count = write_value(value, &mut spelled);
    bytes.extend_from_slice(&spelled[..count])?;
    Ok(())
}
