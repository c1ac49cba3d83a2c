//! Components by their places.
ghost use Rattle.std.specs.Prelude.{◌≡◌, ◌<◌, None, Some, IfOk, IfSome, OnErr, IsTrue, slice_get};
ghost use Rattle.std.specs.FinMap as map;
ghost use Rattle.std.specs.Option.{option_map_or};
ghost use Rattle.slab.specs.Slab.{get, ContainsKey, Updates};
ghost use Rattle.sed_engine.specs.Code.{may_store, with_slot};
ghost use Rattle.sed_engine.specs.Program.{meaning_of};
ghost use Rattle.sed_engine.specs.Whole.{HasTables, IsObject};
ghost use Rattle.sed_walker.specs.Held.{live_of, object_seen};

use crate::SlotPlan;
use sed_cells::Cells;
use sed_engine::Place;
use sed_typed::{Schema, SlotNo, TypeNo};
use sed_value::{Memory, Value};
use slab::Slab;

/// A component: its class, and the cells that keep its contents.
#[derive(Drop)]
pub struct Component {
    pub class: u16,
    pub cells: Cells,
}

/// Puts a component under a key that had none. `Memory` comes also where the key is no number of a place.
pub fn put_new(components: &mut Slab<Component>, component: Component) -> Result<Place, Memory>
    ensures fresh { IfOk result (λ p. get components.old p.0 ≡ None) }
    ensures put { IfOk result (λ p. Updates components.old components.new p.0 (Some component)) }
    ensures refused { OnErr result (components.new.slots ≡ components.old.slots) }
{
    if components.vacant_key() > u32::MAX as usize {
        return Err(Memory);
    }
    match components.insert(component) {
        Ok(key) => Ok(Place(key as u32)),
        Err(_) => Err(Memory),
    }
}

/// Stores a value in a property of the component under a key.
pub fn store(
    plan: &SlotPlan,
    components: &mut Slab<Component>,
    key: usize,
    slot: SlotNo,
    value: &Value,
)
    requires there { ContainsKey components.old key }
    requires tables { HasTables (meaning_of plan.now.program) }
    requires object { IfSome (get components.old key) (λ c.
        IsObject (meaning_of plan.now.program) (object_seen plan.now c)) }
    requires may { IfSome (get components.old key) (λ c.
        IsTrue (may_store (meaning_of plan.now.program) c.class slot.0 value.now)) }
    ensures { IfSome (get components.old key) (λ c.
        live_of plan.now components.new ≡ map.insert (live_of plan.now components.old) key
        (with_slot (meaning_of plan.now.program) (object_seen plan.now c) slot.0 value.now)) }
{
    let mut component = components.remove(key);
    plan.store(component.class, &mut component.cells, slot, value);
    let _same = components.insert_reserved(component);
}

/// The bytes of data of an object of a class, 0 where there is no such class.
pub fn size_of(schema: &Schema, class: u16) -> u32
    ensures { result ≡ option_map_or (λ c. c.size) (slice_get schema.now.classes class) 0 }
{
    match schema.class(TypeNo(class)) {
        Some(info) => info.size,
        None => 0,
    }
}
