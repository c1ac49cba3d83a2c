//! The config values of a new component.
ghost use Rattle.std.specs.Prelude.{◌≡◌, ◌+◌, ◌<◌, [], false, IfSome, IsSomeAnd, Some, None, drop, length, slice_get};
ghost use Rattle.std.specs.FinMap as map;
ghost use Rattle.std.specs.List.{zip};
ghost use Rattle.std.specs.Option.{option_and_then};
ghost use Rattle.sed_typed.specs.Classes.{slots};
ghost use Rattle.sed_value.specs.declared.refusal.Refusal.TheVariants.{BadValue};
ghost use Rattle.sed_engine.specs.Code.{Meaning};
ghost use Rattle.sed_engine.specs.Whole.{KeepsLimits};
ghost use Rattle.node_table.specs.Properties.{config_slots, config_types, with_slots};
ghost use Rattle.node_table.specs.Read.{CanBeHeld, PassesSlot, StoresNext, StoresSlot, config_type_of, refusal_after};
ghost use Rattle.node_table.specs.Read.{refusal_of_values, types_in};
ghost use Rattle.node_table.specs.Values.{AreOfTypes, taken};

use sed_engine::{Engine, Place};
use sed_typed::{Schema, SlotForm, SlotInfo, SlotNo, TypeNo};
use sed_value::{Refusal, SlotBuf, SlotType, Value};
use sed_wire::{Reader, ValueFault};

/// The first refusal of the values that bytes give the config properties of a class, if there is
/// one.
pub fn config_refusal(schema: &Schema, kind: TypeNo, bytes: &[u8]) -> Option<Refusal>
    requires { KeepsLimits schema.now }
    ensures { (m : Meaning) → m.schema ≡ schema.now → result ≡ refusal_of_values (config_types m kind.0) bytes.now }
{
    pass_slots(schema, kind, bytes)
}

// The same, of the slots one after another.
fn pass_slots(schema: &Schema, kind: TypeNo, bytes: &[u8]) -> Option<Refusal>
    requires { CanBeHeld (slots schema.now.classes kind.0) }
    ensures { result ≡ refusal_after false (types_in (slots schema.now.classes kind.0)) bytes.now }
{
    let mut reader = Reader::new(bytes);
    let mut long = false;
    for slot in 0..schema.slot_count(kind) {
        if !pass_slot(schema, kind, slot, &mut reader, &mut long) {
            return Some(Refusal::BadValue);
        }
    }
    last_refusal(&reader, long)
}

// What is refused at the end of all values.
fn last_refusal(reader: &Reader, long: bool) -> Option<Refusal>
    ensures { result ≡ refusal_after long [] reader.now }
{
    if !reader.is_empty() {
        return Some(Refusal::BadValue);
    }
    if long {
        return Some(Refusal::BufferTooLong);
    }
    None
}

// Reads past the value of a slot, where it is a config property: false where there is none.
fn pass_slot(
    schema: &Schema,
    kind: TypeNo,
    slot: usize,
    reader: &mut Reader,
    long: &mut bool,
) -> bool
    requires held { CanBeHeld (slots schema.now.classes kind.0) }
    requires there { slot < length (slots schema.now.classes kind.0) }
    ensures { PassesSlot (drop slot (slots schema.now.classes kind.0))
        (drop (slot + 1) (slots schema.now.classes kind.0)) long.old reader.old result long.new reader.new }
{
    let Some(wanted) = config_type(schema, kind, slot) else {
        return true;
    };
    match reader.value(wanted) {
        Ok(_value) => true,
        Err(ValueFault::TooLong) => {
            *long = true;
            true
        }
        Err(ValueFault::Short) => false,
        Err(ValueFault::BadBool) => false,
    }
}

// The type of a slot, where it is a config property.
fn config_type(schema: &Schema, kind: TypeNo, slot: usize) -> Option<SlotType>
    ensures { result ≡ option_and_then config_type_of (slice_get (slots schema.now.classes kind.0) slot) }
{
    match schema.slots_of(kind).get(slot) {
        Some(info) => type_if_config(info),
        None => None,
    }
}

// The type of a slot, where it is a config property.
fn type_if_config(info: &SlotInfo) -> Option<SlotType>
    ensures { result ≡ config_type_of info.now }
{
    match info.form {
        SlotForm::Prop(kind) if info.config => Some(kind),
        _ => None,
    }
}

/// Stores the values that bytes give the config properties of an object's class, in the order of
/// the slots.
pub fn store_config<E: Engine>(engine: &mut E, place: Place, kind: TypeNo, bytes: &[u8])
    requires live { IsSomeAnd (map.get (E.live engine.old) place.0) (λ o. o.class ≡ kind.0) }
    requires good { refusal_of_values (config_types (E.meaning engine.old) kind.0) bytes.now ≡ None }
    ensures stored { IfSome (map.get (E.live engine.old) place.0)
        (λ o. E.live engine.new ≡ map.insert (E.live engine.old) place.0
        (with_slots (E.meaning engine.old)
        (zip (config_slots (E.meaning engine.old) kind.0)
        (taken (config_types (E.meaning engine.old) kind.0) bytes.now)) o)) }
    ensures meaning { E.meaning engine.new ≡ E.meaning engine.old }
    ensures statics { E.statics engine.new ≡ E.statics engine.old }
    ensures limit { E.limit engine.new ≡ E.limit engine.old }
    ensures fixed { E.fixed engine.new ≡ E.fixed engine.old }
{
    let mut reader = Reader::new(bytes);
    for slot in 0..engine.schema().slot_count(kind) {
        store_slot(engine, place, kind, slot, &mut reader);
    }
}

// Stores the next value in a slot, where it is a config property.
fn store_slot<E: Engine>(
    engine: &mut E,
    place: Place,
    kind: TypeNo,
    slot: usize,
    reader: &mut Reader,
)
    requires live { IsSomeAnd (map.get (E.live engine.old) place.0) (λ o. o.class ≡ kind.0) }
    requires there { slot < length (slots (E.meaning engine.old).schema.classes kind.0) }
    requires good { refusal_after false (types_in (drop slot (slots (E.meaning engine.old).schema.classes kind.0)))
        reader.old ≡ None }
    ensures good { refusal_after false (types_in (drop (slot + 1) (slots (E.meaning engine.old).schema.classes kind.0)))
        reader.new ≡ None }
    ensures stored { IfSome (map.get (E.live engine.old) place.0)
        (λ o. StoresSlot (E.meaning engine.old) (E.live engine.old) (E.live engine.new)
        place.0 o slot (slots (E.meaning engine.old).schema.classes kind.0) reader.old reader.new) }
    ensures meaning { E.meaning engine.new ≡ E.meaning engine.old }
    ensures statics { E.statics engine.new ≡ E.statics engine.old }
    ensures limit { E.limit engine.new ≡ E.limit engine.old }
    ensures fixed { E.fixed engine.new ≡ E.fixed engine.old }
{
    let Some(wanted) = config_type(engine.schema(), kind, slot) else {
        return;
    };
    let Ok(value) = reader.value(wanted) else {
        return;
    };
    let mut holder = SlotBuf::new();
    holder.put(value);
    engine.set(place, SlotNo(slot as u8), &holder);
}

/// Stores values in the config properties of an object's class, in the order of the slots: there is
/// a value of the type of each.
pub fn store_values<E: Engine>(engine: &mut E, place: Place, kind: TypeNo, values: &[Value])
    requires live { IsSomeAnd (map.get (E.live engine.old) place.0) (λ o. o.class ≡ kind.0) }
    requires typed { AreOfTypes (config_types (E.meaning engine.old) kind.0) values.now }
    ensures stored { IfSome (map.get (E.live engine.old) place.0)
        (λ o. E.live engine.new ≡ map.insert (E.live engine.old) place.0
        (with_slots (E.meaning engine.old) (zip (config_slots (E.meaning engine.old) kind.0) values.now) o)) }
    ensures meaning { E.meaning engine.new ≡ E.meaning engine.old }
    ensures statics { E.statics engine.new ≡ E.statics engine.old }
    ensures limit { E.limit engine.new ≡ E.limit engine.old }
    ensures fixed { E.fixed engine.new ≡ E.fixed engine.old }
{
    let mut rest = values;
    for slot in 0..engine.schema().slot_count(kind) {
        rest = store_next(engine, place, kind, slot, rest);
    }
}

// Stores the first of these values in a slot, where it is a config property: the values that are left.
fn store_next<'a, E: Engine>(
    engine: &mut E,
    place: Place,
    kind: TypeNo,
    slot: usize,
    values: &'a [Value],
) -> &'a [Value]
    requires live { IsSomeAnd (map.get (E.live engine.old) place.0) (λ o. o.class ≡ kind.0) }
    requires there { slot < length (slots (E.meaning engine.old).schema.classes kind.0) }
    requires typed { AreOfTypes (types_in (drop slot (slots (E.meaning engine.old).schema.classes kind.0))) values.now }
    ensures typed { AreOfTypes (types_in (drop (slot + 1) (slots (E.meaning engine.old).schema.classes kind.0)))
        result.now }
    ensures stored { IfSome (map.get (E.live engine.old) place.0)
        (λ o. StoresNext (E.meaning engine.old) (E.live engine.old) (E.live engine.new)
        place.0 o slot (slots (E.meaning engine.old).schema.classes kind.0) values.now result.now) }
    ensures meaning { E.meaning engine.new ≡ E.meaning engine.old }
    ensures statics { E.statics engine.new ≡ E.statics engine.old }
    ensures limit { E.limit engine.new ≡ E.limit engine.old }
    ensures fixed { E.fixed engine.new ≡ E.fixed engine.old }
{
    let Some(_wanted) = config_type(engine.schema(), kind, slot) else {
        return values;
    };
    let Some((value, rest)) = values.split_first() else {
        return values;
    };
    let mut holder = SlotBuf::new();
    holder.put(*value);
    engine.set(place, SlotNo(slot as u8), &holder);
    rest
}
