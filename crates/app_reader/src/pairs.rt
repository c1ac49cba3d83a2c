//! Values of slots, pair by pair.
ghost use Rattle.std.specs.Prelude.{◌≡◌, ◌<◌, ◌↔◌, IsTrue, length, slice_get, Some};
ghost use Rattle.sed_engine.specs.Code.{is_property, is_same_field};
ghost use Rattle.app_reader.specs.Pairs.{Agree, AgreesFrom, AreProperties};

use node_table::are_same;
use sed_engine::Engine;
use sed_typed::{SlotNo, TypeNo};
use sed_value::Value;

/// Whether values of slots, as many as there are slots, agree wherever two slots have one field.
pub(crate) fn agree<E: Engine>(engine: &E, kind: TypeNo, numbers: &[u8], values: &[Value]) -> bool
    requires sizes { length numbers.now ≡ length values.now }
    requires properties { AreProperties (E.meaning engine.now) kind.0 numbers.now }
    ensures { IsTrue result ↔ Agree (E.meaning engine.now) kind.0 numbers.now values.now }
{
    for first in 0..numbers.len() {
        if !agrees_from(engine, kind, numbers, values, first) {
            return false;
        }
    }
    true
}

// Whether the value at a place agrees with those behind it.
fn agrees_from<E: Engine>(
    engine: &E,
    kind: TypeNo,
    numbers: &[u8],
    values: &[Value],
    first: usize,
) -> bool
    requires sizes { length numbers.now ≡ length values.now }
    requires properties { AreProperties (E.meaning engine.now) kind.0 numbers.now }
    requires within { first < length numbers.now }
    ensures { IsTrue result ↔ AgreesFrom (E.meaning engine.now) kind.0 numbers.now values.now first }
{
    for other in first + 1..numbers.len() {
        let one = number_at(numbers, first);
        let two = number_at(numbers, other);
        if !pair_agrees(engine, kind, one, two, &values[first], &values[other]) {
            return false;
        }
    }
    true
}

// Whether two values are the same, where their slots have one field.
fn pair_agrees<E: Engine>(engine: &E, kind: TypeNo, one: u8, two: u8, v: &Value, w: &Value) -> bool
    requires first { IsTrue (is_property (E.meaning engine.now) kind.0 one) }
    requires other { IsTrue (is_property (E.meaning engine.now) kind.0 two) }
    ensures { IsTrue result ↔ (IsTrue (is_same_field (E.meaning engine.now) kind.0 one two) → v.now ≡ w.now) }
{
    if engine.same_field(kind, SlotNo(one), SlotNo(two)) {
        return are_same(v, w);
    }
    true
}

fn number_at(numbers: &[u8], place: usize) -> u8
    requires { place < length numbers.now }
    ensures { slice_get numbers.now place ≡ Some result }
{
    numbers[place]
}
