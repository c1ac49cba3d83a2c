//! The values of a component's properties.
ghost use Rattle.std.specs.Prelude.{◌≡◌, ◌<◌, ◌≤◌, false, IsSomeAnd, length, slice_get};
ghost use Rattle.std.specs.FinMap as map;
ghost use Rattle.std.specs.Option.{option_map_or};
ghost use Rattle.sed_typed.specs.Classes.{slots};
ghost use Rattle.sed_wire.specs.Writing.{Appends, room};
ghost use Rattle.comp_tree.specs.Held.{components_of};
ghost use Rattle.app_parts.specs.Longest.{longest_values};
ghost use Rattle.app_parts.specs.Values.{is_told, slot_bytes, slot_size, values_bytes};

use crate::put::put_value;
use comp_tree::Tree;
use sed_engine::Engine;
use sed_typed::{Schema, SlotForm, SlotInfo, TypeNo};
use sed_value::{Id, SlotBuf};
use sed_wire::Writer;

/// Which properties are told: those that the application file keeps, or the others.
#[derive(Clone, Copy, Debug, PartialEq, Eq)]
pub enum Values {
    Config,
    Runtime,
}

/// Puts the values of a component's config or runtime properties, in the order of the slots: at most 400 bytes, and no
/// more than those of the class that may have most.
pub fn put_values<E: Engine>(
    writer: &mut Writer,
    tree: &Tree<E>,
    id: Id,
    kind: TypeNo,
    which: Values,
)
    requires class { IsSomeAnd (map.get (components_of E.Engine tree.now).by_id id.0) (λ c. c.class ≡ kind.0) }
    requires room { 400 ≤ room writer.old }
    ensures bytes { Appends writer.old writer.new
        (values_bytes (E.meaning tree.now.engine) (components_of E.Engine tree.now).by_id id.0 kind.0 which) }
    ensures short { length (values_bytes (E.meaning tree.now.engine)
        (components_of E.Engine tree.now).by_id id.0 kind.0 which) ≤ 400 }
    ensures sized { length (values_bytes (E.meaning tree.now.engine) (components_of E.Engine tree.now).by_id
        id.0 kind.0 which) ≤ longest_values which (E.meaning tree.now.engine).schema.classes }
{
    for slot in 0..tree.schema().slot_count(kind) {
        put_slot(writer, tree, id, kind, which, slot);
    }
}

// Puts the value in a slot, where it is told.
fn put_slot<E: Engine>(
    writer: &mut Writer,
    tree: &Tree<E>,
    id: Id,
    kind: TypeNo,
    which: Values,
    slot: usize,
)
    requires class { IsSomeAnd (map.get (components_of E.Engine tree.now).by_id id.0) (λ c. c.class ≡ kind.0) }
    requires there { slot < length (slots (E.meaning tree.now.engine).schema.classes kind.0) }
    requires room { slot_size (E.meaning tree.now.engine) kind.0 which slot ≤ room writer.old }
    ensures bytes { Appends writer.old writer.new
        (slot_bytes (E.meaning tree.now.engine) (components_of E.Engine tree.now).by_id id.0 kind.0 which slot) }
    ensures short { length (slot_bytes (E.meaning tree.now.engine) (components_of E.Engine tree.now).by_id
        id.0 kind.0 which slot) ≤ slot_size (E.meaning tree.now.engine) kind.0 which slot }
{
    if !is_told_slot(tree.schema(), kind, which, slot) {
        return;
    }
    let mut holder = SlotBuf::new();
    match tree.get(id, slot as u8, &mut holder) {
        Ok(()) => put_value(writer, holder.value()),
        Err(_) => unreachable!(),
    }
}

// Whether a slot of a class is told.
fn is_told_slot(schema: &Schema, kind: TypeNo, which: Values, slot: usize) -> bool
    ensures { result ≡ option_map_or (is_told which) (slice_get (slots schema.now.classes kind.0) slot) false }
{
    match schema.slots_of(kind).get(slot) {
        Some(info) => is_told_info(info, which),
        None => false,
    }
}

/// Whether the value of a slot is told.
pub(crate) fn is_told_info(info: &SlotInfo, which: Values) -> bool
    ensures { result ≡ is_told which info.now }
{
    match (info.form, which) {
        (SlotForm::Prop(_), Values::Config) => info.config,
        (SlotForm::Prop(_), Values::Runtime) => !info.config,
        _ => false,
    }
}
