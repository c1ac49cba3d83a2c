//! The types of which components are added.
ghost use Rattle.std.specs.Prelude.{◌≡◌, ◌≤◌, ◌++◌, Some, IfOk, OnOk, IsTrue};
ghost use Rattle.std.specs.FinMap as map;
ghost use Rattle.sed_engine.specs.Code.{is_creatable};
ghost use Rattle.record_making.specs.Types as meaning;

use crate::class::{FOLDER, drawn_class, int_slots, type_count};
use crate::config::initial_config;
use replay_log::GenType;
use sed_engine::Engine;
use sed_typed::TypeNo;
use sed_value::{Items, Memory};
use std::alloc::Global;

/// The types of which components may be drawn, over an engine without live places that has room for one object of any
/// class: all component types that are not abstract but for the App and `Folder`, by kit and number, and `Folder` alone
/// where there are no others.
pub(crate) fn drawn_types<E: Engine>(
    alloc: Global,
    engine: &mut E,
) -> Result<Items<GenType>, Memory>
    requires bare { E.live engine.old ≡ map.empty }
    requires room { 65536 ≤ E.limit engine.old }
    ensures { IfOk result (λ types. types ≡ meaning.drawn_types (E.meaning engine.old)) }
{
    let mut types = Vec::new(alloc);
    push_kits(engine, &mut types)?;
    if types.is_empty() {
        push_folder(engine, &mut types)?;
    }
    Ok(Items::new(types))
}

// Puts the types of all kits behind others.
fn push_kits<E: Engine>(engine: &mut E, types: &mut Vec<GenType>) -> Result<(), Memory>
    requires bare { E.live engine.old ≡ map.empty }
    requires room { 65536 ≤ E.limit engine.old }
    ensures types { OnOk result (types.new.items ≡ types.old.items ++ meaning.types_in_kits (E.meaning engine.old)) }
    ensures bare { OnOk result (E.live engine.new ≡ map.empty) }
    ensures meaning { E.meaning engine.new ≡ E.meaning engine.old }
    ensures limit { E.limit engine.new ≡ E.limit engine.old }
{
    let kits = engine.schema().kits.len();
    for kit in 0..kits {
        push_kit(engine, types, kit as u8)?;
    }
    Ok(())
}

// Puts the types of a kit behind others.
fn push_kit<E: Engine>(engine: &mut E, types: &mut Vec<GenType>, kit: u8) -> Result<(), Memory>
    requires bare { E.live engine.old ≡ map.empty }
    requires room { 65536 ≤ E.limit engine.old }
    ensures types { OnOk result (types.new.items ≡ types.old.items ++ meaning.types_in_kit (E.meaning engine.old) kit) }
    ensures bare { OnOk result (E.live engine.new ≡ map.empty) }
    ensures meaning { E.meaning engine.new ≡ E.meaning engine.old }
    ensures limit { E.limit engine.new ≡ E.limit engine.old }
{
    let count = type_count(engine.schema().classes.as_slice(), kit);
    for number in 0..count {
        push_drawn(engine, types, kit, number as u8)?;
    }
    Ok(())
}

// Puts the type of a kit with a number behind others, where components of it may be drawn.
fn push_drawn<E: Engine>(
    engine: &mut E,
    types: &mut Vec<GenType>,
    kit: u8,
    number: u8,
) -> Result<(), Memory>
    requires bare { E.live engine.old ≡ map.empty }
    requires room { 65536 ≤ E.limit engine.old }
    ensures types { OnOk result (types.new.items ≡ types.old.items ++ meaning.type_if (E.meaning engine.old) kit number
        (meaning.drawn_class (E.meaning engine.old).schema.classes kit number)) }
    ensures bare { OnOk result (E.live engine.new ≡ map.empty) }
    ensures meaning { E.meaning engine.new ≡ E.meaning engine.old }
    ensures limit { E.limit engine.new ≡ E.limit engine.old }
{
    let Some(class) = drawn_class(engine.schema(), kit, number) else {
        return Ok(());
    };
    push_type(engine, types, kit, number, class)
}

// Puts `Folder` behind others.
fn push_folder<E: Engine>(engine: &mut E, types: &mut Vec<GenType>) -> Result<(), Memory>
    requires bare { E.live engine.old ≡ map.empty }
    requires room { 65536 ≤ E.limit engine.old }
    ensures { OnOk result (types.new.items ≡ types.old.items ++ meaning.folder_alone (E.meaning engine.old)) }
{
    let Some(class) = engine.schema().type_of(0, FOLDER) else {
        return Ok(());
    };
    push_type(engine, types, 0, FOLDER, class)
}

// Puts the type of a kit with a number behind others, which is this class.
fn push_type<E: Engine>(
    engine: &mut E,
    types: &mut Vec<GenType>,
    kit: u8,
    number: u8,
    class: TypeNo,
) -> Result<(), Memory>
    requires bare { E.live engine.old ≡ map.empty }
    requires room { 65536 ≤ E.limit engine.old }
    requires creatable { IsTrue (is_creatable (E.meaning engine.old) class.0) }
    ensures types { OnOk result (types.new.items
        ≡ types.old.items ++ meaning.type_if (E.meaning engine.old) kit number (Some class.0)) }
    ensures bare { OnOk result (E.live engine.new ≡ map.empty) }
    ensures meaning { E.meaning engine.new ≡ E.meaning engine.old }
    ensures limit { E.limit engine.new ≡ E.limit engine.old }
{
    let alloc = *types.allocator();
    let config = initial_config(alloc, engine, class)?;
    let ints = int_slots(alloc, engine.schema(), class)?;
    types.push(GenType {
        kit,
        number,
        config: Items::new(config),
        ints: Items::new(ints),
    })?;
    Ok(())
}
