//! Reading the components of a file.
ghost use Rattle.std.specs.Prelude.{◌≡◌};
ghost use Rattle.sed_engine.specs.Whole.{KeepsLimits};
ghost use Rattle.sed_wire.specs.Gives.{Gives};
ghost use Rattle.app_front.specs.RowForm as form;

use crate::rows::FileRow;
use crate::values::values;
use sed_typed::{Schema, TypeNo};
use sed_value::{Id, Items, Name, Value};
use sed_wire::fields::{mark_1, u1, u2};
use sed_wire::{Halt, Reader};
use std::alloc::Global;

// The components up to the mark behind them, where they are fewer than so many.
pub(crate) fn components(
    alloc: Global,
    schema: &Schema,
    reader: &mut Reader,
    most: usize,
) -> Result<Items<FileRow>, Halt>
    requires { KeepsLimits schema.now }
    ensures { Gives result reader.new ((form.rows schema.now.classes most).reads reader.old) }
{
    let mut items = Vec::new(alloc);
    for _ in 0..most {
        let id = u2(reader)?;
        if id == 0xffff {
            return Ok(Items::new(items));
        }
        let next = component_behind(alloc, schema, reader, id)?;
        items.push(next)?;
    }
    Err(Halt::Fault)
}

// A component with this id, behind the id.
#[tactic(auto, unfolding(crate::specs::RowForm::row_behind))]
fn component_behind(
    alloc: Global,
    schema: &Schema,
    reader: &mut Reader,
    number: u16,
) -> Result<FileRow, Halt>
    requires { KeepsLimits schema.now }
    ensures { Gives result reader.new ((form.row_behind schema.now.classes number).reads reader.old) }
{
    let kind = class(schema, reader)?;
    let name = name(reader)?;
    let parent = id_or_none(reader)?;
    let first_child = id_or_none(reader)?;
    let next_sibling = id_or_none(reader)?;
    let config = config(alloc, schema, reader, kind)?;
    row_end(reader)?;
    Ok(FileRow {
        id: Id(number),
        kind,
        name,
        parent,
        first_child,
        next_sibling,
        config,
    })
}

// The class with the kit and the number that stand there.
#[tactic(auto, unfolding(crate::specs::RowForm::class, sed_wire::specs::Leaves::u1))]
fn class(schema: &Schema, reader: &mut Reader) -> Result<TypeNo, Halt>
    ensures { Gives result reader.new ((form.class schema.now.classes).reads reader.old) }
{
    let kit = u1(reader)?;
    let number = u1(reader)?;
    match schema.type_of(kit, number) {
        Some(kind) => Ok(kind),
        None => Err(Halt::Fault),
    }
}

// An id, or the number that no component has.
#[tactic(auto, unfolding(crate::specs::RowForm::id, sed_wire::specs::Leaves::u2))]
fn id_or_none(reader: &mut Reader) -> Result<Option<Id>, Halt>
    ensures { Gives result reader.new (form.id.reads reader.old) }
{
    let number = u2(reader)?;
    Ok(id_of(number))
}

// The id that a number is.
fn id_of(number: u16) -> Option<Id>
    ensures { result ≡ form.id_of number }
{
    if number == 0xffff {
        None
    } else {
        Some(Id(number))
    }
}

// A component's name, and the 0 behind it.
fn name(reader: &mut Reader) -> Result<Name, Halt>
    ensures { Gives result reader.new (form.name.reads reader.old) }
{
    let start = reader.rest();
    match reader.str() {
        Ok(characters) => match Name::read(characters) {
            Some(name) => Ok(name),
            None => {
                *reader = Reader::new(start);
                Err(Halt::Fault)
            }
        },
        Err(_) => Err(Halt::Fault),
    }
}

// The values of the config properties of a class.
#[tactic(auto, unfolding(crate::specs::RowForm::config))]
fn config(
    alloc: Global,
    schema: &Schema,
    reader: &mut Reader,
    kind: TypeNo,
) -> Result<Items<Value>, Halt>
    requires { KeepsLimits schema.now }
    ensures { Gives result reader.new ((form.config schema.now.classes kind.0).reads reader.old) }
{
    values(alloc, schema.slots_of(kind), reader)
}

// What ends a component.
#[tactic(auto, unfolding(crate::specs::RowForm::row_end))]
fn row_end(reader: &mut Reader) -> Result<(), Halt>
    ensures { Gives result reader.new (form.row_end.reads reader.old) }
{
    mark_1(reader, 0x3b)
}
