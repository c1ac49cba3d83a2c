//! Reading kits.
ghost use Rattle.std.specs.Prelude.{◌≡◌};
ghost use Rattle.sed_wire.specs.Row.{times, counted};
ghost use Rattle.app_front.specs.Form as form;
ghost use Rattle.sed_wire.specs.Leaves as leaf;
ghost use Rattle.sed_wire.specs.Gives.{Gives};

use sed_value::{Items, KitName, KitRef};
use sed_wire::fields::{i4, u1};
use sed_wire::{Halt, Reader};
use std::alloc::Global;

// Their number in one byte, and then they.
pub(crate) fn counted_kits(alloc: Global, reader: &mut Reader) -> Result<Items<KitRef>, Halt>
    ensures { Gives result reader.new ((counted leaf.u1 form.kit).reads reader.old) }
{
    let count = u1(reader)?;
    so_many(alloc, reader, usize::from(count))
}

// So many kits.
fn so_many(alloc: Global, reader: &mut Reader, count: usize) -> Result<Items<KitRef>, Halt>
    ensures { Gives result reader.new ((times count form.kit).reads reader.old) }
{
    let mut items = Vec::new(alloc);
    for _ in 0..count {
        let next = kit(reader)?;
        items.push(next)?;
    }
    Ok(Items::new(items))
}

// A kit: its name and its checksum.
#[tactic(auto, unfolding(crate::specs::Form::kit))]
fn kit(reader: &mut Reader) -> Result<KitRef, Halt>
    ensures { Gives result reader.new (form.kit.reads reader.old) }
{
    let name = kit_name(reader)?;
    let checksum = i4(reader)?;
    Ok(KitRef { name, checksum })
}

// A kit's name, and the 0 behind it.
fn kit_name(reader: &mut Reader) -> Result<KitName, Halt>
    ensures { Gives result reader.new (form.kit_name.reads reader.old) }
{
    let start = reader.rest();
    match reader.str() {
        Ok(characters) => match KitName::read(characters) {
            Some(name) => Ok(name),
            None => {
                *reader = Reader::new(start);
                Err(Halt::Fault)
            }
        },
        Err(_) => Err(Halt::Fault),
    }
}
