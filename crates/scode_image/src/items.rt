//! Reading and writing what stands several times.
ghost use Rattle.std.specs.Prelude.{◌≡◌, ℕ, OnOk};
ghost use Rattle.sed_wire.specs.Form.{Form};
ghost use Rattle.sed_wire.specs.Leaves as leaf;
ghost use Rattle.sed_wire.specs.Row.{times, counted};
ghost use Rattle.scode_image.specs.Steps.{Puts};
ghost use Rattle.sed_wire.specs.Gives.{Gives};

use crate::put::{put_count, put_small_count};
use sed_value::{Items, Memory};
use sed_wire::fields::{u1, u2};
use sed_wire::{Halt, Reader};
use std::alloc::Global;

// What stands in a row.
pub(crate) trait Item: Drop {
    ghost form: { Form Self };

    fn read(alloc: Global, reader: &mut Reader) -> Result<Self, Halt>
        ensures { Gives result reader.new (form.reads reader.old) };

    fn put(&self, into: &mut Vec<u8>) -> Result<(), Memory>
        ensures { OnOk result (Puts form self.now into.old.items into.new.items) };
}

// So many of them.
pub(crate) fn times<T: Item>(
    alloc: Global,
    reader: &mut Reader,
    count: usize,
) -> Result<Items<T>, Halt>
    ensures { Gives result reader.new ((times count T.form).reads reader.old) }
{
    let mut items = Vec::new(alloc);
    for _ in 0..count {
        let next = T::read(alloc, reader)?;
        items.push(next)?;
    }
    Ok(Items::new(items))
}

// Their number in one byte, and then they.
pub(crate) fn few<T: Item>(alloc: Global, reader: &mut Reader) -> Result<Items<T>, Halt>
    ensures { Gives result reader.new ((counted leaf.u1 T.form).reads reader.old) }
{
    let count = u1(reader)?;
    times(alloc, reader, usize::from(count))
}

// Their number in two bytes, and then they.
pub(crate) fn many<T: Item>(alloc: Global, reader: &mut Reader) -> Result<Items<T>, Halt>
    ensures { Gives result reader.new ((counted leaf.u2 T.form).reads reader.old) }
{
    let count = u2(reader)?;
    times(alloc, reader, usize::from(count))
}

// All of them, of whatever number.
pub(crate) fn put_all<T: Item>(into: &mut Vec<u8>, items: &[T]) -> Result<(), Memory>
    ensures { OnOk result ((count : ℕ) → Puts (times count T.form) items.now into.old.items into.new.items) }
{
    for item in items {
        item.put(into)?;
    }
    Ok(())
}

// Their number in one byte, and then they.
pub(crate) fn put_few<T: Item>(into: &mut Vec<u8>, items: &Items<T>) -> Result<(), Memory>
    ensures { OnOk result (Puts (counted leaf.u1 T.form) items.now into.old.items into.new.items) }
{
    put_small_count(into, items.len())?;
    put_all(into, items.as_slice())
}

// Their number in two bytes, and then they.
pub(crate) fn put_many<T: Item>(into: &mut Vec<u8>, items: &Items<T>) -> Result<(), Memory>
    ensures { OnOk result (Puts (counted leaf.u2 T.form) items.now into.old.items into.new.items) }
{
    put_count(into, items.len())?;
    put_all(into, items.as_slice())
}
