//! Reading and writing kits, classes and the static block.
ghost use Rattle.std.specs.Prelude.{◌≡◌, OnOk};
ghost use Rattle.scode_image.specs.Grammar as grammar;
ghost use Rattle.sed_wire.specs.Leaves as leaf;
ghost use Rattle.scode_image.specs.Steps.{Puts};
ghost use Rattle.sed_wire.specs.Gives.{Gives};

use crate::fields::{field_form, run, slot_form, text, u1_to};
use crate::image::{ImageClass, ImageField, ImageKit, ImageSlot};
use crate::items::{Item, few, many, put_few, put_many};
use crate::put::{put_count, put_i4, put_run, put_text, put_u1, put_u2};
use sed_value::{Items, Memory};
use sed_wire::fields::{i4, u1, u2};
use sed_wire::{Halt, Reader};
use std::alloc::Global;

impl Item for ImageKit {
    ghost form = { grammar.kit };

    #[tactic(auto, unfolding(crate::specs::Grammar::kit))]
    fn read(alloc: Global, reader: &mut Reader) -> Result<ImageKit, Halt> {
        let name = text(alloc, reader)?;
        let checksum = i4(reader)?;
        Ok(ImageKit { name, checksum })
    }

    fn put(&self, into: &mut Vec<u8>) -> Result<(), Memory> {
        put_text(into, &self.name)?;
        put_i4(into, self.checksum)
    }
}

impl Item for ImageField {
    ghost form = { grammar.field };

    #[tactic(auto, unfolding(crate::specs::Grammar::field))]
    fn read(_: Global, reader: &mut Reader) -> Result<ImageField, Halt> {
        let offset = u2(reader)?;
        let form = field_form(reader)?;
        let n = u2(reader)?;
        Ok(ImageField { offset, form, n })
    }

    fn put(&self, into: &mut Vec<u8>) -> Result<(), Memory> {
        put_u2(into, self.offset)?;
        put_u1(into, self.form)?;
        put_u2(into, self.n)
    }
}

impl Item for ImageSlot {
    ghost form = { grammar.slot };

    #[tactic(auto, unfolding(crate::specs::Grammar::slot))]
    fn read(alloc: Global, reader: &mut Reader) -> Result<ImageSlot, Halt> {
        let name = text(alloc, reader)?;
        let form = slot_form(reader)?;
        let place = u2(reader)?;
        let n = u2(reader)?;
        let config = u1_to(reader, 1)?;
        Ok(ImageSlot {
            name,
            form,
            place,
            n,
            config,
        })
    }

    fn put(&self, into: &mut Vec<u8>) -> Result<(), Memory> {
        put_text(into, &self.name)?;
        put_u1(into, self.form)?;
        put_u2(into, self.place)?;
        put_u2(into, self.n)?;
        put_u1(into, self.config)
    }
}

impl Item for u16 {
    ghost form = { leaf.u2 };

    fn read(_: Global, reader: &mut Reader) -> Result<u16, Halt> {
        u2(reader)
    }

    fn put(&self, into: &mut Vec<u8>) -> Result<(), Memory> {
        put_u2(into, *self)
    }
}

impl Item for ImageClass {
    ghost form = { grammar.class };

    #[tactic(auto, unfolding(crate::specs::Grammar::class, crate::specs::Grammar::behind, crate::specs::Grammar::body))]
    fn read(alloc: Global, reader: &mut Reader) -> Result<ImageClass, Halt> {
        let kit = u1(reader)?;
        let number = u1(reader)?;
        let name = text(alloc, reader)?;
        let base = u2(reader)?;
        let flags = u1_to(reader, 3)?;
        let size = u2(reader)?;
        let fields = many(alloc, reader)?;
        let slots = few(alloc, reader)?;
        let table = few(alloc, reader)?;
        let contents = run(alloc, reader, usize::from(size))?;
        Ok(ImageClass {
            kit,
            number,
            name,
            base,
            flags,
            fields,
            slots,
            table,
            contents,
        })
    }

    fn put(&self, into: &mut Vec<u8>) -> Result<(), Memory> {
        put_u1(into, self.kit)?;
        put_u1(into, self.number)?;
        put_text(into, &self.name)?;
        put_u2(into, self.base)?;
        put_u1(into, self.flags)?;
        put_count(into, self.contents.len())?;
        put_many(into, &self.fields)?;
        put_few(into, &self.slots)?;
        put_few(into, &self.table)?;
        put_run(into, &self.contents)
    }
}

// The fields and first bytes of the static block.
#[tactic(auto, unfolding(crate::specs::Grammar::statics, crate::specs::Grammar::block))]
pub(crate) fn statics(
    alloc: Global,
    reader: &mut Reader,
) -> Result<(Items<ImageField>, Items<u8>), Halt>
    ensures { Gives result reader.new (grammar.statics.reads reader.old) }
{
    let size = u2(reader)?;
    let fields = many(alloc, reader)?;
    let bytes = run(alloc, reader, usize::from(size))?;
    Ok((fields, bytes))
}

pub(crate) fn put_statics(
    into: &mut Vec<u8>,
    fields: &Items<ImageField>,
    bytes: &Items<u8>,
) -> Result<(), Memory>
    ensures { OnOk result (Puts grammar.statics (fields.now, bytes.now) into.old.items into.new.items) }
{
    put_count(into, bytes.len())?;
    put_many(into, fields)?;
    put_run(into, bytes)
}
