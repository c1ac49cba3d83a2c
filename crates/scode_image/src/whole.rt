//! Reading and writing texts, and an image as a whole.
ghost use Rattle.std.specs.Prelude.{◌≡◌, OnOk};
ghost use Rattle.scode_image.specs.Grammar as grammar;
ghost use Rattle.sed_wire.specs.Leaves as leaf;
ghost use Rattle.scode_image.specs.Steps.{Puts};
ghost use Rattle.sed_wire.specs.Gives.{Gives};

use crate::classes::{put_statics, statics};
use crate::fields::{end, head, version};
use crate::image::Image;
use crate::items::{Item, few, many, put_few, put_many};
use crate::put::{put_end, put_head, put_small_count, put_version};
use sed_typed::Bytes255;
use sed_value::Memory;
use sed_wire::fields::u1;
use sed_wire::{Halt, Reader};
use std::alloc::Global;

impl Item for Bytes255 {
    ghost form = { grammar.literal };

    #[tactic(auto, unfolding(crate::specs::Grammar::literal))]
    fn read(_: Global, reader: &mut Reader) -> Result<Bytes255, Halt> {
        let count = u1(reader)?;
        literal(reader, count)
    }

    fn put(&self, into: &mut Vec<u8>) -> Result<(), Memory> {
        put_small_count(into, self.as_bytes().len())?;
        into.extend_from_slice(self.as_bytes())?;
        Ok(())
    }
}

// A text of so many bytes.
#[tactic(auto, using(sed_wire::proofs::LeafLemmas::run_read, sed_wire::proofs::LeafLemmas::run_short))]
fn literal(reader: &mut Reader, count: u8) -> Result<Bytes255, Halt>
    ensures { Gives result reader.new ((leaf.run count).reads reader.old) }
{
    match reader.take(usize::from(count)) {
        Ok(bytes) => Ok(Bytes255::new(bytes)),
        Err(_) => Err(Halt::Fault),
    }
}

// A whole image; bytes may stand behind it.
#[tactic(auto, unfolding(crate::specs::Grammar::image))]
pub(crate) fn image(alloc: Global, reader: &mut Reader) -> Result<Image, Halt>
    ensures { Gives result reader.new (grammar.image.reads reader.old) }
{
    head(reader)?;
    version(reader)?;
    let kits = few(alloc, reader)?;
    let classes = many(alloc, reader)?;
    let (static_fields, static_bytes) = statics(alloc, reader)?;
    let texts = many(alloc, reader)?;
    let methods = many(alloc, reader)?;
    end(reader)?;
    Ok(Image {
        kits,
        classes,
        static_fields,
        static_bytes,
        texts,
        methods,
    })
}

// A whole image.
pub(crate) fn put_image(into: &mut Vec<u8>, image: &Image) -> Result<(), Memory>
    ensures { OnOk result (Puts grammar.image image.now into.old.items into.new.items) }
{
    put_head(into)?;
    put_version(into)?;
    put_few(into, &image.kits)?;
    put_many(into, &image.classes)?;
    put_statics(into, &image.static_fields, &image.static_bytes)?;
    put_many(into, &image.texts)?;
    put_many(into, &image.methods)?;
    put_end(into)
}
