//! Reading and writing methods.
ghost use Rattle.std.specs.Prelude.{◌≡◌, length, ℕ, OnOk};
ghost use Rattle.scode_image.specs.Grammar as grammar;
ghost use Rattle.sed_wire.specs.Leaves as leaf;
ghost use Rattle.scode_image.specs.Steps.{Puts};
ghost use Rattle.sed_wire.specs.Gives.{Gives};

use crate::fields::{run, u1_to, u2_from};
use crate::image::{ImageEntry, ImageKind, ImageMethod};
use crate::items::{Item, few, many, put_all, put_few, put_many, times};
use crate::put::{put_count, put_run, put_u1, put_u2};
use sed_value::{Items, Memory};
use sed_wire::fields::u2;
use sed_wire::{Halt, Reader};
use std::alloc::Global;

impl Item for ImageKind {
    ghost form = { grammar.kind };

    #[tactic(auto, unfolding(crate::specs::Grammar::kind))]
    fn read(_: Global, reader: &mut Reader) -> Result<ImageKind, Halt> {
        let kind = u1_to(reader, 6)?;
        let class = kind_class(reader, kind)?;
        Ok(ImageKind { kind, class })
    }

    fn put(&self, into: &mut Vec<u8>) -> Result<(), Memory> {
        put_u1(into, self.kind)?;
        if self.kind == 6 {
            return put_u2(into, self.class);
        }
        Ok(())
    }
}

// The class of an object's kind; else none stands there.
#[tactic(auto, unfolding(crate::specs::Grammar::kind_class))]
fn kind_class(reader: &mut Reader, kind: u8) -> Result<u16, Halt>
    ensures { Gives result reader.new ((grammar.kind_class kind).reads reader.old) }
{
    if kind == 6 { u2(reader) } else { Ok(0) }
}

// The entry of a method with so many locals, at this place or behind it.
#[tactic(auto, unfolding(crate::specs::Grammar::entry))]
fn entry(
    alloc: Global,
    reader: &mut Reader,
    locals: usize,
    least: usize,
) -> Result<ImageEntry, Halt>
    ensures { Gives result reader.new ((grammar.entry locals least).reads reader.old) }
{
    let place = u2_from(reader, least)?;
    let locals = times(alloc, reader, locals)?;
    let stack = many(alloc, reader)?;
    Ok(ImageEntry {
        place,
        locals,
        stack,
    })
}

// So many entries, whose places ascend.
#[tactic(auto, unfolding(crate::specs::Grammar::entries))]
fn entries(
    alloc: Global,
    reader: &mut Reader,
    locals: usize,
    count: usize,
) -> Result<Items<ImageEntry>, Halt>
    ensures { Gives result reader.new ((grammar.entries locals count).reads reader.old) }
{
    let mut all = Vec::new(alloc);
    let mut least = 0;
    for _ in 0..count {
        let next = entry(alloc, reader, locals, least)?;
        least = usize::from(next.place) + 1;
        all.push(next)?;
    }
    Ok(Items::new(all))
}

#[tactic(auto, unfolding(crate::specs::Grammar::counted_entries))]
fn counted_entries(
    alloc: Global,
    reader: &mut Reader,
    locals: usize,
) -> Result<Items<ImageEntry>, Halt>
    ensures { Gives result reader.new ((grammar.counted_entries locals).reads reader.old) }
{
    let count = u2(reader)?;
    entries(alloc, reader, locals, usize::from(count))
}

fn code(alloc: Global, reader: &mut Reader) -> Result<Items<u8>, Halt>
    ensures { Gives result reader.new ((leaf.counted_run leaf.u2).reads reader.old) }
{
    let size = u2(reader)?;
    run(alloc, reader, usize::from(size))
}

impl Item for ImageMethod {
    ghost form = { grammar.method };

    #[tactic(auto, unfolding(crate::specs::Grammar::method, crate::specs::Grammar::behind_locals))]
    fn read(alloc: Global, reader: &mut Reader) -> Result<ImageMethod, Halt> {
        let class = u2(reader)?;
        let flags = u1_to(reader, 3)?;
        let params = few(alloc, reader)?;
        let result = ImageKind::read(alloc, reader)?;
        let locals = few(alloc, reader)?;
        let stack = u2(reader)?;
        let code = code(alloc, reader)?;
        let entries = counted_entries(alloc, reader, locals.len())?;
        Ok(ImageMethod {
            class,
            flags,
            params,
            result,
            locals,
            stack,
            code,
            entries,
        })
    }

    fn put(&self, into: &mut Vec<u8>) -> Result<(), Memory> {
        put_u2(into, self.class)?;
        put_u1(into, self.flags)?;
        put_few(into, &self.params)?;
        self.result.put(into)?;
        put_few(into, &self.locals)?;
        put_u2(into, self.stack)?;
        put_code(into, &self.code)?;
        put_entries(into, &self.entries)
    }
}

// An entry, of a method with whatever locals and at whatever place.
fn put_entry(into: &mut Vec<u8>, entry: &ImageEntry) -> Result<(), Memory>
    ensures { OnOk result ((locals least : ℕ)
        → Puts (grammar.entry locals least) entry.now into.old.items into.new.items) }
{
    put_u2(into, entry.place)?;
    put_all(into, entry.locals.as_slice())?;
    put_many(into, &entry.stack)
}

#[tactic(auto, unfolding(crate::specs::Grammar::entries))]
fn put_all_entries(into: &mut Vec<u8>, entries: &[ImageEntry]) -> Result<(), Memory>
    ensures { OnOk result ((locals count : ℕ)
        → Puts (grammar.entries locals count) entries.now into.old.items into.new.items) }
{
    for entry in entries {
        put_entry(into, entry)?;
    }
    Ok(())
}

fn put_entries(into: &mut Vec<u8>, entries: &Items<ImageEntry>) -> Result<(), Memory>
    ensures { OnOk result ((locals : ℕ)
        → Puts (grammar.counted_entries locals) entries.now into.old.items into.new.items) }
{
    put_count(into, entries.len())?;
    put_all_entries(into, entries.as_slice())
}

fn put_code(into: &mut Vec<u8>, code: &Items<u8>) -> Result<(), Memory>
    ensures { OnOk result (Puts (leaf.counted_run leaf.u2) code.now into.old.items into.new.items) }
{
    put_count(into, code.len())?;
    put_run(into, code)
}
