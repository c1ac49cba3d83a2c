//! Reading the fields that an image is made of.
ghost use Rattle.std.specs.Prelude.{◌≡◌, ◌<◌};
ghost use Rattle.scode_image.specs.Grammar as grammar;
ghost use Rattle.sed_wire.specs.Leaves as leaf;
ghost use Rattle.scode_image.specs.Steps.{Makes};
ghost use Rattle.sed_wire.specs.Gives.{Gives};

use sed_value::Items;
use sed_wire::fields::{mark_1, mark_4, u1, u2};
use sed_wire::{Halt, Reader};
use std::alloc::Global;

// A number that is at most so much.
#[tactic(auto, unfolding(crate::specs::Grammar::u1_to))]
pub(crate) fn u1_to(reader: &mut Reader, most: u8) -> Result<u8, Halt>
    ensures { Gives result reader.new ((grammar.u1_to most).reads reader.old) }
{
    let start = reader.rest();
    let number = u1(reader)?;
    if number > most {
        *reader = Reader::new(start);
        return Err(Halt::Fault);
    }
    Ok(number)
}

// A number that is at least so much.
#[tactic(auto, unfolding(crate::specs::Grammar::u2_from))]
pub(crate) fn u2_from(reader: &mut Reader, least: usize) -> Result<u16, Halt>
    ensures { Gives result reader.new ((grammar.u2_from least).reads reader.old) }
{
    let start = reader.rest();
    let number = u2(reader)?;
    if usize::from(number) < least {
        *reader = Reader::new(start);
        return Err(Halt::Fault);
    }
    Ok(number)
}

#[tactic(auto, unfolding(crate::specs::Grammar::field_form))]
pub(crate) fn field_form(reader: &mut Reader) -> Result<u8, Halt>
    ensures { Gives result reader.new (grammar.field_form.reads reader.old) }
{
    let start = reader.rest();
    let form = u1(reader)?;
    if !is_field_form(form) {
        *reader = Reader::new(start);
        return Err(Halt::Fault);
    }
    Ok(form)
}

fn is_field_form(form: u8) -> bool
    ensures { result ≡ grammar.is_field_form form }
{
    1 <= form && form <= 13
}

#[tactic(auto, unfolding(crate::specs::Grammar::slot_form))]
pub(crate) fn slot_form(reader: &mut Reader) -> Result<u8, Halt>
    ensures { Gives result reader.new (grammar.slot_form.reads reader.old) }
{
    let start = reader.rest();
    let form = u1(reader)?;
    if !is_slot_form(form) {
        *reader = Reader::new(start);
        return Err(Halt::Fault);
    }
    Ok(form)
}

fn is_slot_form(form: u8) -> bool
    ensures { result ≡ grammar.is_slot_form form }
{
    matches!(form, 1..=5 | 7 | 0x10..=0x13)
}

// The mark in front of an image.
#[tactic(auto, unfolding(crate::specs::Grammar::head))]
pub(crate) fn head(reader: &mut Reader) -> Result<(), Halt>
    ensures { Gives result reader.new (grammar.head.reads reader.old) }
{
    mark_4(reader, 0x5343_4430)
}

#[tactic(auto, unfolding(crate::specs::Grammar::version))]
pub(crate) fn version(reader: &mut Reader) -> Result<(), Halt>
    ensures { Gives result reader.new (grammar.version.reads reader.old) }
{
    mark_1(reader, 1)
}

// The mark behind an image.
#[tactic(auto, unfolding(crate::specs::Grammar::end))]
pub(crate) fn end(reader: &mut Reader) -> Result<(), Halt>
    ensures { Gives result reader.new (grammar.end.reads reader.old) }
{
    mark_1(reader, 0x2e)
}

// Characters, and the 0 that ends them.
#[tactic(auto, using(sed_wire::proofs::LeafLemmas::text_read))]
pub(crate) fn text(alloc: Global, reader: &mut Reader) -> Result<Items<u8>, Halt>
    ensures { Gives result reader.new (leaf.text.reads reader.old) }
{
    match reader.str() {
        Ok(characters) => copied(alloc, characters),
        Err(_) => Err(Halt::Fault),
    }
}

// So many bytes.
#[tactic(auto, using(sed_wire::proofs::LeafLemmas::run_read, sed_wire::proofs::LeafLemmas::run_short))]
pub(crate) fn run(alloc: Global, reader: &mut Reader, count: usize) -> Result<Items<u8>, Halt>
    ensures { Gives result reader.new ((leaf.run count).reads reader.old) }
{
    match reader.take(count) {
        Ok(bytes) => copied(alloc, bytes),
        Err(_) => Err(Halt::Fault),
    }
}

fn copied(alloc: Global, bytes: &[u8]) -> Result<Items<u8>, Halt>
    ensures { Makes result bytes.now }
{
    let all = Vec::from_slice(alloc, bytes)?;
    Ok(Items::new(all))
}
