//! `new`: a store with an application of the App alone.
ghost use Rattle.std.specs.Prelude.{◌≡◌, ◌≤◌, ◌<◌, false, Some, length, IfErr, IfOk, IsTrue, OnOk};
ghost use Rattle.disk_model.specs.Disk.{MarksUp};
ghost use Rattle.sed_outside.specs.Steps.{AndThen};
ghost use Rattle.sed_engine.specs.Program.{meaning_of};
ghost use Rattle.app_writer.specs.Alone.{AllNew};
ghost use Rattle.sedona_words.specs.Asked.{IsMeantStore};
ghost use Rattle.sedona_words.specs.Command as words_of;
ghost use Rattle.sedona_cli.specs.New as meaning;
ghost use Rattle.sedona_cli.specs.New.{LeavesNew, NewOf, most_data};
ghost use Rattle.sedona_cli.specs.Outside.{AsksDisk, HasAsks};
ghost use Rattle.sedona_cli.specs.Program.{ComesOrWants, OrWants};
ghost use Rattle.sedona_cli.specs.Refusals.{is_want};
ghost use Rattle.sedona_cli.specs.Store.{StoreAttached, StoreMade};

use crate::loading::kits_program;
use crate::printing::done_text;
use crate::refusal::Refusal;
use crate::store::{attach_store, make_store};
use app_writer::{NewRefusal, new_stores_open_to_the_app, text_of_alone, the_app_is_small};
use disk_model::Disk;
use scode_compile::Compiled;
use sed_engine::typed_programs_are_whole;
use sed_outside::Files;
use sed_value::limits::MOST_DATA;
use sed_value::{Items, Memory};
use sedona_words::names_in;
use std::alloc::Global;

// The text of the App alone over a program, which a slot has room for.
fn text_for(alloc: Global, program: Compiled, slot: u32) -> Result<Vec<u8>, Refusal>
    ensures text { IfOk result (λ text. text.items ≡ meaning.text_of program) }
    ensures fits { OnOk result (length (meaning.text_of program) ≤ slot) }
    ensures refused { IfErr result (λ refusal. is_want refusal ≡ false →
        (refusal ≡ Refusal.SlotTooSmall (length (meaning.text_of program)) slot)
        × (slot < length (meaning.text_of program))) }
{
    typed_programs_are_whole();
    the_app_is_small();
    let _typed = program.program();
    let engine = match program.machine(alloc, MOST_DATA) {
        Ok(engine) => engine,
        Err(Memory) => return Err(Refusal::Memory),
    };
    match text_of_alone(alloc, engine, slot) {
        Ok(text) => Ok(text),
        Err(NewRefusal::SlotTooSmall { needs }) => Err(Refusal::SlotTooSmall { needs, has: slot }),
        Err(NewRefusal::Memory) => Err(Refusal::Memory),
        Err(NewRefusal::DataFull) => unreachable!(),
    }
}

// Attaches the store and makes it.
fn attach_and_make<D: Disk>(
    disk: &mut D,
    store: &str,
    slot: u32,
    text: &[u8],
) -> Result<(), Refusal>
    requires name { length store.now ≤ 4096 }
    requires some { 1 ≤ slot }
    requires small { slot ≤ 4194304 }
    requires fits { length text.now ≤ slot }
    ensures { AsksDisk D.Disk disk.old disk.new
        (λ asks. AndThen (StoreAttached store.now) (λ attached. StoreMade slot text.now) asks result) }
{
    match attach_store(disk, store) {
        Ok(()) => make_store(disk, slot, text),
        Err(refusal) => Err(refusal),
    }
}

// With a program that is loaded. All memory is taken before the disk is asked for anything.
fn made_of<D: Disk>(
    alloc: Global,
    program: Compiled,
    store: &str,
    slot: u32,
    disk: &mut D,
) -> Result<Items<u8>, Refusal>
    requires name { length store.now ≤ 4096 }
    requires some { 1 ≤ slot }
    requires small { slot ≤ 4194304 }
    ensures asks { AsksDisk D.Disk disk.old disk.new
        (λ asks. OrWants (Some store.now) (NewOf store.now slot program) asks result) }
    ensures mark { OnOk result (MarksUp (D.meaning disk.old) (D.meaning disk.new) 1) }
    ensures opens { IsTrue (D.meaning disk.old).tells
        → OnOk result (AllNew slot (meaning_of program) most_data (D.meaning disk.new)) }
{
    typed_programs_are_whole();
    the_app_is_small();
    new_stores_open_to_the_app();
    let _typed = program.program();
    let text = match text_for(alloc, program, slot) {
        Ok(text) => text,
        Err(refusal) => return Err(refusal),
    };
    let done = match done_text(alloc) {
        Ok(done) => done,
        Err(_) => return Err(Refusal::Memory),
    };
    match attach_and_make(disk, store, slot, &text) {
        Ok(()) => Ok(done),
        Err(refusal) => Err(refusal),
    }
}

/// Makes a store with slots of so many bytes and an application of the App alone over kits, whose manifests have these
/// names with commas between them.
pub fn made<F: Files, D: Disk>(
    alloc: Global,
    kits: &str,
    store: &str,
    slot: u32,
    files: &mut F,
    disk: &mut D,
) -> Result<Items<u8>, Refusal>
    requires { IsMeantStore kits.now store.now slot }
    ensures asks { HasAsks F.Files D.Disk files.old files.new disk.old disk.new
        (λ asks. ComesOrWants (words_of.New (words_of.names_within kits.now) store.now slot) asks result) }
    ensures leaves { OnOk result (LeavesNew F.Files (words_of.names_within kits.now) slot files.old files.new
        (D.meaning disk.old) (D.meaning disk.new)) }
{
    let names = match names_in(alloc, kits) {
        Ok(names) => names,
        Err(_) => return Err(Refusal::Memory),
    };
    match kits_program(alloc, &names, files) {
        Ok(program) => made_of(alloc, program, store, slot, disk),
        Err(refusal) => Err(refusal),
    }
}
