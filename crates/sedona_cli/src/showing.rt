//! `show`: the application of a store, printed.
ghost use Rattle.std.specs.Prelude.{◌≤◌, Some, length};
ghost use Rattle.sed_engine.specs.Program.{meaning_of};
ghost use Rattle.sedona_words.specs.Asked.{IsMeantStore};
ghost use Rattle.sedona_words.specs.Command as words_of;
ghost use Rattle.sedona_cli.specs.Outside.{AsksDisk, HasAsks};
ghost use Rattle.sedona_cli.specs.Program.{ComesOrWants, OrWants};
ghost use Rattle.sedona_cli.specs.Show.{PrintedOrWants, ShowOf};

use crate::loading::kits_program;
use crate::printing::application_text;
use crate::refusal::{Refusal, of_app};
use crate::store::{attach_store, open_store};
use app_reader::read_app;
use disk_model::Disk;
use scode_compile::Compiled;
use sed_engine::typed_programs_are_whole;
use sed_outside::Files;
use sed_typed::schema_is_spelled_out;
use sed_value::{Items, Memory};
use sedona_words::names_in;
use std::alloc::Global;

// The text of the application in a payload.
fn printed(
    alloc: Global,
    program: Compiled,
    limit: u32,
    payload: &[u8],
) -> Result<Items<u8>, Refusal>
    requires some { 1 ≤ limit }
    requires most { limit ≤ 4194304 }
    ensures { PrintedOrWants (meaning_of program) limit payload.now result }
{
    typed_programs_are_whole();
    schema_is_spelled_out(&program.program().schema);
    let engine = match program.machine(alloc, limit) {
        Ok(engine) => engine,
        Err(Memory) => return Err(Refusal::Memory),
    };
    let app = match read_app(alloc, payload, engine) {
        Ok(app) => app,
        Err(refusal) => return Err(of_app(refusal)),
    };
    match application_text(alloc, &app) {
        Ok(text) => {
            drop(app);
            Ok(text)
        }
        Err(Memory) => {
            drop(app);
            Err(Refusal::Memory)
        }
    }
}

// With a program that is loaded.
fn shown_of<D: Disk>(
    alloc: Global,
    program: Compiled,
    store: &str,
    limit: u32,
    disk: &mut D,
) -> Result<Items<u8>, Refusal>
    requires name { length store.now ≤ 4096 }
    requires some { 1 ≤ limit }
    requires most { limit ≤ 4194304 }
    ensures { AsksDisk D.Disk disk.old disk.new
        (λ asks. OrWants (Some store.now) (ShowOf store.now limit program) asks result) }
{
    match attach_store(disk, store) {
        Ok(()) => {}
        Err(refusal) => {
            drop(program);
            return Err(refusal);
        }
    }
    match open_store(alloc, disk) {
        Ok(payload) => printed(alloc, program, limit, payload.as_slice()),
        Err(refusal) => {
            drop(program);
            Err(refusal)
        }
    }
}

/// The text of the application that a store opens to over kits, whose manifests have these names with commas between
/// them, with at most so many bytes of data. Nothing is written, and nothing of the application is run.
pub fn shown<F: Files, D: Disk>(
    alloc: Global,
    kits: &str,
    store: &str,
    limit: u32,
    files: &mut F,
    disk: &mut D,
) -> Result<Items<u8>, Refusal>
    requires { IsMeantStore kits.now store.now limit }
    ensures { HasAsks F.Files D.Disk files.old files.new disk.old disk.new
        (λ asks. ComesOrWants (words_of.Show (words_of.names_within kits.now) store.now limit) asks result) }
{
    let names = match names_in(alloc, kits) {
        Ok(names) => names,
        Err(_) => return Err(Refusal::Memory),
    };
    match kits_program(alloc, &names, files) {
        Ok(program) => shown_of(alloc, program, store, limit, disk),
        Err(refusal) => Err(refusal),
    }
}
