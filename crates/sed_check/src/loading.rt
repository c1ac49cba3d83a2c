//! The loading of programs.
ghost use Rattle.std.specs.Prelude.{◌≡◌, ◌≢◌, ◌≤◌, ℕ, List, Result, Err, length, IfOk};
ghost use Rattle.sed_outside.specs.Steps.{Read, UnlessFree};
ghost use Rattle.sed_outside.specs.Reads.{AreKnown, HasReads};
ghost use Rattle.kit_sources.specs.Sources.{names_of};
ghost use Rattle.sed_engine.specs.Runnable.{IsRunnable};
ghost use Rattle.sed_outside.specs.Cause.{Rose};
ghost use Rattle.sed_typed.specs.Typed.{Typed};
ghost use Rattle.sed_typed.specs.declared.program.Program.{Program};
ghost use Rattle.sed_check.specs.declared.refusal.KitsRefusal.{KitsRefusal};
ghost use Rattle.sed_check.specs.Refusals.{is_want, IsFileFault, EndsAs};
ghost use Rattle.sed_check.specs.Loading as meaning;
ghost use Rattle.sed_check.specs.Loading.{KitsLoaded, TextLoaded};

use crate::kit_laws::{failed_loads_are_told, loads_agree};
use crate::kits_checking::checked;
use crate::refusal::{KitsRefusal, of_sources};
use crate::{first_classes_run, units_are_read};
use kit_manifest::Text;
use kit_sources::{Sources, kits_are_counted, kits_are_named, read_kits, read_source};
use sed_classes::KitUnits;
use sed_outside::Files;
use sed_typed::Program;
use sed_units::Unit;
use sed_value::{Items, KitName};
use std::alloc::{AllocError, Global};

// The kits that are read, checked.
fn read_and_checked<F: Files>(
    alloc: Global,
    names: &[String],
    files: &mut F,
) -> Result<Program, KitsRefusal>
    requires { length names.now ≤ 15 }
    ensures loaded { HasReads F.Files files.old files.new
        (λ reads. UnlessFree is_want (KitsLoaded (names_of names.now) reads) result) }
    ensures typed { IfOk result Typed }
{
    kits_are_counted();
    kits_are_named();
    units_are_read();
    match read_kits(alloc, names, files) {
        Ok(sources) => checked(alloc, &sources, false),
        Err(refusal) => Err(of_sources(refusal)),
    }
}

/// The program of the kits of the manifests of these names, 1 to 15 of them.
///
/// The manifests are read in the order of the names, then the kits are ordered, then their sources are read, lexed and
/// parsed one after another, and then all are checked. The first refusal ends it, and nothing more is read.
/// `KitsLoaded` says all this, and `Memory` may come in place of each end; a program comes from accepted kits alone
/// (`accepted_kits_load`). No file changes.
///
/// A `FileFault` comes only where the count of failed reads of its file rose, and wherever a count did.
pub fn load_kits<F: Files>(
    alloc: Global,
    names: &[String],
    files: &mut F,
) -> Result<Program, KitsRefusal>
    requires { length names.now ≤ 15 }
    ensures loaded { HasReads F.Files files.old files.new
        (λ reads. UnlessFree is_want (KitsLoaded (names_of names.now) reads) result) }
    ensures typed { IfOk result Typed }

    // What the files are told to hold decides how it ends, but where a file could not be read.
    ensures comes { (told : List Read) (end : Result Program KitsRefusal) → AreKnown (F.known files.old) told
        → KitsLoaded (names_of names.now) told end → UnlessFree is_want (EndsAs end) result }

    ensures file_fault { (file : List ℕ) → result ≡ Err (KitsRefusal.FileFault file)
        → Rose (F.failed_reads files.old file) (F.failed_reads files.new file) }
    ensures file_fault_comes { (file : List ℕ) → F.failed_reads files.new file ≢ F.failed_reads files.old file
        → UnlessFree is_want IsFileFault result }

    ensures files { F.known files.new ≡ F.known files.old }
    ensures writes { F.failed_writes files.new ≡ F.failed_writes files.old }
{
    loads_agree();
    failed_loads_are_told();
    read_and_checked(alloc, names, files)
}

// The kit `local` of one source.
fn local(alloc: Global, name: &str, unit: Unit) -> Result<Sources, AllocError>
    ensures { IfOk result (λ sources. sources ≡ meaning.local name.now unit) }
{
    let mut units = Vec::new(alloc);
    units.push(unit)?;
    let mut kits = Vec::new(alloc);
    kits.push(KitUnits {
        kit: KitName::read(b"local".as_slice()).unwrap(),
        depends: Items::new(Vec::new(alloc)),
        units: Items::new(units),
    })?;
    let mut files = Vec::new(alloc);
    files.push(Text::new(String::from_str(alloc, name)?))?;
    Ok(Sources {
        kits: Items::new(kits),
        files: Items::new(files),
    })
}

// The one source that is read, checked.
fn read_and_checked_alone<F: Files>(
    alloc: Global,
    name: &str,
    files: &mut F,
) -> Result<Program, KitsRefusal>
    ensures loaded { HasReads F.Files files.old files.new
        (λ reads. UnlessFree is_want (TextLoaded name.now reads) result) }
    ensures typed { IfOk result Typed }
    ensures runnable { IfOk result IsRunnable }
{
    units_are_read();
    first_classes_run();
    match read_source(alloc, name, files) {
        Ok(unit) => match local(alloc, name, unit) {
            Ok(sources) => checked(alloc, &sources, true),
            Err(_) => Err(KitsRefusal::Memory),
        },
        Err(refusal) => Err(of_sources(refusal)),
    }
}

/// The program of the source of this name alone, which is the kit `local`; its first class must be a component type
/// that is not abstract.
///
/// The source is read, lexed and parsed, and then checked. `TextLoaded` says all this, and `Memory` may come in place
/// of each end; a program comes from an accepted text alone (`accepted_kits_load`). No file changes. For a `FileFault`
/// see `load_kits`.
pub fn load_text<F: Files>(alloc: Global, name: &str, files: &mut F) -> Result<Program, KitsRefusal>
    ensures loaded { HasReads F.Files files.old files.new
        (λ reads. UnlessFree is_want (TextLoaded name.now reads) result) }
    ensures typed { IfOk result Typed }
    ensures runnable { IfOk result IsRunnable }

    // What the file is told to hold decides how it ends, but where it could not be read.
    ensures comes { (told : List Read) (end : Result Program KitsRefusal) → AreKnown (F.known files.old) told
        → TextLoaded name.now told end → UnlessFree is_want (EndsAs end) result }

    ensures file_fault { (file : List ℕ) → result ≡ Err (KitsRefusal.FileFault file)
        → Rose (F.failed_reads files.old file) (F.failed_reads files.new file) }
    ensures file_fault_comes { (file : List ℕ) → F.failed_reads files.new file ≢ F.failed_reads files.old file
        → UnlessFree is_want IsFileFault result }

    ensures files { F.known files.new ≡ F.known files.old }
    ensures writes { F.failed_writes files.new ≡ F.failed_writes files.old }
{
    loads_agree();
    failed_loads_are_told();
    read_and_checked_alone(alloc, name, files)
}
