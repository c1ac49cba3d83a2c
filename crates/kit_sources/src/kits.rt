//! The sources of kits.
ghost use Rattle.std.specs.Prelude.{◌≡◌, ◌++◌, ◌<◌, All, IfOk, OnOk, length};
ghost use Rattle.sed_outside.specs.Steps.{Each, UnlessFree};
ghost use Rattle.sed_outside.specs.Reads.{HasReads};
ghost use Rattle.kit_sources.specs.Refusals.{is_want};
ghost use Rattle.kit_sources.specs.Sources.{SourceRead, KitRead, KitsAt, KnownRead, KitsRead};
ghost use Rattle.kit_sources.specs.Sources.{manifest_at, files_in, names_of};
ghost use Rattle.kit_sources.specs.Text.{IsOfBytes, AreOfBytes};

use crate::manifests::{order_of, read_manifests};
use crate::refusal::{SourcesRefusal, text_of};
use crate::source::read_source;
use crate::sources::Sources;
use kit_manifest::{Manifest, Text};
use sed_classes::KitUnits;
use sed_outside::Files;
use sed_units::Unit;
use sed_value::{Items, KitName};
use std::alloc::{AllocError, Global};

// Reads the sources of these names, one after another. The first refusal ends it.
fn read_sources<F: Files>(
    alloc: Global,
    names: &[Text],
    files: &mut F,
) -> Result<Items<Unit>, SourcesRefusal>
    ensures read { HasReads F.Files files.old files.new
        (λ reads. UnlessFree is_want (Each SourceRead names.now reads) result) }
    ensures bytes { IfOk result (All IsOfBytes) }
{
    let mut units = Vec::new(alloc);
    for name in names {
        match read_source(alloc, name.as_str(), files) {
            Ok(unit) => units.push(unit)?,
            Err(refusal) => return Err(refusal),
        }
    }
    Ok(Items::new(units))
}

// The names of kits, copied.
fn copy_of(alloc: Global, names: &[KitName]) -> Result<Items<KitName>, AllocError>
    ensures { IfOk result (λ copy. copy ≡ names.now) }
{
    Ok(Items::new(Vec::from_slice(alloc, names)?))
}

// Reads the sources of the kit of a manifest.
fn read_kit<F: Files>(
    alloc: Global,
    manifest: &Manifest,
    files: &mut F,
) -> Result<KitUnits, SourcesRefusal>
    ensures read { HasReads F.Files files.old files.new
        (λ reads. UnlessFree is_want (KitRead manifest.now reads) result) }
    ensures bytes { IfOk result (λ kit. All IsOfBytes kit.units) }
{
    match read_sources(alloc, manifest.files.as_slice(), files) {
        Ok(units) => match copy_of(alloc, manifest.depends.as_slice()) {
            Ok(depends) => Ok(KitUnits {
                kit: manifest.name,
                depends,
                units,
            }),
            Err(_) => Err(SourcesRefusal::Memory),
        },
        Err(refusal) => Err(refusal),
    }
}

// Reads the sources of the kits of these manifests, one after another. The first refusal ends it.
fn read_each<F: Files>(
    alloc: Global,
    manifests: &[Manifest],
    order: &[usize],
    files: &mut F,
) -> Result<Items<KitUnits>, SourcesRefusal>
    requires { All (λ place. place < length manifests.now) order.now }
    ensures read { HasReads F.Files files.old files.new
        (λ reads. UnlessFree is_want
        (Each (λ place. KitRead (manifest_at manifests.now place)) order.now reads) result) }
    ensures bytes { IfOk result AreOfBytes }
{
    let mut kits = Vec::new(alloc);
    for place in order {
        match read_kit(alloc, &manifests[*place], files) {
            Ok(kit) => kits.push(kit)?,
            Err(refusal) => return Err(refusal),
        }
    }
    Ok(Items::new(kits))
}

// Puts names behind others, copied.
fn push_names(alloc: Global, names: &mut Vec<Text>, more: &[Text]) -> Result<(), AllocError>
    ensures { OnOk result (names.new.items ≡ names.old.items ++ more.now) }
{
    for name in more {
        names.push(text_of(alloc, name.as_str())?)?;
    }
    Ok(())
}

// The names of the sources of the kits of these manifests.
fn names_in(
    alloc: Global,
    manifests: &[Manifest],
    order: &[usize],
) -> Result<Items<Text>, AllocError>
    requires { All (λ place. place < length manifests.now) order.now }
    ensures { IfOk result (λ names. names ≡ files_in manifests.now order.now) }
{
    let mut names = Vec::new(alloc);
    for place in order {
        push_names(alloc, &mut names, manifests[*place].files.as_slice())?;
    }
    Ok(Items::new(names))
}

// Reads the kits of these manifests, in this order.
fn read_ordered<F: Files>(
    alloc: Global,
    manifests: &[Manifest],
    order: &[usize],
    files: &mut F,
) -> Result<Sources, SourcesRefusal>
    requires { All (λ place. place < length manifests.now) order.now }
    ensures read { HasReads F.Files files.old files.new
        (λ reads. UnlessFree is_want (KitsAt manifests.now order.now reads) result) }
    ensures bytes { IfOk result (λ sources. AreOfBytes sources.kits) }
{
    match read_each(alloc, manifests, order, files) {
        Ok(kits) => match names_in(alloc, manifests, order) {
            Ok(files) => Ok(Sources { kits, files }),
            Err(_) => Err(SourcesRefusal::Memory),
        },
        Err(refusal) => Err(refusal),
    }
}

// Orders the kits of the manifests of these names, and reads them.
fn read_known<F: Files>(
    alloc: Global,
    names: &[String],
    manifests: &[Manifest],
    files: &mut F,
) -> Result<Sources, SourcesRefusal>
    requires { length manifests.now ≡ length names.now }
    ensures read { HasReads F.Files files.old files.new
        (λ reads. UnlessFree is_want (KnownRead (names_of names.now) manifests.now reads) result) }
    ensures bytes { IfOk result (λ sources. AreOfBytes sources.kits) }
{
    match order_of(alloc, names, manifests) {
        Ok(order) => read_ordered(alloc, manifests, order.as_slice(), files),
        Err(refusal) => Err(refusal),
    }
}

/// The kits of the manifests of these names.
///
/// The manifests are read in the order of the names. Then the kits are ordered: the first whose dependences are taken
/// is taken, again and again. Then the sources are read, kit by kit in that order and in the order of the manifest, and
/// each is lexed and parsed before the next is read. The first refusal ends it, and nothing more is read. `KitsRead`
/// says all this; `Memory` may come in place of each end. No file changes.
pub fn read_kits<F: Files>(
    alloc: Global,
    names: &[String],
    files: &mut F,
) -> Result<Sources, SourcesRefusal>
    ensures read { HasReads F.Files files.old files.new
        (λ reads. UnlessFree is_want (KitsRead (names_of names.now) reads) result) }
    // Each unit is that of a text of bytes.
    ensures bytes { IfOk result (λ sources. AreOfBytes sources.kits) }
{
    match read_manifests(alloc, names, files) {
        Ok(manifests) => read_known(alloc, names, manifests.as_slice(), files),
        Err(refusal) => Err(refusal),
    }
}
