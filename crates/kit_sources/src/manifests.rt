//! The manifests of kits, and their order.
ghost use Rattle.std.specs.Prelude.{◌≡◌, ◌<◌, ◌⊎◌, All, IfOk, length};
ghost use Rattle.sed_outside.specs.Steps.{Each, UnlessFree};
ghost use Rattle.sed_outside.specs.Reads.{HasReads};
ghost use Rattle.kit_sources.specs.Refusals.{is_want, name_at, IsOrdered, IsTextManifest, IsWhyOfManifest, Says};
ghost use Rattle.kit_sources.specs.Sources.{ManifestRead, names_of};

use crate::files::text_in;
use crate::refusal::{SourcesRefusal, Why, refused};
use kit_manifest::{Manifest, ManifestFault, order_kits, read_manifest};
use sed_outside::Files;
use sed_value::Items;
use std::alloc::Global;

// The manifest that a text is. The name is that of its file.
fn manifest_of(alloc: Global, name: &str, text: &[u8]) -> Result<Manifest, SourcesRefusal>
    ensures { UnlessFree is_want (Says name.now (IsTextManifest text.now) (IsWhyOfManifest text.now)) result }
{
    match read_manifest(alloc, text) {
        Ok(manifest) => Ok(manifest),
        Err(ManifestFault::NotToml) => Err(refused(alloc, name, Why::NotToml)),
        Err(ManifestFault::MissingKey) => Err(refused(alloc, name, Why::MissingKey)),
        Err(ManifestFault::WrongType) => Err(refused(alloc, name, Why::WrongType)),
        Err(ManifestFault::BadName) => Err(refused(alloc, name, Why::BadName)),
        // A text has no other refusal but want of memory.
        Err(_) => Err(SourcesRefusal::Memory),
    }
}

// Reads the manifest of this name.
fn read_named<F: Files>(
    alloc: Global,
    name: &str,
    files: &mut F,
) -> Result<Manifest, SourcesRefusal>
    ensures { HasReads F.Files files.old files.new (λ reads. UnlessFree is_want (ManifestRead name.now reads) result) }
{
    match text_in(alloc, name, files) {
        Ok(text) => manifest_of(alloc, name, text.as_slice()),
        Err(refusal) => Err(refusal),
    }
}

/// Reads the manifests of these names, one after another. The first refusal ends it.
pub fn read_manifests<F: Files>(
    alloc: Global,
    names: &[String],
    files: &mut F,
) -> Result<Items<Manifest>, SourcesRefusal>
    ensures { HasReads F.Files files.old files.new
        (λ reads. UnlessFree is_want (Each ManifestRead (names_of names.now) reads) result) }
{
    let mut manifests = Vec::new(alloc);
    for name in names {
        match read_named(alloc, name.as_str(), files) {
            Ok(manifest) => manifests.push(manifest)?,
            Err(refusal) => return Err(refusal),
        }
    }
    Ok(Items::new(manifests))
}

// That the manifest at this place is refused.
fn refused_at(alloc: Global, names: &[String], at: usize, why: Why) -> SourcesRefusal
    requires { at < length names.now }
    ensures { (result ≡ SourcesRefusal.Refused (name_at (names_of names.now) at) why)
        ⊎ (result ≡ SourcesRefusal.Memory) }
{
    refused(alloc, names[at].as_str(), why)
}

/// The places of the manifests in the order of their kits, or the first refusal.
pub fn order_of(
    alloc: Global,
    names: &[String],
    manifests: &[Manifest],
) -> Result<Items<usize>, SourcesRefusal>
    requires { length manifests.now ≡ length names.now }
    ensures ordered { UnlessFree is_want (IsOrdered (names_of names.now) manifests.now) result }
    ensures within { IfOk result (λ order. All (λ place. place < length manifests.now) order) }
{
    match order_kits(alloc, manifests) {
        Ok(order) => Ok(Items::new(order)),
        Err(ManifestFault::UnknownKit { at }) => Err(refused_at(alloc, names, at, Why::UnknownKit)),
        Err(ManifestFault::Cycle { at }) => Err(refused_at(alloc, names, at, Why::Cycle)),
        Err(ManifestFault::RepeatedKit { at }) => Err(refused_at(
            alloc,
            names,
            at,
            Why::RepeatedKit,
        )),
        // A list has no other refusal but want of memory.
        Err(_) => Err(SourcesRefusal::Memory),
    }
}
