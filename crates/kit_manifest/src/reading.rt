//! What a text says of a kit.
ghost use Rattle.std.specs.Prelude.{◌≡◌, ◌≢◌, [], Some, true, IfErr, IfOk, MatchOption, MatchResult};
ghost use Rattle.toml.specs.Data.{Members};
ghost use Rattle.toml.specs.View.{table_view};
ghost use Rattle.kit_manifest.specs.Fault.{RefusesWhere, IsOfText, IsMemoryOr};
ghost use Rattle.kit_manifest.specs.declared.manifest.Manifest.{Manifest};
ghost use Rattle.kit_manifest.specs.Reading.{IsDocument, HasDocument, IsManifest, LacksKey, HasWrongType, HasBadName};
ghost use Rattle.kit_manifest.specs.Reading.{IsRefusal, depends_in, texts_of, are_texts, fails};

use crate::fault::ManifestFault;
use crate::manifest::{Manifest, Text};
use crate::texts::{kit_names, texts_in, value_at};
use sed_value::{Items, KitName};
use std::alloc::Global;
use toml::Table;

/// The manifest that a text is: a TOML document with the string `name`, the string `version`, the array of strings
/// `files`, and, where the kit depends on others, the array of strings `depends`. Other keys are no matter.
///
/// The first of these refusals that holds is given, and each exactly where it holds; `Memory` may come in its place,
/// as in that of a manifest.
/// - `NotToml`: the text is no TOML document.
/// - `MissingKey`: `name`, `version` or `files` is absent.
/// - `WrongType`: one of the four keys has a value of another type.
/// - `BadName`: the name, or one of those in `depends`, is not a letter and then letters or digits, 1 to 24 in all.
pub fn read_manifest(alloc: Global, text: &[u8]) -> Result<Manifest, ManifestFault>
    ensures manifest { IfOk result (λ manifest. HasDocument text.now (λ table. IsManifest table manifest)) }
    ensures comes { (manifest : Manifest) → HasDocument text.now (λ table. IsManifest table manifest)
        → result ≢ Err ManifestFault.Memory → result ≡ Ok manifest }

    ensures not_toml { RefusesWhere result ManifestFault.NotToml ((table : Members) → IsDocument text.now table → ⊥) }
    ensures missing_key { RefusesWhere result ManifestFault.MissingKey (HasDocument text.now LacksKey) }
    ensures wrong_type { RefusesWhere result ManifestFault.WrongType (HasDocument text.now HasWrongType) }
    ensures bad_name { RefusesWhere result ManifestFault.BadName (HasDocument text.now HasBadName) }
    ensures refusals { IfErr result IsOfText }
{
    let table = table_of(alloc, text)?;
    manifest_in(alloc, &table)
}

// The table of a TOML document.
fn table_of(alloc: Global, text: &[u8]) -> Result<Table, ManifestFault>
    ensures { MatchResult result (λ table. IsDocument text.now (table_view table))
        (λ fault. IsMemoryOr fault ManifestFault.NotToml ((table : Members) → IsDocument text.now table → ⊥)) }
{
    match toml::table_from_slice(alloc, text) {
        Ok(table) => Ok(table),
        Err(error) if error.is_memory() => Err(ManifestFault::Memory),
        Err(_) => Err(ManifestFault::NotToml),
    }
}

// The manifest of a table.
fn manifest_in(alloc: Global, table: &Table) -> Result<Manifest, ManifestFault>
    ensures { MatchResult result (IsManifest (table_view table.now)) (IsRefusal (table_view table.now)) }
{
    let (Some(name), Some(version), Some(files)) = (
        value_at(table, "name"),
        value_at(table, "version"),
        value_at(table, "files"),
    ) else {
        return Err(ManifestFault::MissingKey);
    };
    let (Some(name), Some(version)) = (name.as_str(), version.as_str()) else {
        return Err(ManifestFault::WrongType);
    };
    let files = texts_in(alloc, files)?;
    let depends = depends_in(alloc, table)?;
    let Some(name) = KitName::read(name.as_bytes()) else {
        return Err(ManifestFault::BadName);
    };
    let depends = kit_names(alloc, &depends)?;
    Ok(Manifest {
        name,
        version: Text::new(String::from_str(alloc, version)?),
        depends: Items::new(depends),
        files: Items::new(files),
    })
}

// The strings at `depends`, and none without that key.
fn depends_in(alloc: Global, table: &Table) -> Result<Vec<Text>, ManifestFault>
    ensures { MatchResult result
        (λ depends. MatchOption (depends_in (table_view table.now)) (depends.items ≡ [])
        (λ value. texts_of value ≡ Some depends.items))
        (λ fault. IsMemoryOr fault ManifestFault.WrongType
        (fails are_texts (depends_in (table_view table.now)) ≡ true)) }
{
    match value_at(table, "depends") {
        Some(value) => texts_in(alloc, value),
        None => Ok(Vec::new(alloc)),
    }
}
