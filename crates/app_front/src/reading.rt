//! Reading the rows of a file.
ghost use Rattle.std.specs.Prelude.{◌≡◌, ◌⊎◌, ℕ, Option, length};
ghost use Rattle.sed_value.specs.declared.kit.KitRef.{KitRef as AnyKit};
ghost use Rattle.sed_engine.specs.Code.{Meaning};
ghost use Rattle.sed_engine.specs.Whole.{KeepsLimits};
ghost use Rattle.app_file.specs.Reading.{HasNoFront, HasWrongKits};
ghost use Rattle.app_file.specs.declared.refusal.AppRefusal.TheVariants.{NotAnApp};
ghost use Rattle.app_front.specs.BodyForm as form;
ghost use Rattle.app_front.specs.BodyForm.{IsBodyAnswer};
ghost use Rattle.sed_wire.specs.Gives.{Gives};
ghost use Rattle.app_front.specs.Rows.{AreRows, HasNoRows, IsRowsOutcome};
ghost use Rattle.app_front.specs.Rows.{IsNoRowsAnswer, IsOtherKitsAnswer, IsRowsAnswer};
ghost use Rattle.app_front.specs.declared.rows.FileRows.{FileRows as AnyRows};

use crate::components::components;
use crate::front::read_front;
use crate::links::{end, links};
use crate::rows::FileRows;
use app_file::AppRefusal;
use sed_typed::Schema;
use sed_wire::fields::u2;
use sed_wire::{Halt, Reader};
use std::alloc::Global;

/// The rows and links that bytes are to a schema: behind a front with its kits, and with nothing behind them.
///
/// `NotAnApp` comes exactly where the bytes begin with no front, or where the front's kits are the schema's and what
/// stands behind it are no rows and links; `WrongKits` exactly where they begin with a front of other kits, with the
/// first place at which the two lists differ. `Memory` may come in the place of any answer. The schema is one that
/// keeps the limits of schemas, as an engine's does.
pub fn read_rows(alloc: Global, schema: &Schema, bytes: &[u8]) -> Result<FileRows, AppRefusal>
    requires { KeepsLimits schema.now }
    // What is read are rows that the bytes are, and a refusal has its reason.
    ensures outcome { (m : Meaning) → m.schema ≡ schema.now → IsRowsOutcome m bytes.now result }
    // The rows that they are are read, and a reason to refuse is told, unless memory runs out.
    ensures rows { (m : Meaning) (f : AnyRows) → m.schema ≡ schema.now → AreRows m bytes.now f → IsRowsAnswer f result }
    ensures wrong { (m : Meaning) (place : ℕ) (in_file in_kits : Option AnyKit) → m.schema ≡ schema.now
        → HasWrongKits m bytes.now place in_file in_kits → IsOtherKitsAnswer place in_file in_kits result }
    ensures none { (m : Meaning) → m.schema ≡ schema.now → HasNoFront bytes.now ⊎ HasNoRows m bytes.now
        → IsNoRowsAnswer result }
{
    rows_or_refusal(alloc, schema, bytes)
}

// The same, by the forms of a front and of what stands behind it.
fn rows_or_refusal(alloc: Global, schema: &Schema, bytes: &[u8]) -> Result<FileRows, AppRefusal>
    requires { KeepsLimits schema.now }
    ensures { IsBodyAnswer schema.now bytes.now result }
{
    let mut reader = Reader::new(bytes);
    let version = match read_front(alloc, schema, &mut reader) {
        Ok(version) => version,
        Err(refusal) => return Err(refusal),
    };
    match body(alloc, schema, &mut reader, version, bytes.len()) {
        Ok(rows) => {
            if reader.is_empty() {
                return Ok(rows);
            }
            Err(no_app(bytes, &reader))
        }
        Err(Halt::Fault) => Err(no_app(bytes, &reader)),
        Err(Halt::Memory) => Err(AppRefusal::Memory),
    }
}

// The bytes are no file, from where the reader stands.
fn no_app(bytes: &[u8], reader: &Reader) -> AppRefusal
    ensures { (at : ℕ) × (result ≡ NotAnApp at) }
{
    AppRefusal::NotAnApp {
        at: bytes.len().saturating_sub(reader.remaining()),
    }
}

// What stands behind a front of this version.
#[tactic(auto, unfolding(crate::specs::BodyForm::body, sed_wire::specs::Leaves::u2))]
fn body(
    alloc: Global,
    schema: &Schema,
    reader: &mut Reader,
    version: u32,
    most: usize,
) -> Result<FileRows, Halt>
    requires { KeepsLimits schema.now }
    ensures { Gives result reader.new ((form.body schema.now.classes version most).reads reader.old) }
{
    let greatest = u2(reader)?;
    let rows = components(alloc, schema, reader, most)?;
    let links = links(alloc, reader, most)?;
    end(reader)?;
    Ok(FileRows {
        version,
        greatest,
        rows,
        links,
    })
}
