//! What begins a file.
ghost use Rattle.std.specs.Prelude.{◌≡◌, ℕ, List, Option, length};
ghost use Rattle.sed_value.specs.declared.kit.KitRef.{KitRef as AnyKit};
ghost use Rattle.sed_engine.specs.Code.{Meaning};
ghost use Rattle.app_file.specs.Reading.{HasNoFront, HasWrongKits, IsFront};
ghost use Rattle.app_front.specs.Form as form;
ghost use Rattle.app_front.specs.Front.{IsFrontOutcome, IsNoFrontAnswer, IsVersionAnswer, IsWrongKitsAnswer};
ghost use Rattle.app_front.specs.FrontAnswer.{IsAnswerTo};
ghost use Rattle.sed_wire.specs.Gives.{Gives};

use crate::differing::{first_place, kit_at};
use crate::fields::{head, version};
use crate::kits::counted_kits;
use app_file::AppRefusal;
use sed_typed::Schema;
use sed_value::{Items, KitRef};
use sed_wire::{Halt, Reader};
use std::alloc::Global;

// A version, and the kits that a file was written for.
#[derive(Drop)]
pub(crate) struct Front {
    version: u32,
    kits: Items<KitRef>,
}

// Reads the front of a file, and gives its version where its kits are those of the schema; the reader then stands
// behind the kits.
//
// `NotAnApp` comes exactly where the bytes begin with no front, and `WrongKits` exactly where they begin with one of
// other kits, with the first place at which the two lists differ; `Memory` may come in the place of any answer. It is
// wanted for the kits alone, of which there are at most 255. After an error it isn't said where the reader stands.
pub(crate) fn read_front(
    alloc: Global,
    schema: &Schema,
    reader: &mut Reader,
) -> Result<u32, AppRefusal>
    // A version is that of a front with the schema's kits, and a refusal has its reason.
    ensures outcome { IsFrontOutcome schema.now reader.old reader.new result }
    // A front with these kits is read, and a reason to refuse is told, unless memory runs out.
    ensures front { (version : ℕ) (rest : List ℕ) → IsFront version schema.now.kits reader.old rest
        → IsVersionAnswer version rest reader.new result }
    ensures wrong { (m : Meaning) (place : ℕ) (in_file in_kits : Option AnyKit) → m.schema ≡ schema.now
        → HasWrongKits m reader.old place in_file in_kits → IsWrongKitsAnswer place in_file in_kits result }
    ensures none { HasNoFront reader.old → IsNoFrontAnswer result }
{
    match_front(alloc, schema, reader)
}

// The same, by the form of a front.
fn match_front(alloc: Global, schema: &Schema, reader: &mut Reader) -> Result<u32, AppRefusal>
    ensures { IsAnswerTo schema.now.kits (form.front.reads reader.old) reader.new result }
{
    let whole = reader.remaining();
    let read = any_front(alloc, reader);
    match read {
        Ok(front) => match first_place(front.kits.as_slice(), schema.kits.as_slice()) {
            None => Ok(front.version),
            Some(place) => Err(AppRefusal::WrongKits {
                kit: place as u8,
                in_file: kit_at(front.kits.as_slice(), place),
                in_kits: kit_at(schema.kits.as_slice(), place),
            }),
        },
        Err(Halt::Fault) => Err(AppRefusal::NotAnApp {
            at: whole.saturating_sub(reader.remaining()),
        }),
        Err(Halt::Memory) => Err(AppRefusal::Memory),
    }
}

// A front, whatever its kits are: at most 255.
#[tactic(auto, unfolding(crate::specs::Form::front))]
fn any_front(alloc: Global, reader: &mut Reader) -> Result<Front, Halt>
    ensures { Gives result reader.new (form.front.reads reader.old) }
{
    head(reader)?;
    let version = version(reader)?;
    let kits = counted_kits(alloc, reader)?;
    Ok(Front { version, kits })
}
