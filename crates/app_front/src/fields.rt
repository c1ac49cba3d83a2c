//! Reading the fields that a file is made of.
ghost use Rattle.std.specs.Prelude.{◌≡◌};
ghost use Rattle.app_front.specs.Form as form;
ghost use Rattle.sed_wire.specs.Gives.{Gives};

use sed_wire::fields::{mark_4, u4};
use sed_wire::{Halt, Reader};

// What begins each file.
#[tactic(auto, unfolding(crate::specs::Form::head))]
pub(crate) fn head(reader: &mut Reader) -> Result<(), Halt>
    ensures { Gives result reader.new (form.head.reads reader.old) }
{
    mark_4(reader, 0x7361_7070)
}

// The version that is written, or the one before it.
#[tactic(auto, unfolding(crate::specs::Form::version))]
pub(crate) fn version(reader: &mut Reader) -> Result<u32, Halt>
    ensures { Gives result reader.new (form.version.reads reader.old) }
{
    let start = reader.rest();
    let number = u4(reader)?;
    if !is_version(number) {
        *reader = Reader::new(start);
        return Err(Halt::Fault);
    }
    Ok(number)
}

fn is_version(number: u32) -> bool
    ensures { result ≡ form.is_version number }
{
    number == 4 || number == 3
}
