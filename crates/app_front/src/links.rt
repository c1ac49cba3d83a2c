//! Reading links, and the end of a file.
ghost use Rattle.std.specs.Prelude.{◌≡◌};
ghost use Rattle.sed_wire.specs.Gives.{Gives};
ghost use Rattle.app_front.specs.LinkForm as form;

use sed_value::{Id, Items};
use sed_wire::fields::{mark_1, u1, u2};
use sed_wire::{Halt, Reader};
use std::alloc::Global;
use sub_table::LinkRec;

// The links up to the mark behind them, where they are fewer than so many.
pub(crate) fn links(alloc: Global, reader: &mut Reader, most: usize) -> Result<Items<LinkRec>, Halt>
    ensures { Gives result reader.new ((form.links most).reads reader.old) }
{
    let mut items = Vec::new(alloc);
    for _ in 0..most {
        let from = u2(reader)?;
        if from == 0xffff {
            return Ok(Items::new(items));
        }
        let next = link_behind(reader, from)?;
        items.push(next)?;
    }
    Err(Halt::Fault)
}

// A link from this id, behind the id.
#[tactic(auto, unfolding(crate::specs::LinkForm::link_behind, crate::specs::LinkForm::u1, crate::specs::LinkForm::u2))]
fn link_behind(reader: &mut Reader, from: u16) -> Result<LinkRec, Halt>
    ensures { Gives result reader.new ((form.link_behind from).reads reader.old) }
{
    let from_slot = u1(reader)?;
    let to = u2(reader)?;
    let to_slot = u1(reader)?;
    Ok(LinkRec {
        from: Id(from),
        from_slot,
        to: Id(to),
        to_slot,
    })
}

// What ends each file.
#[tactic(auto, unfolding(crate::specs::LinkForm::end))]
pub(crate) fn end(reader: &mut Reader) -> Result<(), Halt>
    ensures { Gives result reader.new (form.end.reads reader.old) }
{
    mark_1(reader, 0x2e)
}
