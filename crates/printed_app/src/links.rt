//! The links of an application.
ghost use Rattle.std.specs.Prelude.{◌++◌, codes};
ghost use Rattle.std.specs.List.{flat_map};
ghost use Rattle.printed_app.specs.Printed.{line_end};
ghost use Rattle.printed_app.specs.Puts.{Puts};
ghost use Rattle.printed_app.specs.Application.{end_text, link_line};

use crate::{put_bytes, put_number};
use link_prop::App;
use sed_engine::Engine;
use sed_outside::{Sink, SinkFault};
use sub_table::LinkRec;

/// Puts a line for each link into a sink, in ascending order of the links' targets. Takes no memory of its own.
pub fn put_links<E: Engine, O: Sink>(app: &App<E>, out: &mut O) -> Result<(), SinkFault>
    ensures { Puts O.Sink out.old out.new (flat_map link_line app.now.links) result }
{
    for n in 0..app.links() {
        match app.link_at(n) {
            Some(link) => put_link(link, out)?,
            None => unreachable!(),
        }
    }
    Ok(())
}

// Puts the line of a link.
fn put_link<O: Sink>(link: LinkRec, out: &mut O) -> Result<(), SinkFault>
    ensures { Puts O.Sink out.old out.new (link_line link) result }
{
    put_line_between(link.from.0, link.from_slot, link.to.0, link.to_slot, out)
}

// Puts the line of a link from the slot of one component to that of another.
fn put_line_between<O: Sink>(
    from: u16,
    from_slot: u8,
    to: u16,
    to_slot: u8,
    out: &mut O,
) -> Result<(), SinkFault>
    ensures { Puts O.Sink out.old out.new
        (codes "link " ++ (end_text from from_slot ++ (codes " -> " ++ (end_text to to_slot ++ line_end)))) result }
{
    put_bytes(b"link ", out)?;
    put_end(from, from_slot, out)?;
    put_bytes(b" -> ", out)?;
    put_end(to, to_slot, out)?;
    put_bytes(b"\n", out)
}

// Puts `ID.SLOT`.
fn put_end<O: Sink>(id: u16, slot: u8, out: &mut O) -> Result<(), SinkFault>
    ensures { Puts O.Sink out.old out.new (end_text id slot) result }
{
    put_number(id, out)?;
    put_bytes(b".", out)?;
    put_number(slot, out)
}
