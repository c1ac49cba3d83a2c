//! Commands that put a link, or take one away.
ghost use Rattle.std.specs.Prelude.{ℕ, ℤ};
ghost use Rattle.sox_msg.specs.Command.{link as linked, unlink as unlinked};
ghost use Rattle.sox_serve.specs.Marks.{MarksByRow};
ghost use Rattle.sox_serve.specs.Serves.{Gives, answer_over};

use crate::Served;
use crate::answering::reply_to;
use crate::reply_buf::ReplyBuf;
use link_prop::App;
use sed_engine::Engine;
use sub_table::LinkRec;

/// Puts a link.
pub fn link<E: Engine>(app: &mut App<E>, l: LinkRec, number: u8, into: &mut ReplyBuf) -> Served
    ensures served { (turns : ℕ) (moment : ℤ)
        → Gives E.Engine app.old app.new result into.new number
        (answer_over E.Engine app.old (linked l.from l.from_slot l.to l.to_slot) turns moment) }
    ensures marks { MarksByRow E.Engine app.old app.new (linked l.from l.from_slot l.to l.to_slot) number into.new }
{
    let end = app.link(l);
    reply_to(into, number, b'L', end);
    Served::Replied
}

/// Takes a link away.
pub fn unlink<E: Engine>(app: &mut App<E>, l: LinkRec, number: u8, into: &mut ReplyBuf) -> Served
    ensures served { (turns : ℕ) (moment : ℤ)
        → Gives E.Engine app.old app.new result into.new number
        (answer_over E.Engine app.old (unlinked l.from l.from_slot l.to l.to_slot) turns moment) }
    ensures marks { MarksByRow E.Engine app.old app.new (unlinked l.from l.from_slot l.to l.to_slot) number into.new }
{
    let end = app.unlink(l);
    reply_to(into, number, b'L', end);
    Served::Replied
}
