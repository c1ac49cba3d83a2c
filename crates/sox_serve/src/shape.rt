//! Commands that change which components there are, or what they are called.
ghost use Rattle.std.specs.Prelude.{ℕ, ℤ};
ghost use Rattle.sox_msg.specs.Command.{delete as deleted, rename as renamed, reorder as reordered};
ghost use Rattle.sox_serve.specs.Marks.{MarksByRow};
ghost use Rattle.sox_serve.specs.Serves.{Gives, Serves, added_as, answer_over};

use crate::Served;
use crate::answering::reply_to;
use crate::replies::{reply_added, reply_done, reply_refused};
use crate::reply_buf::ReplyBuf;
use comp_tree::{NewComponent, Turns};
use link_prop::App;
use sed_engine::Engine;
use sed_value::Id;

/// Adds a component.
pub fn add<E: Engine>(
    app: &mut App<E>,
    asked: NewComponent<'_>,
    number: u8,
    turns: Turns,
    ticks: i64,
    into: &mut ReplyBuf,
) -> Served
    ensures served { Serves E.Engine app.old app.new (added_as asked.entry) number turns ticks result into.new }
    ensures marks { MarksByRow E.Engine app.old app.new (added_as asked.entry) number into.new }
{
    match app.add(asked, turns, ticks) {
        Ok(id) => reply_added(into, number, id),
        Err(refusal) => reply_refused(into, number, refusal),
    }
    Served::Replied
}

/// Deletes a component and those below it.
pub fn delete<E: Engine>(
    app: &mut App<E>,
    id: Id,
    number: u8,
    turns: Turns,
    ticks: i64,
    into: &mut ReplyBuf,
) -> Served
    ensures served { Gives E.Engine app.old app.new result into.new number
        (answer_over E.Engine app.old (deleted id.0) turns ticks) }
    ensures marks { MarksByRow E.Engine app.old app.new (deleted id.0) number into.new }
{
    match app.delete(id, turns, ticks) {
        Ok(()) => {
            reply_done(into, number, b'D');
            Served::Deleted
        }
        Err(refusal) => {
            reply_refused(into, number, refusal);
            Served::Replied
        }
    }
}

/// Gives a component another name.
pub fn rename<E: Engine>(
    app: &mut App<E>,
    id: Id,
    name: &[u8],
    number: u8,
    into: &mut ReplyBuf,
) -> Served
    ensures served { (turns : ℕ) (moment : ℤ)
        → Gives E.Engine app.old app.new result into.new number
        (answer_over E.Engine app.old (renamed id.0 name.now) turns moment) }
    ensures marks { MarksByRow E.Engine app.old app.new (renamed id.0 name.now) number into.new }
{
    let end = app.rename(id, name);
    reply_to(into, number, b'N', end);
    Served::Replied
}

/// Puts a component's children in another order.
pub fn reorder<E: Engine>(
    app: &mut App<E>,
    id: Id,
    children: &[u8],
    number: u8,
    into: &mut ReplyBuf,
) -> Served
    ensures served { (turns : ℕ) (moment : ℤ)
        → Gives E.Engine app.old app.new result into.new number
        (answer_over E.Engine app.old (reordered id.0 children.now) turns moment) }
    ensures marks { MarksByRow E.Engine app.old app.new (reordered id.0 children.now) number into.new }
{
    let end = app.reorder(id, children);
    reply_to(into, number, b'O', end);
    Served::Replied
}
