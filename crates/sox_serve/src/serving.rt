//! One request.
ghost use Rattle.std.specs.Prelude.{◌≡◌, ◌↔◌, [], true, IsTrue, Some, None};
ghost use Rattle.sed_value.specs.declared.refusal.Refusal.{Refusal};
ghost use Rattle.link_prop.specs.Linked.{application_of};
ghost use Rattle.link_prop.specs.Marks.{Tells};
ghost use Rattle.comp_tree.specs.Refusals.{first_refusal};
ghost use Rattle.sub_table.specs.Link.{Link};
ghost use Rattle.sox_serve.specs.Answer.{asks_for_save};
ghost use Rattle.sox_serve.specs.Table.{refusals_of};
ghost use Rattle.sox_serve.specs.Replies.{reply_bytes};
ghost use Rattle.sox_msg.specs.Answered.{refused as refused_as};
ghost use Rattle.sox_msg.specs.Command.{CanBeAsked};
ghost use Rattle.sox_msg.specs.View.{asked_of};
ghost use Rattle.sox_serve.specs.Marks.{KeepsRow, MarksByRow, nothing, row_of};
ghost use Rattle.sox_serve.specs.Serves.{Gives, Serves, answer_over};

use crate::links::{link, unlink};
use crate::reading::{read_part, read_slot, read_version};
use crate::reply_buf::ReplyBuf;
use crate::shape::{add, delete, rename, reorder};
use crate::values::{SlotInput, clear, invoke, write};
use crate::watching::{subscribe, unsubscribe};
use crate::{Served, refused_commands_change_nothing};
use comp_tree::{NewComponent, Turns};
use link_prop::App;
use sed_engine::Engine;
use sed_value::Id;
use sox_msg::{Command, Request};
use sub_table::LinkRec;

/// Does one request on an application, and puts its reply in the place of what there was. The callbacks and actions
/// that it calls have so many turns each, at a moment in nanoseconds.
///
/// The application after it, what is asked of the node and the bytes of the reply are those of the answer to its
/// command. So a refusal is the first of the command's row, and leaves the application as it was; and a save is asked
/// for exactly where the App's `save` may be invoked, and then there is no reply yet. Where an add is refused by no
/// row, it may be answered that memory is wanted, and then nothing is changed; over a fixed engine that never comes.
///
/// A request may set the marks of its command's row, for every place, and clears none. So a part whose mark is clear
/// after the request had a clear mark before it too, and has the bytes that it had then. A read, a version, a clear, a
/// subscribe, an unsubscribe and a save that is asked for mark nothing, and neither does a request that is refused.
pub fn serve<E: Engine>(
    app: &mut App<E>,
    turns: Turns,
    ticks: i64,
    request: &Request<'_>,
    reply: &mut ReplyBuf,
) -> Served
    requires { CanBeAsked (asked_of request.now.command) }
    ensures served { Serves E.Engine app.old app.new (asked_of request.now.command)
        request.now.number turns ticks result reply.new }
    ensures refused { (refusal : Refusal) → reply.new ≡ reply_bytes request.now.number (Some (refused_as refusal))
        → application_of E.Engine app.new ≡ application_of E.Engine app.old }
    ensures exact { E.fixed app.old.tree.engine ≡ true
        → Gives E.Engine app.old app.new result reply.new request.now.number
        (answer_over E.Engine app.old (asked_of request.now.command) turns ticks) }
    ensures saves { (result ≡ Served.SaveAsked) ↔ (IsTrue (asks_for_save (asked_of request.now.command))
        × (first_refusal (refusals_of (E.meaning app.old.tree.engine) (application_of E.Engine app.old)
        (asked_of request.now.command)) ≡ None)) }
    ensures saving { result ≡ Served.SaveAsked → (application_of E.Engine app.new ≡ application_of E.Engine app.old)
        × (reply.new ≡ []) }
    ensures meaning { E.meaning app.new.tree.engine ≡ E.meaning app.old.tree.engine }
    ensures tells { Tells E.Engine app.old app.new }
    ensures marks { KeepsRow E.Engine (row_of (application_of E.Engine app.old) (asked_of request.now.command))
        app.old app.new }
    ensures unmarked { (refusal : Refusal) → reply.new ≡ reply_bytes request.now.number (Some (refused_as refusal))
        → KeepsRow E.Engine nothing app.old app.new }
    ensures steady { E.fixed app.new.tree.engine ≡ E.fixed app.old.tree.engine }
{
    refused_commands_change_nothing();
    serve_command(app, request.command, request.number, turns, ticks, reply)
}

// Does a command.
fn serve_command<E: Engine>(
    app: &mut App<E>,
    command: Command<'_>,
    number: u8,
    turns: Turns,
    ticks: i64,
    into: &mut ReplyBuf,
) -> Served
    requires { CanBeAsked (asked_of command) }
    ensures served { Serves E.Engine app.old app.new (asked_of command.entry) number turns ticks result into.new }
    ensures marks { MarksByRow E.Engine app.old app.new (asked_of command.entry) number into.new }
{
    match command {
        Command::Add {
            parent,
            kit,
            kind,
            name,
            config,
        } => {
            let asked = NewComponent {
                parent,
                kit,
                number: kind,
                name,
                config,
            };
            add(app, asked, number, turns, ticks, into)
        }
        Command::ReadPart { id, part } => read_part(app, id, part, number, into),
        Command::Delete { id } => delete(app, id, number, turns, ticks, into),
        Command::Invoke { id, slot, arg } => {
            let input = SlotInput {
                id,
                slot,
                bytes: arg,
            };
            invoke(app, input, number, turns, ticks, into)
        }
        Command::Link {
            from,
            from_slot,
            to,
            to_slot,
        } => link(app, between(from, from_slot, to, to_slot), number, into),
        Command::Unlink {
            from,
            from_slot,
            to,
            to_slot,
        } => unlink(app, between(from, from_slot, to, to_slot), number, into),
        Command::Rename { id, name } => rename(app, id, name, number, into),
        Command::Reorder { id, children } => reorder(app, id, children, number, into),
        Command::ReadSlot { id, slot } => read_slot(app, id, slot, number, into),
        Command::Subscribe { id, mask } => subscribe(app, id, mask, number, into),
        Command::Unsubscribe { id, mask } => unsubscribe(app, id, mask, number, into),
        Command::Version => read_version(app, number, into),
        Command::Write { id, slot, value } => {
            let input = SlotInput {
                id,
                slot,
                bytes: value,
            };
            write(app, input, number, turns, ticks, into)
        }
        Command::Clear { id } => clear(app, id, number, into),
    }
}

// The link from one slot to another.
fn between(from: Id, from_slot: u8, to: Id, to_slot: u8) -> LinkRec
    ensures { result ≡ (let l : Link =
        record { from = from.0; from_slot = from_slot; to = to.0; to_slot = to_slot } in l) }
{
    LinkRec {
        from,
        from_slot,
        to,
        to_slot,
    }
}
