//! Commands that ask what there is.
ghost use Rattle.std.specs.Prelude.{◌≡◌, ℕ, ℤ, Some, IsTrue};
ghost use Rattle.comp_tree.specs.Edit.{part_bytes};
ghost use Rattle.comp_tree.specs.Values.{spelling_of};
ghost use Rattle.link_prop.specs.Linked.{application_of};
ghost use Rattle.sox_serve.specs.Replies.{reply_bytes};
ghost use Rattle.sox_msg.specs.Answered as told;
ghost use Rattle.sox_msg.specs.Command.{is_part, read_part as part_read, read_slot as slot_read};
ghost use Rattle.sox_msg.specs.Command.{version as version_read};
ghost use Rattle.sox_serve.specs.Serves.{Gives, answer_over};

use crate::Served;
use crate::answering::check_live;
use crate::replies::{reply_part, reply_refused, reply_slot, reply_version};
use crate::reply_buf::ReplyBuf;
use app_parts::{write_part, write_schema, write_value};
use link_prop::App;
use sed_engine::Engine;
use sed_value::limits::{LONGEST_PART, LONGEST_SCHEMA};
use sed_value::{Id, SlotBuf, Value};

/// Tells a part of a component.
pub fn read_part<E: Engine>(
    app: &App<E>,
    id: Id,
    part: u8,
    number: u8,
    into: &mut ReplyBuf,
) -> Served
    requires { IsTrue (is_part part) }
    ensures { (turns : ℕ) (moment : ℤ)
        → Gives E.Engine app.now app.now result into.new number
        (answer_over E.Engine app.now (part_read id.0 part) turns moment) }
{
    match check_live(app.tree(), id) {
        Ok(()) => put_part(app, id, part, number, into),
        Err(refusal) => reply_refused(into, number, refusal),
    }
    Served::Replied
}

// Puts the reply that tells a part.
fn put_part<E: Engine>(app: &App<E>, id: Id, part: u8, number: u8, into: &mut ReplyBuf)
    requires { IsTrue (is_part part) }
    ensures { into.new ≡ reply_bytes number
        (Some (told.part id.0 part
        (part_bytes (E.meaning app.now.tree.engine) (application_of E.Engine app.now) id.0 part))) }
{
    let mut bytes = [0; LONGEST_PART];
    let count = write_part(app, id, part, &mut bytes);
    reply_part(into, number, id, part, &bytes[..count]);
}

/// Tells the value of a property.
pub fn read_slot<E: Engine>(
    app: &App<E>,
    id: Id,
    slot: u8,
    number: u8,
    into: &mut ReplyBuf,
) -> Served
    ensures { (turns : ℕ) (moment : ℤ)
        → Gives E.Engine app.now app.now result into.new number
        (answer_over E.Engine app.now (slot_read id.0 slot) turns moment) }
{
    let mut holder = SlotBuf::new();
    match app.tree().get(id, slot, &mut holder) {
        Ok(()) => put_slot(holder.value(), id, slot, number, into),
        Err(refusal) => reply_refused(into, number, refusal),
    }
    Served::Replied
}

// Puts the reply that tells a value.
fn put_slot(value: &Value, id: Id, slot: u8, number: u8, into: &mut ReplyBuf)
    ensures { into.new ≡ reply_bytes number (Some (told.slot id.0 slot (spelling_of value.now))) }
{
    let mut bytes = [0; 130];
    let count = write_value(value, &mut bytes);
    reply_slot(into, number, id, slot, &bytes[..count]);
}

/// Tells the kits.
pub fn read_version<E: Engine>(app: &App<E>, number: u8, into: &mut ReplyBuf) -> Served
    ensures { (turns : ℕ) (moment : ℤ)
        → Gives E.Engine app.now app.now result into.new number
        (answer_over E.Engine app.now version_read turns moment) }
{
    let mut bytes = [0; LONGEST_SCHEMA];
    let count = write_schema(app.tree().schema(), &mut bytes);
    reply_version(into, number, &bytes[..count]);
    Served::Replied
}
