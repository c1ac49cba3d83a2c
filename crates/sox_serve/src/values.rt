//! Commands that change what a component holds.
ghost use Rattle.std.specs.Prelude.{◌≡◌, ℕ, ℤ, not, IsTrue};
ghost use Rattle.comp_tree.specs.Edit.{is_save as is_save_of};
ghost use Rattle.sox_msg.specs.Command.{clear as cleared};
ghost use Rattle.sox_serve.specs.Marks.{MarksByRow};
ghost use Rattle.sox_serve.specs.Serves.{Gives, answer_over, invoked_as, written_as};

use crate::Served;
use crate::answering::reply_to;
use crate::replies::reply_refused;
use crate::reply_buf::ReplyBuf;
use comp_tree::Turns;
use link_prop::App;
use sed_engine::Engine;
use sed_value::Id;

/// What a command gives for a slot of a component.
#[derive(Clone, Copy)]
pub struct SlotInput<'a> {
    /// The component.
    pub id: Id,
    /// The number of the slot.
    pub slot: u8,
    /// The bytes of the value that is written, or of the argument of the action that is invoked.
    pub bytes: &'a [u8],
}

/// Writes a property.
pub fn write<E: Engine>(
    app: &mut App<E>,
    input: SlotInput<'_>,
    number: u8,
    turns: Turns,
    ticks: i64,
    into: &mut ReplyBuf,
) -> Served
    ensures served { Gives E.Engine app.old app.new result into.new number
        (answer_over E.Engine app.old (written_as input.entry) turns ticks) }
    ensures marks { MarksByRow E.Engine app.old app.new (written_as input.entry) number into.new }
{
    let end = app.write(input.id, input.slot, input.bytes, turns, ticks);
    reply_to(into, number, b'W', end);
    Served::Replied
}

/// Sets a component's fault to 0.
pub fn clear<E: Engine>(app: &mut App<E>, id: Id, number: u8, into: &mut ReplyBuf) -> Served
    ensures served { (turns : ℕ) (moment : ℤ)
        → Gives E.Engine app.old app.new result into.new number
        (answer_over E.Engine app.old (cleared id.0) turns moment) }
    ensures marks { MarksByRow E.Engine app.old app.new (cleared id.0) number into.new }
{
    let end = app.clear(id);
    reply_to(into, number, b'X', end);
    Served::Replied
}

/// Runs an action, or asks for a save where it is the App's `save`.
pub fn invoke<E: Engine>(
    app: &mut App<E>,
    input: SlotInput<'_>,
    number: u8,
    turns: Turns,
    ticks: i64,
    into: &mut ReplyBuf,
) -> Served
    ensures served { Gives E.Engine app.old app.new result into.new number
        (answer_over E.Engine app.old (invoked_as input.entry) turns ticks) }
    ensures marks { MarksByRow E.Engine app.old app.new (invoked_as input.entry) number into.new }
{
    if is_save(input.id, input.slot) {
        return ask_for_save(app, input, number, into);
    }
    run(app, input, number, turns, ticks, into)
}

// Whether a slot of a component is the App's `save`.
fn is_save(id: Id, slot: u8) -> bool
    ensures { result ≡ is_save_of id.0 slot }
{
    id.0 == 0 && slot == 1
}

// Runs an action.
fn run<E: Engine>(
    app: &mut App<E>,
    input: SlotInput<'_>,
    number: u8,
    turns: Turns,
    ticks: i64,
    into: &mut ReplyBuf,
) -> Served
    requires { IsTrue (not (is_save_of input.id.0 input.slot)) }
    ensures served { Gives E.Engine app.old app.new result into.new number
        (answer_over E.Engine app.old (invoked_as input.entry) turns ticks) }
    ensures marks { MarksByRow E.Engine app.old app.new (invoked_as input.entry) number into.new }
{
    match app.invoke(input.id, input.slot, input.bytes, turns, ticks) {
        Ok(_end) => reply_to(into, number, b'I', Ok(())),
        Err(refusal) => reply_to(into, number, b'I', Err(refusal)),
    }
    Served::Replied
}

// Asks for a save, where the App's `save` may be invoked. It changes nothing, and only a refusal has a reply now.
fn ask_for_save<E: Engine>(
    app: &App<E>,
    input: SlotInput<'_>,
    number: u8,
    into: &mut ReplyBuf,
) -> Served
    requires { IsTrue (is_save_of input.id.0 input.slot) }
    ensures { (turns : ℕ) (moment : ℤ)
        → Gives E.Engine app.now app.now result into.new number
        (answer_over E.Engine app.now (invoked_as input.entry) turns moment) }
{
    match app.tree().check_invoke(input.id, input.slot, input.bytes) {
        Ok(()) => {
            into.clear();
            Served::SaveAsked
        }
        Err(refusal) => {
            reply_refused(into, number, refusal);
            Served::Replied
        }
    }
}
