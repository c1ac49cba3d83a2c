//! Commands that begin or end events of a component's parts.
ghost use Rattle.std.specs.Prelude.{ℕ, ℤ};
ghost use Rattle.sox_msg.specs.Command.{subscribe as subscribed, unsubscribe as unsubscribed};
ghost use Rattle.sox_serve.specs.Serves.{Gives, answer_over};

use crate::Served;
use crate::answering::check_live;
use crate::replies::{reply_done, reply_refused};
use crate::reply_buf::ReplyBuf;
use link_prop::App;
use sed_engine::Engine;
use sed_value::Id;

/// Begins events.
pub fn subscribe<E: Engine>(
    app: &App<E>,
    id: Id,
    mask: u8,
    number: u8,
    into: &mut ReplyBuf,
) -> Served
    ensures { (turns : ℕ) (moment : ℤ)
        → Gives E.Engine app.now app.now result into.new number
        (answer_over E.Engine app.now (subscribed id.0 mask) turns moment) }
{
    match check_live(app.tree(), id) {
        Ok(()) => {
            reply_done(into, number, b'S');
            Served::Subscribe { id, mask }
        }
        Err(refusal) => {
            reply_refused(into, number, refusal);
            Served::Replied
        }
    }
}

/// Ends events.
pub fn unsubscribe<E: Engine>(
    app: &App<E>,
    id: Id,
    mask: u8,
    number: u8,
    into: &mut ReplyBuf,
) -> Served
    ensures { (turns : ℕ) (moment : ℤ)
        → Gives E.Engine app.now app.now result into.new number
        (answer_over E.Engine app.now (unsubscribed id.0 mask) turns moment) }
{
    match check_live(app.tree(), id) {
        Ok(()) => {
            reply_done(into, number, b'U');
            Served::Unsubscribe { id, mask }
        }
        Err(refusal) => {
            reply_refused(into, number, refusal);
            Served::Replied
        }
    }
}
