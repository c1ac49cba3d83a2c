//! The reply to a command that is done or refused, and has no more to say.
ghost use Rattle.std.specs.Prelude.{◌≡◌, Some, None, IsTrue, MatchResult};
ghost use Rattle.comp_tree.specs.Held.{components_of};
ghost use Rattle.comp_tree.specs.Refusals.{first_refusal, refusals_of_clear};
ghost use Rattle.sox_serve.specs.Replies.{reply_bytes};
ghost use Rattle.sox_msg.specs.Answered as told;
ghost use Rattle.sox_msg.specs.Reply.{is_plain};

use crate::replies::{reply_done, reply_refused};
use crate::reply_buf::ReplyBuf;
use comp_tree::Tree;
use sed_engine::Engine;
use sed_value::{Id, Refusal};

/// Says that a command is done whose letter is this as a capital, or why nothing was done.
pub fn reply_to(into: &mut ReplyBuf, number: u8, letter: u8, end: Result<(), Refusal>)
    requires { IsTrue (is_plain letter) }
    ensures { MatchResult end (λ _. into.new ≡ reply_bytes number (Some (told.done letter)))
        (λ refusal. into.new ≡ reply_bytes number (Some (told.refused refusal))) }
{
    match end {
        Ok(()) => reply_done(into, number, letter),
        Err(refusal) => reply_refused(into, number, refusal),
    }
}

/// The one refusal where a component is not live.
pub fn check_live<E: Engine>(tree: &Tree<E>, id: Id) -> Result<(), Refusal>
    ensures { MatchResult result (λ _.
        first_refusal (refusals_of_clear (components_of E.Engine tree.now).by_id id.0) ≡ None)
        (λ refusal. first_refusal (refusals_of_clear (components_of E.Engine tree.now).by_id id.0) ≡ Some refusal) }
{
    match tree.find(id) {
        Some(_) => Ok(()),
        None => Err(Refusal::NoComponent),
    }
}
