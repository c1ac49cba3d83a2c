//! What is due of the messages that a sender keeps.
ghost use Rattle.std.specs.Prelude.{◌≡◌, ℕ, ◌<◌, ◌≤◌, length, IfSome};
ghost use Rattle.std.specs.List.{list_any};
ghost use Rattle.dasp_msg.specs.Posted as posted;

use crate::outgoing::{Message, is_due, is_spent};
use std::collections::VecDeque;

/// What is due at a moment.
#[derive(Clone, Copy, Debug, PartialEq, Eq)]
pub enum Due {
    /// No message.
    Nothing,
    /// The first message that is to be sent again has this number.
    Resend { number: u16 },
    /// A message was sent three times, the last time a second ago or more, and is not acknowledged.
    Spent,
}

// What is due at a moment among the messages that begin with this number.
pub(crate) fn due_among(first: u16, messages: &VecDeque<Message>, now: i64) -> Due
    requires { length messages.now.items ≤ 31 }
    ensures { result ≡ posted.due_from first messages.now.items now }
{
    if any_spent(messages, now) {
        return Due::Spent;
    }
    match place_due(messages, now) {
        Some(place) => Due::Resend {
            number: first.wrapping_add(place as u16),
        },
        None => Due::Nothing,
    }
}

fn any_spent(messages: &VecDeque<Message>, now: i64) -> bool
    ensures { result ≡ list_any (posted.is_spent now) messages.now.items }
{
    messages.iter().any(|message| is_spent(message, now))
}

// The place of the first message that is due.
fn place_due(messages: &VecDeque<Message>, now: i64) -> Option<usize>
    ensures within { IfSome result (λ place. place < length messages.now.items) }
    ensures first { (index : ℕ) → posted.first_due now index messages.now.items ≡ posted.resend_at index result }
{
    for place in 0..messages.len() {
        if is_due(&messages[place], now) {
            return Some(place);
        }
    }
    None
}
