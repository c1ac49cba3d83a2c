//! The messages that a sender keeps, from the first open one on.
ghost use Rattle.std.specs.Prelude.{◌≡◌, ◌≤◌, nat_lt, length};
ghost use Rattle.std.specs.VecDeque.{deque_capacity};
ghost use Rattle.dasp_msg.specs.Posted as posted;

use crate::outgoing::{Message, acknowledge_if};
use std::collections::VecDeque;

// Acknowledges the first `count` messages, and those behind them whose bits are set.
pub(crate) fn mark(messages: &mut VecDeque<Message>, count: usize, more: Option<[u8; 4]>)
    ensures items { messages.new.items ≡ posted.acknowledged_where (posted.is_for count more) 0 messages.old.items }
    ensures capacity { deque_capacity messages.new ≡ deque_capacity messages.old }
{
    for place in 0..messages.len() {
        acknowledge_if(&mut messages[place], is_for(count, more, place));
    }
}

fn is_for(count: usize, more: Option<[u8; 4]>, place: usize) -> bool
    ensures { result ≡ posted.is_for count more place }
{
    place < count || says_more(more, place - count)
}

// Whether bit `place` of the bytes is set, byte by byte and lowest first in each.
fn says_more(more: Option<[u8; 4]>, place: usize) -> bool
    ensures { result ≡ posted.says_more more place }
{
    match more {
        Some(bytes) => place < 32 && (bytes[place / 8] >> (place % 8)) & 1 == 1,
        None => false,
    }
}

// Forgets the acknowledged messages at the front, and says how many there were.
pub(crate) fn forget(messages: &mut VecDeque<Message>) -> u16
    requires { length messages.old.items ≤ 31 }
    ensures items { messages.new.items ≡ posted.open_part messages.old.items }
    ensures count { result ≡ posted.first_open messages.old.items }
    ensures capacity { deque_capacity messages.new ≡ deque_capacity messages.old }
{
    let mut gone = 0;
    while is_front_acknowledged(messages) {
        messages.pop_front();
        gone += 1;
    }
    gone
}

fn is_front_acknowledged(messages: &VecDeque<Message>) -> bool
    ensures { result ≡ nat_lt 0 (posted.first_open messages.now.items) }
{
    match messages.front() {
        Some(message) => message.acknowledged,
        None => false,
    }
}
