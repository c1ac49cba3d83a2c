//! The sending side of a session: messages until they are acknowledged.
ghost use Rattle.std.specs.Prelude.{◌≡◌, ℕ, ◌+◌, ◌<◌, ◌≤◌, List, [], length, Some, IfOk, IsTrue, nat_lt, count_by};
ghost use Rattle.dasp_msg.specs.Numbers.{wire_number};
ghost use Rattle.dasp_msg.specs.Posted.{has_room, after_push, after_ack, after_acks, after_resend, bytes_at};
ghost use Rattle.dasp_msg.specs.Posted.{is_due, due_from, due_of};
ghost use Rattle.dasp_msg.specs.Outgoing.{has_message, SendsLike};
ghost use Rattle.dasp_msg.specs.View.{message_of};

use crate::ack_more::four_of;
use crate::due::{Due, due_among};
use crate::kept::{forget, mark};
use crate::message::Msg;
use crate::outgoing::{Message, WINDOW, send_again};
use sed_value::{InPlace, Memory};
use std::alloc::Global;
use std::collections::VecDeque;
use std::marker::Model;

/// Keeps what was posted until it is acknowledged. Contracts see the messages from the first open one on, and the
/// number of that one.
#[derive(Drop)]
pub struct Sender {
    first: u16,
    messages: VecDeque<Message>,
}

impl Model for Sender {
    ghost use Rattle.std.specs.Prelude.{◌≤◌};
    ghost use Rattle.std.specs.VecDeque.{deque_len, deque_capacity};
    ghost use Rattle.dasp_msg.specs.Outgoing.{Window};

    ghost Value = { Window };

    ghost view = { λ s. record { first = s.first; messages = s.messages.items } };

    ghost invariant = { λ s. (31 ≤ deque_capacity s.messages) × (deque_len s.messages ≤ 31) };
}

impl Sender {
    /// A sender to which nothing was posted. Takes all its memory here.
    pub fn new(alloc: Global) -> Result<Sender, Memory>
        ensures { IfOk result (λ sender. SendsLike sender []) }
    {
        Ok(Sender {
            first: 0,
            messages: VecDeque::with_capacity(alloc, usize::from(WINDOW))?,
        })
    }

    /// Forgets all that was posted, and stands for no message. Takes no memory and keeps its own.
    pub fn restart(&mut self)
        ensures { SendsLike self.new [] }
    {
        self.messages.clear();
        self.first = 0;
    }

    /// Whether fewer than 31 messages stand from the first open one on.
    pub fn room(&self) -> bool
        ensures window { result ≡ nat_lt (length self.now.messages) 31 }
        ensures posted { (posted : List Message) → SendsLike self.now posted → result ≡ has_room posted }
    {
        self.messages.len() < usize::from(WINDOW)
    }

    /// Posts these bytes, which are sent for the first time at `now`, in nanoseconds. Gives the number of the message.
    pub fn push(&mut self, bytes: &[u8], now: i64) -> u16
        requires room { length self.old.messages < 31 }
        requires short { length bytes.now ≤ 498 }
        ensures number { (posted : List Message) → SendsLike self.old posted → result ≡ wire_number (length posted) }
        ensures after { (posted : List Message) → SendsLike self.old posted
            → SendsLike self.new (after_push posted bytes.now now) }
        ensures there { IsTrue (has_message self.new result) }
        ensures longer { length self.new.messages ≡ length self.old.messages + 1 }
    {
        let number = self.first.wrapping_add(self.messages.len() as u16);
        self.messages.push_back_reserved(Message {
            bytes: InPlace::new(bytes),
            sendings: 1,
            last: now,
            acknowledged: false,
        });
        number
    }

    /// Hears an ack and the bytes beside it. An ack that stands for no index from the one before the first open message
    /// to the last one posted changes nothing, and bits above that one say nothing.
    pub fn acked(&mut self, ack: u16, more: Option<[u8; 4]>)
        ensures { (posted : List Message) → SendsLike self.old posted → SendsLike self.new (after_ack posted ack more) }
    {
        let count = usize::from(ack.wrapping_add(1).wrapping_sub(self.first));
        if count <= self.messages.len() {
            mark(&mut self.messages, count, more);
            let gone = forget(&mut self.messages);
            self.first = self.first.wrapping_add(gone);
        }
    }

    /// Hears what a message of the other end acknowledges. A message without an ack changes nothing, and of the bytes
    /// beside an ack the first four count, where those that are missing are 0.
    pub fn heard(&mut self, msg: &Msg)
        ensures { let message = message_of msg.now in (posted : List Message) → SendsLike self.old posted
            → SendsLike self.new (after_acks posted message.ack message.ack_more) }
    {
        match msg.ack {
            Some(ack) => self.acked(ack, four_of(msg.ack_more)),
            None => {}
        }
    }

    /// What is due at `now`, in nanoseconds. Of a message that is to be sent again, `bytes` can be asked.
    pub fn due(&self, now: i64) -> Due
        ensures window { result ≡ due_from self.now.first self.now.messages now }
        ensures posted { (posted : List Message) → SendsLike self.now posted → result ≡ due_of posted now }
        ensures few { length self.now.messages ≤ 31 }
        ensures there { (number : ℕ) → result ≡ Due.Resend number → IsTrue (has_message self.now number) }
    {
        due_among(self.first, &self.messages, now)
    }

    /// Records that the message of this number, which is due, is sent again at `now`. One message fewer is due then.
    pub fn resend(&mut self, number: u16, now: i64)
        requires { due_from self.old.first self.old.messages now ≡ Due.Resend number }
        ensures after { (posted : List Message) → SendsLike self.old posted
            → SendsLike self.new (after_resend posted number now) }
        ensures there { (other : ℕ) → has_message self.new other ≡ has_message self.old other }
        ensures fewer { count_by (is_due now) self.new.messages < count_by (is_due now) self.old.messages }
        ensures as_many { length self.new.messages ≡ length self.old.messages }
    {
        let place = usize::from(number.wrapping_sub(self.first));
        send_again(&mut self.messages[place], now);
    }

    /// The bytes of the message of this number, which is the first open one or one behind it.
    pub fn bytes(&self, number: u16) -> &[u8]
        requires { IsTrue (has_message self.now number) }
        ensures posted { (posted : List Message) → SendsLike self.now posted
            → bytes_at posted number ≡ Some result.now }
        ensures short { length result.now ≤ 498 }
    {
        let place = usize::from(number.wrapping_sub(self.first));
        self.messages[place].bytes.as_bytes()
    }
}
