//! A generated record in the making.
ghost use Rattle.std.specs.Prelude.{◌≡◌, ◌≤◌, ◌<◌, ◌^◌, ◌%◌, ◌∷◌, [], length, OnOk, IfOk};
ghost use Rattle.dasp_msg.specs.Sending.{CanGo};
ghost use Rattle.dasp_msg.specs.View.{message_of};
ghost use Rattle.sox_msg.specs.Command.{Asked, body_of, letter_of};
ghost use Rattle.replay_log.specs.Draw.{next_draw};
ghost use Rattle.replay_log.specs.Making.{Does, PutsEntry, PutsSteps};
ghost use Rattle.replay_log.specs.Entry.{datagram, tick};
ghost use Rattle.replay_log.specs.Session.{address_of, node_id_of};
ghost use Rattle.replay_log.specs.Step as messages;
ghost use Rattle.replay_log.specs.Step.{asks, number_of_next, one_more, sends, waits};

use crate::session::Session;
use dasp_msg::{Msg, write_msg};
use sed_value::Memory;
use std::alloc::Global;

/// The numbers of the next messages of the two sessions.
#[derive(Clone, Copy)]
pub(crate) struct Next {
    pub(crate) a: u16,
    pub(crate) b: u16,
}

impl Next {
    // The numbers once the session sent one message more.
    fn one_more(self, who: Session) -> Next
        ensures { result ≡ one_more who self }
    {
        match who {
            Session::A => Next {
                a: self.a.wrapping_add(1),
                b: self.b,
            },
            Session::B => Next {
                a: self.a,
                b: self.b.wrapping_add(1),
            },
        }
    }

    // The number of the session's next message.
    fn of(self, who: Session) -> u16
        ensures { result ≡ number_of_next who self }
    {
        match who {
            Session::A => self.a,
            Session::B => self.b,
        }
    }
}

/// A record in the making.
#[derive(Drop)]
pub(crate) struct Making {
    // The number that was drawn last, and before the first draw the seed.
    pub(crate) last: u32,
    pub(crate) next: Next,
    pub(crate) text: Vec<u8>,
}

impl Making {
    /// The next number that is drawn.
    #[tactic(auto, unfolding(crate::specs::Draw::next_draw))]
    pub(crate) fn draw(&mut self) -> u32
        ensures drawn { result ≡ next_draw self.old.last }
        ensures others { self.new ≡ record self.old { last = result } }
    {
        let worth = u64::from(self.last) * 1_103_515_245 + 12_345;
        self.last = (worth % 2_147_483_648) as u32;
        self.last
    }

    /// A tick comes at this moment, in nanoseconds.
    pub(crate) fn wait(&mut self, moment: u64) -> Result<(), Memory>
        requires { moment < 2 ^ 63 }
        ensures does { OnOk result (Does (waits moment ∷ []) self.old self.new) }
        ensures last { self.new.last ≡ self.old.last }
    {
        put_tick(&mut self.text, moment as i64)?;
        Ok(())
    }

    /// A session sends a request as its next message: a letter, the number, and a body.
    pub(crate) fn ask(&mut self, who: Session, letter: u8, body: &[u8]) -> Result<(), Memory>
        requires { length body.now ≤ 496 }
        ensures does { (command : Asked) → letter ≡ letter_of command → body.now ≡ body_of command
            → OnOk result (Does (asks who command ∷ []) self.old self.new) }
        ensures last { self.new.last ≡ self.old.last }
    {
        let number = self.next.of(who);
        self.next = self.next.one_more(who);
        put_request(&mut self.text, who, number, letter, body)
    }
}

// Puts the entry of a request that a session sends as the message of this number.
fn put_request(
    text: &mut Vec<u8>,
    who: Session,
    number: u16,
    letter: u8,
    body: &[u8],
) -> Result<(), Memory>
    requires { length body.now ≤ 496 }
    ensures { OnOk result (PutsSteps
        (sends who (messages.carrying (node_id_of who) number (letter ∷ number % 256 ∷ body.now)) ∷ [])
        text.old.items text.new.items) }
{
    let payload = payload_of(*text.allocator(), letter, number, body)?;
    put_message(text, who, &carrying(who.node_id(), number, &payload))
}

// The message of this number with a payload. It says that all messages below its own number came.
fn carrying<'a>(node_id: u16, number: u16, payload: &'a [u8]) -> Msg<'a>
    requires { length payload.now ≤ 498 }
    ensures says { message_of result ≡ messages.carrying node_id number payload.now }
    ensures can { CanGo (message_of result) }
{
    Msg::datagram(node_id, number.wrapping_sub(1), None, number, payload)
}

// A letter, a number and a body.
fn payload_of(alloc: Global, letter: u8, number: u16, body: &[u8]) -> Result<Vec<u8>, Memory>
    ensures { IfOk result (λ payload. payload.items ≡ letter ∷ number % 256 ∷ body.now) }
{
    let mut payload = Vec::new(alloc);
    payload.push(letter)?;
    payload.push((number % 256) as u8)?;
    payload.extend_from_slice(body)?;
    Ok(payload)
}

/// Puts the entry of a message that a session sends.
pub(crate) fn put_message(text: &mut Vec<u8>, who: Session, msg: &Msg) -> Result<(), Memory>
    requires { CanGo (message_of msg.now) }
    ensures { OnOk result (PutsSteps (sends who (message_of msg.now) ∷ []) text.old.items text.new.items) }
{
    let mut datagram = [0; 512];
    let count = write_msg(msg, &mut datagram);
    put_datagram(text, who, &datagram[..count])?;
    Ok(())
}

// Puts the entry of a datagram from a session's address.
fn put_datagram(text: &mut Vec<u8>, who: Session, bytes: &[u8]) -> Result<(), Memory>
    requires { length bytes.now ≤ 512 }
    ensures { OnOk result (PutsEntry (datagram (address_of who) bytes.now) text.old.items text.new.items) }
{
    let from = who.address();
    text.push(b'd')?;
    text.extend_from_slice(&from.ip)?;
    text.extend_from_slice(&from.port.to_be_bytes())?;
    text.extend_from_slice(&(bytes.len() as u16).to_be_bytes())?;
    text.extend_from_slice(bytes)?;
    Ok(())
}

// Puts the entry of a tick.
fn put_tick(text: &mut Vec<u8>, ticks: i64) -> Result<(), Memory>
    ensures { OnOk result (PutsEntry (tick ticks) text.old.items text.new.items) }
{
    text.push(b't')?;
    text.extend_from_slice(&ticks.to_be_bytes())?;
    Ok(())
}
