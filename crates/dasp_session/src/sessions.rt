//! The sessions of a node.
ghost use Rattle.std.specs.Prelude.{◌≡◌, ◌+◌, ◌<◌, ◌≤◌, ℕ, true, false, Some, None, Option, length, drop, IfOk};
ghost use Rattle.std.specs.Prelude.{count_by, is_some, nat_lt, not, ◌&&◌};
ghost use Rattle.std.specs.Option.{option_map, option_and_then, option_map_or};
ghost use Rattle.dasp_msg.specs.Shown.{Message};
ghost use Rattle.dasp_msg.specs.View.{message_of};
ghost use Rattle.dasp_msg.specs.Posted.{has_room};
ghost use Rattle.dasp_session.specs.Session.{State};
ghost use Rattle.dasp_session.specs.Looking.{found_from, is_waiting_for, session_at};
ghost use Rattle.dasp_session.specs.Receive as step;

use crate::handed::{Effect, Handed};
use crate::hearing::hear;
use crate::looking::{
    count_live, free_place, handed, id_of, is_here, is_sha_1, place_of, start_of, user_of,
    waiting_place,
};
use crate::outbox::Outbox;
use crate::place::{Place, Start};
use crate::{Users, nonce, ticking};
use dasp_msg::{Msg, MsgKind, VERSION, read_msg};
use sed_outside::Addr;
use sed_value::Memory;
use sed_value::limits::MOST_SESSIONS;
use std::alloc::Global;

// The error codes of a hello that is refused.
const OTHER_VERSION: u16 = 0xe1;

const TOO_MANY: u16 = 0xe2;

const OTHER_DIGEST: u16 = 0xe3;

/// The sessions of a node, in sixteen places, from 0 on. Contracts see what they stand for (`StandsFor`): a list of
/// sessions with all that was ever taken and posted in them.
#[derive(Drop)]
pub struct Sessions {
    users: Users,
    secret: [u8; 20],
    // How many sessions were made.
    made: u32,
    // In nanoseconds.
    moment: i64,
    places: Vec<Place>,
    ghost sixteen: { length places.items ≡ 16 },
}

impl Sessions {
    ghost use Rattle.dasp_session.specs.Standing.{StandsFor, Leaves, IsRead, Hands, IsHanded};
    ghost use Rattle.dasp_session.specs.Standing as standing;

    /// No session, for these users and this secret, at this moment in nanoseconds. It takes the memory of all sessions
    /// here.
    pub fn new(
        alloc: Global,
        users: Users,
        secret: [u8; 20],
        moment: i64,
    ) -> Result<Sessions, Memory>
        ensures { IfOk result (λ sessions. StandsFor sessions (step.new_state users secret moment)) }
    {
        let mut places = Vec::with_capacity(alloc, MOST_SESSIONS)?;
        for _ in 0..MOST_SESSIONS {
            places.push_reserved(Place::free(alloc)?);
        }
        Ok(Sessions {
            users,
            secret,
            made: 0,
            moment,
            places,
        })
    }

    /// Handles a datagram that came from an address: what it does, what is sent and what is handed
    /// on is `received` of the message that the bytes are, or of none. At most one answer is put into the outbox, which
    /// needs one free place. Where a payload is handed on, it is the message's own and stands within the bytes, and an
    /// answer may be posted in its session.
    pub fn datagram(&mut self, from: Addr, bytes: &[u8], out: &mut Outbox) -> Handed
        requires { length out.old < 512 }
        ensures leaves { (state : State) (read : Option Message) → StandsFor self.old state → IsRead bytes.now read
            → Leaves (step.received state from read) self.new out.old out.new }
        ensures hands { (state : State) (read : Option Message) → StandsFor self.old state → IsRead bytes.now read
            → Hands bytes.now (step.received state from read).handing result }
        ensures payload { (place at : ℕ) → result ≡ Handed.Payload place at → standing.may_post self.new place ≡ true }
        ensures own { (message : Message) (place at : ℕ) → IsRead bytes.now (Some message)
            → result ≡ Handed.Payload place at → drop at bytes.now ≡ message.payload }
        ensures within { (place at : ℕ) → result ≡ Handed.Payload place at → at ≤ length bytes.now }
        ensures payload_place { (place at : ℕ) → result ≡ Handed.Payload place at → place < 16 }
        ensures ended_place { (place : ℕ) → result ≡ Handed.Ended place → place < 16 }
        ensures few { length out.new ≤ length out.old + 1 }
    {
        match read_msg(bytes) {
            Ok(msg) => self.receive(from, &msg, start_of(bytes, &msg), out),
            Err(_) => Handed::Nothing,
        }
    }

    // A message, whose payload begins at this byte.
    fn receive(&mut self, from: Addr, msg: &Msg, at: usize, out: &mut Outbox) -> Handed
        requires { length out.old < 512 }
        ensures leaves { let message = message_of msg.now in (state : State) → StandsFor self.old state
            → Leaves (step.received state from (Some message)) self.new out.old out.new }
        ensures hands { let message = message_of msg.now in (state : State) → StandsFor self.old state
            → IsHanded at msg.now.payload.now (step.received state from (Some message)).handing result }
        ensures few { length out.new ≤ length out.old + 1 }
        ensures payload { (other begins : ℕ) → result ≡ Handed.Payload other begins
            → standing.may_post self.new other ≡ true }
        ensures at_is { (other begins : ℕ) → result ≡ Handed.Payload other begins → begins ≡ at }
        ensures payload_place { (other begins : ℕ) → result ≡ Handed.Payload other begins → other < 16 }
        ensures ended_place { (other : ℕ) → result ≡ Handed.Ended other → other < 16 }
    {
        match msg.kind {
            MsgKind::Hello => {
                self.greet(from, msg, out);
                Handed::Nothing
            }
            _ => self.tell(from, msg, at, out),
        }
    }

    // A hello.
    #[tactic(auto, using(crate::proofs::StandLemmas::hello_goes_on))]
    fn greet(&mut self, from: Addr, msg: &Msg, out: &mut Outbox)
        requires { length out.old < 512 }
        ensures leaves { let message = message_of msg.now in (state : State) → StandsFor self.old state
            → Leaves (step.hello state from message.version message.remote_id message.algorithm)
            self.new out.old out.new }
        ensures few { length out.new ≤ length out.old + 1 }
    {
        let (version, remote_id) = match (msg.version, msg.remote_id) {
            (Some(version), Some(remote_id)) => (version, remote_id),
            _ => return,
        };
        if version != VERSION {
            out.send(from, &Msg::close(remote_id, Some(OTHER_VERSION)));
            return;
        }
        if !is_sha_1(msg.algorithm) {
            out.send(from, &Msg::close(remote_id, Some(OTHER_DIGEST)));
            return;
        }
        self.wait_or_make(from, remote_id, out);
    }

    // The challenge again of a session that waits to be authenticated, or a new session.
    fn wait_or_make(&mut self, from: Addr, remote_id: u16, out: &mut Outbox)
        requires { length out.old < 512 }
        ensures leaves { (state : State) → StandsFor self.old state
            → Leaves (step.challenged state from remote_id
            (found_from (is_waiting_for from remote_id) 0 state.sessions)) self.new out.old out.new }
        ensures one { length out.new ≡ length out.old + 1 }
    {
        match waiting_place(&self.places, from, remote_id) {
            Some(place) => {
                let kept = &self.places[place];
                out.send(from, &Msg::challenge(kept.remote_id, kept.id, &kept.nonce));
            }
            None => self.make(from, remote_id, out),
        }
    }

    // A new session in the least free place, if there is one.
    fn make(&mut self, from: Addr, remote_id: u16, out: &mut Outbox)
        requires { length out.old < 512 }
        ensures leaves { (state : State) → StandsFor self.old state
            → Leaves (step.challenged state from remote_id None) self.new out.old out.new }
        ensures one { length out.new ≡ length out.old + 1 }
    {
        if self.made == u32::MAX {
            out.send(from, &Msg::close(remote_id, Some(TOO_MANY)));
            return;
        }
        match free_place(&self.places) {
            Some(place) => {
                let start = Start {
                    id: id_of(self.made, place),
                    address: from,
                    remote_id,
                    nonce: nonce(&self.secret, self.made),
                    moment: self.moment,
                };
                self.made += 1;
                self.places[place].begin(&start);
                out.send(from, &Msg::challenge(remote_id, start.id, &start.nonce));
            }
            None => out.send(from, &Msg::close(remote_id, Some(TOO_MANY))),
        }
    }

    // Any other message, which counts only in its session. Its payload begins at this byte.
    fn tell(&mut self, from: Addr, msg: &Msg, at: usize, out: &mut Outbox) -> Handed
        requires { length out.old < 512 }
        ensures leaves { let message = message_of msg.now in (state : State) → StandsFor self.old state
            → Leaves (step.told state from message) self.new out.old out.new }
        ensures hands { let message = message_of msg.now in (state : State) → StandsFor self.old state
            → IsHanded at msg.now.payload.now (step.told state from message).handing result }
        ensures few { length out.new ≤ length out.old + 1 }
        ensures payload { (other begins : ℕ) → result ≡ Handed.Payload other begins
            → standing.may_post self.new other ≡ true }
        ensures at_is { (other begins : ℕ) → result ≡ Handed.Payload other begins → begins ≡ at }
        ensures payload_place { (other begins : ℕ) → result ≡ Handed.Payload other begins → other < 16 }
        ensures ended_place { (other : ℕ) → result ≡ Handed.Ended other → other < 16 }
    {
        let place = place_of(msg.to);
        if !is_here(&self.places[place], msg.to, from) {
            return Handed::Nothing;
        }
        let effect = hear(&mut self.places[place], &self.users, self.moment, msg, out);
        handed(effect, place as u8, at)
    }

    /// Posts a message of at most 498 bytes in a session that is live, authenticated and has room, and sends it. One
    /// message more waits in it then. Needs one free place in the outbox.
    pub fn post(&mut self, place: u8, bytes: &[u8], out: &mut Outbox)
        requires may { standing.may_post self.old place ≡ true }
        requires short { length bytes.now ≤ 498 }
        requires room { length out.old < 512 }
        ensures leaves { (state : State) → StandsFor self.old state
            → Leaves (step.post_of state place bytes.now) self.new out.old out.new }
        ensures open { standing.is_open self.new place ≡ true }
        ensures live { standing.is_live self.new place ≡ true }
        ensures one { length out.new ≡ length out.old + 1 }
        ensures waits { standing.waiting self.new place ≡ standing.waiting self.old place + 1 }
    {
        ticking::post(
            &mut self.places[usize::from(place)],
            self.moment,
            bytes,
            out,
        );
    }

    /// The moment, in nanoseconds.
    pub fn moment(&self) -> i64
        ensures { (state : State) → StandsFor self.now state → result ≡ state.moment }
    {
        self.moment
    }

    /// Lets the moment be the greater of what it was and this one, in nanoseconds.
    pub fn advance(&mut self, moment: i64)
        ensures stands { (state : State) → StandsFor self.old state → StandsFor self.new (step.advanced state moment) }
        ensures live { (place : ℕ) → standing.is_live self.new place ≡ standing.is_live self.old place }
        ensures open { (place : ℕ) → standing.is_open self.new place ≡ standing.is_open self.old place }
    {
        self.moment = self.moment.max(moment);
    }

    /// Does the timeouts and then the resends of a live session, at the moment. It answers false exactly where the
    /// session ended. One that goes on sends each message that waits in it once at most, and at most 31 wait. Needs 31
    /// free places in the outbox.
    pub fn tick(&mut self, place: u8, out: &mut Outbox) -> bool
        requires live { standing.is_live self.old place ≡ true }
        requires room { length out.old + 31 ≤ 512 }
        ensures leaves { (state : State) → StandsFor self.old state
            → Leaves (step.tick_of state place) self.new out.old out.new }
        ensures answer { (state : State) → StandsFor self.old state
            → result ≡ not (standing.is_ended (step.tick_of state place).handing) }
        ensures live { standing.is_live self.new place ≡ result }
        ensures open { standing.is_open self.new place ≡ (result && standing.is_open self.old place) }
        ensures few { length out.new ≤ length out.old + 31 }
        ensures waits { result ≡ true → length out.new ≤ length out.old + standing.waiting self.new place }
        ensures most { standing.waiting self.new place ≤ 31 }
    {
        ticking::tick(&mut self.places[usize::from(place)], self.moment, out)
    }

    /// Sends a keepAlive of a live session, where an acknowledgement is still owed. Needs one free place in the outbox.
    pub fn keep(&mut self, place: u8, out: &mut Outbox)
        requires live { standing.is_live self.old place ≡ true }
        requires room { length out.old < 512 }
        ensures leaves { (state : State) → StandsFor self.old state
            → Leaves (step.keep_of state place) self.new out.old out.new }
        ensures live { standing.is_live self.new place ≡ true }
        ensures open { standing.is_open self.new place ≡ standing.is_open self.old place }
        ensures few { length out.new ≤ length out.old + 1 }
    {
        ticking::keep_up(&mut self.places[usize::from(place)], out);
    }

    /// Whether a session lives in a place below 16.
    pub fn is_live(&self, place: u8) -> bool
        requires { place < 16 }
        ensures stands { (state : State) → StandsFor self.now state → result ≡ is_some (session_at state place) }
        ensures kept { result ≡ standing.is_live self.now place }
    {
        self.places[usize::from(place)].live
    }

    /// How many sessions live, at most 16.
    pub fn live(&self) -> u8
        ensures { (state : State) → StandsFor self.now state → result ≡ count_by is_some state.sessions }
    {
        count_live(&self.places) as u8
    }

    /// Whether a message may be posted in a session that is live and authenticated: whether fewer than 31 messages
    /// stand from the first one on that is not acknowledged.
    pub fn room(&self, place: u8) -> bool
        requires { standing.is_live self.now place ≡ true }
        ensures stands { (state : State) → StandsFor self.now state
            → result ≡ option_map_or (λ session. has_room session.posted) (session_at state place) false }
        ensures kept { standing.may_post self.now place ≡ (standing.is_open self.now place && result) }
        ensures waits { result ≡ nat_lt (standing.waiting self.now place) 31 }
    {
        self.places[usize::from(place)].sender.room()
    }

    /// The user of the session of a place below 16: the one of the last authenticate that was welcomed. None exactly
    /// where no session lives there or it is not authenticated.
    pub fn user(&self, place: u8) -> Option<&[u8]>
        requires { place < 16 }
        ensures stands { (state : State) → StandsFor self.now state
            → option_map (λ name. name.now) result
            ≡ option_and_then (λ session. session.user) (session_at state place) }
        ensures kept { is_some result ≡ standing.is_open self.now place }
    {
        user_of(&self.places[usize::from(place)])
    }
}
