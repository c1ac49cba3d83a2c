//! What a node keeps, and what it does in its events.
ghost use Rattle.std.specs.Prelude.{◌≡◌, ◌+◌, ◌*◌, ◌<◌, ◌≤◌, ◌&&◌, ℕ, List, [], true, length, drop, Option};
ghost use Rattle.std.specs.Prelude.{IsTrue};
ghost use Rattle.disk_model.specs.Disk.{Elapses};
ghost use Rattle.app_save.specs.Saving.{AllStores};
ghost use Rattle.app_file.specs.Bytes.{GivesBytes};
ghost use Rattle.dasp_session.specs.Session.{State as Sessioned};
ghost use Rattle.dasp_session.specs.Standing.{StandsFor as SessionsStandFor, is_live, may_post, waiting};
ghost use Rattle.sox_serve.specs.Answer.{command_of};
ghost use Rattle.sox_msg.specs.Command.{CanBeAsked, number_in};
ghost use Rattle.sox_msg.specs.View.{asked_of};
ghost use Rattle.node_events.specs.Events.{Telling, has_room_at, told_all};
ghost use Rattle.node_events.specs.Heard.{Heard, IsHeard, IsWish, Wish, asks};
ghost use Rattle.node_events.specs.Node.{Node as State, OnlyOfTheOpen, is_open};
ghost use Rattle.node_events.specs.Ticking.{at_place, at_places};
ghost use Rattle.sed_node.specs.Doing.{Answers, Delivers, IsTold, Ticks};
ghost use Rattle.sed_node.specs.Standing.{Holds, IsKept, SameSetup, StandsFor, code_of, setup_of};

use crate::replying::{post_reply, post_saved};
use crate::saving::Saver;
use crate::subscribing::subscribe_as;
use app_file::{a_cycle_keeps_whole, an_edit_keeps_whole, texts_are_files_of_what_is_kept};
use comp_tree::Turns;
use dasp_session::{Handed, Outbox, Sessions};
use disk_model::Disk;
use link_prop::{App, CycleEnd, cycle};
use node_events::{
    bytes_are_heard, events_are_of_the_application, few_messages_are_sent,
    only_open_sessions_have_subscribed, saves_are_measured,
};
use sed_engine::Engine;
use sed_outside::Addr;
use sox_events::Subs;
use sox_events::laws::{
    agreement_is_of_the_live, agreement_lasts, events_are_of_what_differs, events_keep_agreement,
    subscribing_keeps_agreement,
};
use sox_msg::{Reply, ReplyBody, Request, number_of, read_request};
use sox_serve::{ReplyBuf, Served, refused_commands_change_nothing, serve};

/// An application, the sessions of its clients, what they have subscribed and the store in one. It handles the events
/// of a node; what is sent goes into an outbox that it is lent. Contracts see the fields; what they stand for is in
/// specs/Standing.
#[derive(Drop)]
pub struct Kept<E: Engine> {
    pub(crate) app: App<E>,
    pub(crate) sessions: Sessions,
    pub(crate) subs: Subs,
    pub(crate) saver: Saver,
    // Of each root call.
    pub(crate) turns: Turns,
}

impl<E: Engine> Kept<E> {
    // Handles a datagram that came from an address, and puts what is sent into an outbox, which is empty: at most one
    // message.
    pub(crate) fn datagram<D: Disk>(
        &mut self,
        disk: &mut D,
        from: Addr,
        bytes: &[u8],
        out: &mut Outbox,
    )
        requires stands { (n : State) × StandsFor E.Engine self.old n }
        requires empty { out.old ≡ [] }
        requires stores { IsTrue (D.meaning disk.old).tells → AllStores (setup_of self.old).slot (D.meaning disk.old) }
        ensures delivers { (n : State) (heard : Option Heard) → StandsFor E.Engine self.old n → IsHeard bytes.now heard
            → Delivers E.Engine D.meaning self.old self.new n from heard out.new disk.old disk.new }
        ensures heard { (heard : Option Heard) × IsHeard bytes.now heard }
        ensures stores { IsTrue (D.meaning disk.old).tells → AllStores (setup_of self.old).slot (D.meaning disk.new) }
        ensures time { Elapses (D.meaning disk.old) (D.meaning disk.new) }
    {
        bytes_are_heard();
        only_open_sessions_have_subscribed();
        few_messages_are_sent();
        subscribing_keeps_agreement::<E>();
        match self.sessions.datagram(from, bytes, out) {
            Handed::Nothing => {}
            Handed::Ended { place } => self.subs.drop_session(place),
            Handed::Payload { place, at } => self.answer(disk, place, rest_of(bytes, at), out),
        }
    }

    // Answers a payload that was taken in a session.
    fn answer<D: Disk>(&mut self, disk: &mut D, place: u8, payload: &[u8], out: &mut Outbox)
        requires is_kept { IsKept E.Engine self.old }
        requires place { place < 16 }
        requires may { may_post self.old.sessions place ≡ true }
        requires room { length out.old < 512 }
        requires stores { IsTrue (D.meaning disk.old).tells → AllStores self.old.saver (D.meaning disk.old) }
        ensures answers { (n : State) (wish : Wish) → Holds E.Engine self.old n → IsWish payload.now wish
            → Answers E.Engine D.meaning self.old self.new n place payload.now wish out.old out.new disk.old disk.new }
        ensures is_kept { IsKept E.Engine self.new }
        ensures same { SameSetup E.Engine self.old self.new }
        ensures stores { IsTrue (D.meaning disk.old).tells → AllStores self.old.saver (D.meaning disk.new) }
        ensures time { Elapses (D.meaning disk.old) (D.meaning disk.new) }
    {
        match read_request(payload) {
            Ok(request) => self.command(disk, place, &request, out),
            Err(refusal) => {
                let reply = Reply {
                    number: number_of(payload),
                    body: ReplyBody::Refused(refusal),
                };
                post_reply(&mut self.sessions, place, &reply, out);
            }
        }
    }

    // Does a command, and posts its reply.
    fn command<D: Disk>(&mut self, disk: &mut D, place: u8, request: &Request, out: &mut Outbox)
        requires is_kept { IsKept E.Engine self.old }
        requires place { place < 16 }
        requires may { may_post self.old.sessions place ≡ true }
        requires room { length out.old < 512 }
        requires stores { IsTrue (D.meaning disk.old).tells → AllStores self.old.saver (D.meaning disk.old) }
        requires can { CanBeAsked (asked_of request.now.command) }
        requires given { GivesBytes (command_of (asked_of request.now.command)) }
        ensures answers { (n : State) (payload : List ℕ) → Holds E.Engine self.old n
            → number_in payload ≡ request.now.number
            → Answers E.Engine D.meaning self.old self.new n place payload (asks (asked_of request.now.command))
            out.old out.new disk.old disk.new }
        ensures is_kept { IsKept E.Engine self.new }
        ensures same { SameSetup E.Engine self.old self.new }
        ensures stores { IsTrue (D.meaning disk.old).tells → AllStores self.old.saver (D.meaning disk.new) }
        ensures time { Elapses (D.meaning disk.old) (D.meaning disk.new) }
    {
        an_edit_keeps_whole();
        texts_are_files_of_what_is_kept();
        agreement_lasts::<E>();
        saves_are_measured();
        refused_commands_change_nothing();
        let mut reply = ReplyBuf::new();
        let moment = self.sessions.moment();
        let asked = serve(&mut self.app, self.turns, moment, request, &mut reply);
        if is_save(asked) {
            let saved = self.saver.save(&self.app, disk);
            post_saved(&mut self.sessions, place, request.number, saved, out);
            return;
        }
        subscribe_as(&mut self.subs, &self.app, place, asked);
        self.sessions.post(place, reply.bytes(), out);
    }

    // Lets a moment come, in nanoseconds, and puts what is due into an outbox, which is empty, at most 496 messages:
    // place by place the timeouts of its session, what is sent again, events, and a keepAlive.
    pub(crate) fn tick(&mut self, ticks: i64, out: &mut Outbox) -> CycleEnd
        requires stands { (n : State) × StandsFor E.Engine self.old n }
        requires empty { out.old ≡ [] }
        ensures ticks { (n : State) → StandsFor E.Engine self.old n
            → Ticks E.Engine self.old self.new n ticks result.traps out.new }
    {
        a_cycle_keeps_whole();
        agreement_lasts::<E>();
        only_open_sessions_have_subscribed();
        few_messages_are_sent();
        self.sessions.advance(ticks);
        let moment = self.sessions.moment();
        let end = cycle(&mut self.app, self.turns, moment);
        self.visit_all(out);
        end
    }

    // Tells each session what is due, one place after another.
    fn visit_all(&mut self, out: &mut Outbox)
        requires is_kept { IsKept E.Engine self.old }
        requires empty { out.old ≡ [] }
        ensures is_kept { IsKept E.Engine self.new }
        ensures same { SameSetup E.Engine self.old self.new }
        ensures told { (n : State) → Holds E.Engine self.old n → OnlyOfTheOpen n
            → IsTold E.Engine self.new (at_places (code_of E.Engine self.old) n) out.new }
    {
        only_open_sessions_have_subscribed();
        for place in 0..16 {
            self.visit(place, out);
        }
    }

    // Tells the session of a place what is due, if one lives there: what is to be sent again, the events, and a
    // keepAlive where an acknowledgement is still owed. At most 32 messages are sent.
    fn visit(&mut self, place: u8, out: &mut Outbox)
        requires is_kept { IsKept E.Engine self.old }
        requires place { place < 16 }
        requires room { length out.old ≤ 32 * place }
        ensures room { length out.new ≤ 32 * place + 32 }
        ensures is_kept { IsKept E.Engine self.new }
        ensures same { SameSetup E.Engine self.old self.new }
        ensures told { (t : Telling) → IsTold E.Engine self.old t out.old → OnlyOfTheOpen t.node
            → IsTold E.Engine self.new (at_place (code_of E.Engine self.old) t place) out.new }
    {
        only_open_sessions_have_subscribed();
        subscribing_keeps_agreement::<E>();
        if !self.sessions.is_live(place) {
            return;
        }
        if !self.sessions.tick(place, out) {
            self.subs.drop_session(place);
            return;
        }
        self.tell(place, out);
        self.sessions.keep(place, out);
    }

    // Posts the events that are due at a place, while there is room.
    fn tell(&mut self, place: u8, out: &mut Outbox)
        requires is_kept { IsKept E.Engine self.old }
        requires place { place < 16 }
        requires live { is_live self.old.sessions place ≡ true }
        requires most { waiting self.old.sessions place ≤ 31 }
        requires room { length out.old ≤ 32 * place + waiting self.old.sessions place }
        ensures room { length out.new ≤ 32 * place + 31 }
        ensures live { is_live self.new.sessions place ≡ true }
        ensures is_kept { IsKept E.Engine self.new }
        ensures same { SameSetup E.Engine self.old self.new }
        ensures told { (t : Telling) → IsTold E.Engine self.old t out.old → OnlyOfTheOpen t.node
            → IsTold E.Engine self.new (told_all (code_of E.Engine self.old) place t) out.new }
    {
        only_open_sessions_have_subscribed();
        events_keep_agreement::<E>();
        agreement_is_of_the_live::<E>();
        events_are_of_what_differs::<E>();
        events_are_of_the_application::<E>();
        let mut text = [0; 498];
        'events: while may_tell(&self.sessions, place) {
            match self.subs.next_event(place, &mut self.app, &mut text) {
                Some(count) => self.sessions.post(place, &text[..count], out),
                None => return,
            }
        }
    }
}

// Whether an event may be posted in the session that lives in a place.
fn may_tell(sessions: &Sessions, place: u8) -> bool
    requires place { place < 16 }
    requires live { is_live sessions.now place ≡ true }
    ensures may { result ≡ may_post sessions.now place }
    ensures room { may_post sessions.now place ≡ true → waiting sessions.now place < 31 }
    ensures stands { (state : Sessioned) → SessionsStandFor sessions.now state
        → result ≡ (is_open state place && has_room_at state place) }
{
    sessions.room(place) && sessions.user(place).is_some()
}

// Whether a save is asked for.
fn is_save(asks: Served) -> bool
    ensures saves { result ≡ true → asks ≡ Served.SaveAsked }
    ensures others { asks ≡ Served.SaveAsked → result ≡ true }
{
    matches!(asks, Served::SaveAsked)
}

// The bytes from a place on.
fn rest_of(bytes: &[u8], at: usize) -> &[u8]
    requires { at ≤ length bytes.now }
    ensures { result.now ≡ drop at bytes.now }
{
    &bytes[at..]
}
