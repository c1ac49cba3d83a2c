//! A node over a link and a clock.
ghost use Rattle.std.specs.Prelude.{◌≡◌, ◌≤◌, ◌<◌, ◌∷◌, [], length, map, slice_index_or, take, IsTrue};
ghost use Rattle.disk_model.specs.Disk.{Elapses};
ghost use Rattle.app_save.specs.Saving.{AllStores};
ghost use Rattle.sed_outside.specs.Told.{AddsWhereTold};
ghost use Rattle.replay_log.specs.Entry.{datagram, tick};
ghost use Rattle.dasp_session.specs.Outbox.{Datagram as Sent};
ghost use Rattle.node_events.specs.Node.{Node as State};
ghost use Rattle.sed_node.specs.Living.{IsLeft, Lives, Sleeps, offered_at};
ghost use Rattle.sed_node.specs.Running.{Steps};
ghost use Rattle.sed_node.specs.Standing.{SameSetup, StandsFor, code_of, is_fixed, setup_of};

use crate::kept::Kept;
use crate::node::Node;
use crate::running::RunEnd;
use dasp_session::Outbox;
use disk_model::Disk;
use node_events::runs_follow_one_another;
use replay_log::Event;
use sed_engine::Engine;
use sed_outside::{Addr, Clock, Link, Round, wake};

impl<E: Engine> Node<E> {
    /// Runs so many cycles over a link and a clock. Each takes at most 16 datagrams from the link, up to the first poll
    /// that gives none or fails, and handles each of them before the next poll; then it asks the clock for the moment,
    /// and a tick comes at that; then it sleeps until as many periods are over as cycles are done, from the moment of
    /// the first tick on. A period is in milliseconds. Each datagram that is sent is offered to the link, in their
    /// order and before anything else is polled, and is lost where the link fails. What it makes of the node and the
    /// disk, what is offered and the counts are those of the run over the events of these polls and moments, and the
    /// polls and moments behind them are still to come. Of the disk the same is said as by `run`.
    ///
    /// What is offered is told by the link with its count of polls, and what is asked of sleeps by the clock with its
    /// count of moments. How calls of the one stand to calls of the other is told by neither: that the moment of a tick
    /// is asked behind the polls of its cycle, and that the sleep is behind the sends of the tick.
    pub fn live<D: Disk, L: Link, C: Clock>(
        &mut self,
        disk: &mut D,
        link: &mut L,
        clock: &mut C,
        cycles: u32,
        period: u32,
    ) -> RunEnd
        requires stores { IsTrue (D.meaning disk.old).tells → AllStores (setup_of self.old).slot (D.meaning disk.old) }
        ensures lives { (n : State) → StandsFor E.Engine self.old n
            → Lives E.Engine D.meaning (is_fixed E.Engine self.old) (code_of E.Engine self.old) (setup_of self.old)
            self.new n (L.polls link.old) (C.moments clock.old) cycles result (L.polled link.old) (L.offered link.old)
            (L.offered link.new) disk.old disk.new }
        ensures sleeps { Sleeps (C.moments clock.old) (C.given clock.old) cycles period (C.asked clock.old)
            (C.asked clock.new) }
        ensures left { IsLeft cycles (L.polls link.old) (L.polls link.new) (C.moments clock.old) (C.moments clock.new) }
        ensures bound { L.bound link.new ≡ L.bound link.old }
        ensures same { SameSetup E.Engine self.old self.new }
        ensures stores { IsTrue (D.meaning disk.old).tells → AllStores (setup_of self.old).slot (D.meaning disk.new) }
        ensures attached { (D.meaning disk.new).attached ≡ (D.meaning disk.old).attached }
        ensures time { Elapses (D.meaning disk.old) (D.meaning disk.new) }
    {
        runs_follow_one_another();
        let mut ended = RunEnd {
            cycles: 0,
            taken: 0,
            offered: 0,
            traps: 0,
        };
        let mut round = Round::new();
        let mut bytes = [0; 512];
        let mut first = 0;
        let mut done = 0;
        'events: while done < cycles {
            match round.next(link, &mut bytes) {
                Some((from, len)) => {
                    self.kept.hear(
                        disk,
                        from,
                        &bytes[..len],
                        link,
                        &mut self.outbox,
                        &mut ended,
                    );
                }
                None => {
                    let ticks = clock.now();
                    first = first_of(done, first, ticks);
                    self.kept
                        .pass(disk, ticks, link, &mut self.outbox, &mut ended);
                    done += 1;
                    clock.sleep_until(wake(first, done, period));
                    round = Round::new();
                }
            }
        }
        ended
    }
}

impl<E: Engine> Kept<E> {
    // Handles a datagram that came, counts it, and offers what is sent.
    fn hear<D: Disk, L: Link>(
        &mut self,
        disk: &mut D,
        from: Addr,
        bytes: &[u8],
        link: &mut L,
        outbox: &mut Outbox,
        ended: &mut RunEnd,
    )
        requires stands { (n : State) × StandsFor E.Engine self.old n }
        requires stores { IsTrue (D.meaning disk.old).tells → AllStores (setup_of self.old).slot (D.meaning disk.old) }
        ensures steps { (n : State) → StandsFor E.Engine self.old n
            → Steps E.Engine D.meaning (is_fixed E.Engine self.old) (code_of E.Engine self.old) (setup_of self.old)
            self.new n (datagram from bytes.now) outbox.new ended.old ended.new disk.old disk.new }
        ensures offered { AddsWhereTold (L.offered link.old) (L.offered link.new)
            (map (offered_at (L.polled link.old)) outbox.new) }
        ensures polls { L.polls link.new ≡ L.polls link.old }
        ensures polled { L.polled link.new ≡ L.polled link.old }
        ensures bound { L.bound link.new ≡ L.bound link.old }
        ensures same { SameSetup E.Engine self.old self.new }
        ensures stores { IsTrue (D.meaning disk.old).tells → AllStores (setup_of self.old).slot (D.meaning disk.new) }
        ensures faults { (D.meaning disk.old).faults ≤ (D.meaning disk.new).faults }
        ensures attached { (D.meaning disk.new).attached ≡ (D.meaning disk.old).attached }
        ensures time { Elapses (D.meaning disk.old) (D.meaning disk.new) }
    {
        outbox.clear();
        let event = Event::Datagram { from, bytes };
        let traps = self.handle(disk, event, outbox);
        *ended = ended.with_one(event, outbox.len(), traps);
        offer_all(outbox, link);
    }

    // Lets a moment come, counts the tick, and offers what is sent.
    fn pass<D: Disk, L: Link>(
        &mut self,
        disk: &mut D,
        ticks: i64,
        link: &mut L,
        outbox: &mut Outbox,
        ended: &mut RunEnd,
    )
        requires stands { (n : State) × StandsFor E.Engine self.old n }
        requires stores { IsTrue (D.meaning disk.old).tells → AllStores (setup_of self.old).slot (D.meaning disk.old) }
        ensures steps { (n : State) → StandsFor E.Engine self.old n
            → Steps E.Engine D.meaning (is_fixed E.Engine self.old) (code_of E.Engine self.old) (setup_of self.old)
            self.new n (tick ticks) outbox.new ended.old ended.new disk.old disk.new }
        ensures offered { AddsWhereTold (L.offered link.old) (L.offered link.new)
            (map (offered_at (L.polled link.old)) outbox.new) }
        ensures polls { L.polls link.new ≡ L.polls link.old }
        ensures polled { L.polled link.new ≡ L.polled link.old }
        ensures bound { L.bound link.new ≡ L.bound link.old }
        ensures same { SameSetup E.Engine self.old self.new }
        ensures stores { IsTrue (D.meaning disk.old).tells → AllStores (setup_of self.old).slot (D.meaning disk.new) }
        ensures faults { (D.meaning disk.old).faults ≤ (D.meaning disk.new).faults }
        ensures attached { (D.meaning disk.new).attached ≡ (D.meaning disk.old).attached }
        ensures time { Elapses (D.meaning disk.old) (D.meaning disk.new) }
    {
        outbox.clear();
        let event = Event::Tick { ticks };
        let traps = self.handle(disk, event, outbox);
        *ended = ended.with_one(event, outbox.len(), traps);
        offer_all(outbox, link);
    }
}

// The moment of the first tick, once so many cycles are done and the next one's moment has come.
fn first_of(done: u32, first: i64, ticks: i64) -> i64
    ensures now { done ≡ 0 → result ≡ ticks }
    ensures before { 1 ≤ done → result ≡ first }
{
    if done == 0 { ticks } else { first }
}

// Offers each datagram of an outbox.
fn offer_all<L: Link>(outbox: &Outbox, link: &mut L)
    ensures offered { AddsWhereTold (L.offered link.old) (L.offered link.new)
        (map (offered_at (L.polled link.old)) outbox.now) }
    ensures polls { L.polls link.new ≡ L.polls link.old }
    ensures polled { L.polled link.new ≡ L.polled link.old }
    ensures bound { L.bound link.new ≡ L.bound link.old }
{
    'offers: for place in 0..outbox.len() {
        offer(outbox, place, link);
    }
}

// Offers the datagram in a place of an outbox. Where the link fails it is lost.
fn offer<L: Link>(outbox: &Outbox, place: usize, link: &mut L)
    requires { place < length outbox.now }
    ensures offered { (other : Sent)
        → AddsWhereTold (L.offered link.old) (L.offered link.new)
        (offered_at (L.polled link.old) (slice_index_or outbox.now place other) ∷ []) }
    ensures polls { L.polls link.new ≡ L.polls link.old }
    ensures polled { L.polled link.new ≡ L.polled link.old }
    ensures bound { L.bound link.new ≡ L.bound link.old }
{
    let (to, bytes) = outbox.get(place);
    let _lost = link.send(to, bytes);
}
