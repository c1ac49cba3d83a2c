//! A node over a record.
ghost use Rattle.std.specs.Prelude.{◌≡◌, ◌≤◌, ◌<◌, length, slice_index_or, IsTrue, IsErr, IfOk, OnErr, OnOk};
ghost use Rattle.sed_outside.specs.Cause.{HasCause};
ghost use Rattle.sed_outside.specs.Sink.{PutsFront, with_text};
ghost use Rattle.disk_model.specs.Disk.{Elapses};
ghost use Rattle.app_save.specs.Saving.{AllStores};
ghost use Rattle.replay_log.specs.View.{entry_of};
ghost use Rattle.dasp_session.specs.Outbox.{Datagram as Sent};
ghost use Rattle.node_events.specs.Node.{Node as State};
ghost use Rattle.sed_node.specs.Running.{CountsOne, RunsAll, RunsUntil, Steps, line_of, lines_of};
ghost use Rattle.sed_node.specs.Standing.{SameSetup, StandsFor, code_of, is_fixed, setup_of};

use crate::kept::Kept;
use crate::node::Node;
use dasp_session::Outbox;
use disk_model::Disk;
use node_events::runs_follow_one_another;
use printed_app::datagram_line;
use replay_log::{Event, Records};
use sed_engine::Engine;
use sed_outside::{Sink, SinkFault};

/// What a run came to. Each count stands still at 2^64 - 1.
#[derive(Clone, Copy, Debug, PartialEq, Eq)]
pub struct RunEnd {
    /// How many ticks came.
    pub cycles: u64,
    /// How many datagrams were handled.
    pub taken: u64,
    /// How many datagrams were sent.
    pub offered: u64,
    /// How many root calls of the cycles trapped.
    pub traps: u64,
}

impl RunEnd {
    // The counts with an entry more, after which so many datagrams were sent and so many root calls trapped.
    pub(crate) fn with_one(self, event: Event<'_>, sent: usize, traps: u32) -> RunEnd
        ensures { CountsOne (entry_of event.entry) sent traps self result }
    {
        let (cycles, taken) = match event {
            Event::Datagram { .. } => (0, 1),
            Event::Tick { .. } => (1, 0),
        };
        RunEnd {
            cycles: self.cycles.saturating_add(cycles),
            taken: self.taken.saturating_add(taken),
            offered: self.offered.saturating_add(sent as u64),
            traps: self.traps.saturating_add(u64::from(traps)),
        }
    }
}

impl<E: Engine> Node<E> {
    /// Handles the entries of a record that are left, one after another, and puts each datagram that is sent as a line
    /// `> A.B.C.D:PORT HEX`, in their order. What it makes of the node and the disk, the lines and the counts are those
    /// of the run over the events that the entries come to. Where the sink fails a line, which is told by its count of
    /// faults, it stops after the event whose line that was.
    ///
    /// The disk holds the store: every image that a crash now may leave is a whole one, before and after. Where the
    /// store was opened to an application, and nothing was saved since, a crash at any moment from then on leaves an
    /// image that opens to an application that was opened or saved, and to none before the last one acknowledged by
    /// then. The file that is attached stays. No memory is taken but by adds.
    pub fn run<D: Disk, S: Sink>(
        &mut self,
        disk: &mut D,
        records: Records<'_>,
        out: &mut S,
    ) -> Result<RunEnd, SinkFault>
        requires stores { IsTrue (D.meaning disk.old).tells → AllStores (setup_of self.old).slot (D.meaning disk.old) }
        ensures runs { (n : State) → StandsFor E.Engine self.old n
            → IfOk result (λ ended. RunsAll E.Engine D.meaning (is_fixed E.Engine self.old) (code_of E.Engine self.old)
            (setup_of self.old) self.new n records.entry ended (S.text out.old) (S.text out.new) disk.old disk.new) }
        ensures stops { (n : State) → StandsFor E.Engine self.old n
            → OnErr result (RunsUntil E.Engine D.meaning (is_fixed E.Engine self.old) (code_of E.Engine self.old)
            (setup_of self.old) self.new n records.entry (S.text out.old) (S.text out.new) disk.old disk.new) }
        ensures same { SameSetup E.Engine self.old self.new }
        ensures stores { IsTrue (D.meaning disk.old).tells → AllStores (setup_of self.old).slot (D.meaning disk.new) }
        ensures attached { (D.meaning disk.new).attached ≡ (D.meaning disk.old).attached }
        ensures time { Elapses (D.meaning disk.old) (D.meaning disk.new) }
        ensures cause { HasCause (S.faults out.old) (S.faults out.new) (IsErr result) }
    {
        runs_follow_one_another();
        let mut left = records;
        let mut ended = RunEnd {
            cycles: 0,
            taken: 0,
            offered: 0,
            traps: 0,
        };
        'entries: loop {
            match left.next() {
                Some(event) => match self
                    .kept
                    .step(disk, event, &mut self.outbox, out, &mut ended)
                {
                    Ok(()) => {}
                    Err(fault) => return Err(fault),
                },
                None => return Ok(ended),
            }
        }
    }
}

impl<E: Engine> Kept<E> {
    // Handles an entry, counts it, and puts the lines of what is sent.
    fn step<D: Disk, S: Sink>(
        &mut self,
        disk: &mut D,
        event: Event<'_>,
        outbox: &mut Outbox,
        out: &mut S,
        ended: &mut RunEnd,
    ) -> Result<(), SinkFault>
        requires stands { (n : State) × StandsFor E.Engine self.old n }
        requires stores { IsTrue (D.meaning disk.old).tells → AllStores (setup_of self.old).slot (D.meaning disk.old) }
        ensures steps { (n : State) → StandsFor E.Engine self.old n
            → Steps E.Engine D.meaning (is_fixed E.Engine self.old) (code_of E.Engine self.old) (setup_of self.old)
            self.new n (entry_of event.entry) outbox.new ended.old ended.new disk.old disk.new }
        ensures done { OnOk result (S.text out.new ≡ with_text (S.text out.old) (lines_of outbox.new)) }
        ensures failed { OnErr result (PutsFront (S.text out.old) (S.text out.new) (lines_of outbox.new)) }
        ensures same { SameSetup E.Engine self.old self.new }
        ensures stores { IsTrue (D.meaning disk.old).tells → AllStores (setup_of self.old).slot (D.meaning disk.new) }
        ensures faults { (D.meaning disk.old).faults ≤ (D.meaning disk.new).faults }
        ensures attached { (D.meaning disk.new).attached ≡ (D.meaning disk.old).attached }
        ensures time { Elapses (D.meaning disk.old) (D.meaning disk.new) }
        ensures cause { HasCause (S.faults out.old) (S.faults out.new) (IsErr result) }
    {
        outbox.clear();
        let traps = self.handle(disk, event, outbox);
        *ended = ended.with_one(event, outbox.len(), traps);
        put_lines(outbox, out)
    }
}

// Puts a line for each datagram of an outbox.
fn put_lines<S: Sink>(outbox: &Outbox, out: &mut S) -> Result<(), SinkFault>
    ensures done { OnOk result (S.text out.new ≡ with_text (S.text out.old) (lines_of outbox.now)) }
    ensures failed { OnErr result (PutsFront (S.text out.old) (S.text out.new) (lines_of outbox.now)) }
    ensures cause { HasCause (S.faults out.old) (S.faults out.new) (IsErr result) }
{
    'lines: for place in 0..outbox.len() {
        match put_line(outbox, place, out) {
            Ok(()) => {}
            Err(fault) => return Err(fault),
        }
    }
    Ok(())
}

// Puts the line of the datagram in a place of an outbox.
fn put_line<S: Sink>(outbox: &Outbox, place: usize, out: &mut S) -> Result<(), SinkFault>
    requires { place < length outbox.now }
    ensures done { (other : Sent)
        → OnOk result (S.text out.new ≡ with_text (S.text out.old) (line_of (slice_index_or outbox.now place other))) }
    ensures failed { (other : Sent)
        → OnErr result (PutsFront (S.text out.old) (S.text out.new) (line_of (slice_index_or outbox.now place other))) }
    ensures cause { HasCause (S.faults out.old) (S.faults out.new) (IsErr result) }
{
    let (to, bytes) = outbox.get(place);
    let line = datagram_line(to, bytes);
    out.put(line.as_slice())
}
