//! A record that is replayed.
ghost use Rattle.std.specs.Prelude.{IsErr, IsTrue, OnErr, OnOk, ◌≡◌};
ghost use Rattle.sed_outside.specs.Cause.{HasCause};
ghost use Rattle.disk_model.specs.Disk.{Elapses};
ghost use Rattle.app_save.specs.Saving.{AllStores};
ghost use Rattle.node_events.specs.Node.{Node as State};
ghost use Rattle.sed_node.specs.Standing.{SameSetup, StandsFor, code_of, is_fixed, setup_of};
ghost use Rattle.sed_node.specs.Replaying.{Replayed, Stopped};

use crate::Node;
use crate::ending::put_end;
use disk_model::Disk;
use replay_log::Records;
use sed_engine::Engine;
use sed_outside::{Sink, SinkFault};

/// Handles the entries of a record that are left, one after another, and puts each datagram that is sent as a line `>
/// A.B.C.D:PORT HEX`, in their order; then the text of the application that is reached, and then the five lines of
/// the run: its ticks, the datagrams that were handled, those that were sent, the root calls of its cycles that
/// trapped, and the sessions that live at its end. What it makes of the node and the disk, and what it puts, are
/// those of the run over the events that the entries come to. Where the sink fails a line, which is told by its count
/// of faults, it stops after the event whose line that was; where it fails what stands at the end, all entries were
/// handled.
///
/// The disk holds the store: every image that a crash now may leave is a whole one, before and after. Where the store
/// was opened to an application, and nothing was saved since, a crash at any moment from then on leaves an image that
/// opens to an application that was opened or saved, and to none before the last one acknowledged by then. The file
/// that is attached stays. No memory is taken but by adds.
pub fn replay<E: Engine, D: Disk, O: Sink>(
    node: &mut Node<E>,
    records: Records<'_>,
    disk: &mut D,
    out: &mut O,
) -> Result<(), SinkFault>
    requires stores { IsTrue (D.meaning disk.old).tells → AllStores (setup_of node.old).slot (D.meaning disk.old) }
    ensures replayed { (n : State) → StandsFor E.Engine node.old n
        → OnOk result (Replayed E.Engine D.meaning (is_fixed E.Engine node.old) (code_of E.Engine node.old)
        (setup_of node.old) node.new n records.entry (O.text out.old) (O.text out.new) disk.old disk.new) }
    ensures stopped { (n : State) → StandsFor E.Engine node.old n
        → OnErr result (Stopped E.Engine D.meaning (is_fixed E.Engine node.old) (code_of E.Engine node.old)
        (setup_of node.old) node.new n records.entry (O.text out.old) (O.text out.new) disk.old disk.new) }
    ensures same { SameSetup E.Engine node.old node.new }
    ensures stores { IsTrue (D.meaning disk.old).tells → AllStores (setup_of node.old).slot (D.meaning disk.new) }
    ensures attached { (D.meaning disk.new).attached ≡ (D.meaning disk.old).attached }
    ensures time { Elapses (D.meaning disk.old) (D.meaning disk.new) }
    ensures cause { HasCause (O.faults out.old) (O.faults out.new) (IsErr result) }
{
    let ended = node.run(disk, records, out)?;
    put_end(node, ended, out)
}
