//! A node over a link and a clock.
ghost use Rattle.std.specs.Prelude.{IsErr, IsTrue, ◌≡◌};
ghost use Rattle.sed_outside.specs.Cause.{HasCause};
ghost use Rattle.disk_model.specs.Disk.{Elapses};
ghost use Rattle.app_save.specs.Saving.{AllStores};
ghost use Rattle.node_events.specs.Node.{Node as State};
ghost use Rattle.sed_node.specs.Living.{IsLeft, Sleeps};
ghost use Rattle.sed_node.specs.Standing.{SameSetup, StandsFor, code_of, is_fixed, setup_of};
ghost use Rattle.sed_node.specs.LiveText.{LivedThrough};

use crate::Node;
use crate::ending::put_end;
use disk_model::Disk;
use sed_engine::Engine;
use sed_outside::{Clock, Link, Sink, SinkFault};

/// Runs so many cycles over a link and a clock, each with the datagrams of at most 16 polls and then a tick, behind
/// which it sleeps until as many periods are over as cycles are done; a period is in milliseconds. Each datagram that
/// is sent is offered to the link before the next poll. Then it puts the text of the application that is reached, and
/// the five lines of the run: its ticks, the datagrams that were handled, those that were offered, the root calls of
/// its cycles that trapped, and the sessions that live at its end. What it makes of the node and the disk, what it
/// offers and what it puts, are those of the run over the events of these polls and moments, and the polls and moments
/// behind them are still to come. Where the sink fails, which is told by its count of faults, a front of the text was
/// put. The text is put last; no clause says so, since link, clock and sink have no history in common.
///
/// Of the disk and the file that is attached the same is said as by `replay`. No memory is taken but by adds.
pub fn live<E: Engine, D: Disk, L: Link, C: Clock, O: Sink>(
    node: &mut Node<E>,
    disk: &mut D,
    link: &mut L,
    clock: &mut C,
    cycles: u32,
    period: u32,
    out: &mut O,
) -> Result<(), SinkFault>
    requires stores { IsTrue (D.meaning disk.old).tells → AllStores (setup_of node.old).slot (D.meaning disk.old) }
    ensures lived { (n : State) → StandsFor E.Engine node.old n
        → LivedThrough E.Engine O.Sink D.meaning (is_fixed E.Engine node.old) (code_of E.Engine node.old)
        (setup_of node.old) node.new n (L.polls link.old) (C.moments clock.old) cycles (L.polled link.old)
        (L.offered link.old) (L.offered link.new) out.old out.new disk.old disk.new result }
    ensures sleeps { Sleeps (C.moments clock.old) (C.given clock.old) cycles period (C.asked clock.old)
        (C.asked clock.new) }
    ensures left { IsLeft cycles (L.polls link.old) (L.polls link.new) (C.moments clock.old) (C.moments clock.new) }
    ensures bound { L.bound link.new ≡ L.bound link.old }
    ensures same { SameSetup E.Engine node.old node.new }
    ensures stores { IsTrue (D.meaning disk.old).tells → AllStores (setup_of node.old).slot (D.meaning disk.new) }
    ensures attached { (D.meaning disk.new).attached ≡ (D.meaning disk.old).attached }
    ensures time { Elapses (D.meaning disk.old) (D.meaning disk.new) }
    ensures cause { HasCause (O.faults out.old) (O.faults out.new) (IsErr result) }
{
    let ended = node.live(disk, link, clock, cycles, period);
    put_end(node, ended, out)
}
