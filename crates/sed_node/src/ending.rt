//! What stands at the end of a run.
ghost use Rattle.std.specs.Prelude.{◌++◌, IsErr};
ghost use Rattle.sed_outside.specs.Cause.{HasCause};
ghost use Rattle.printed_app.specs.Puts.{Puts};
ghost use Rattle.printed_app.specs.Application.{application_text};
ghost use Rattle.printed_app.specs.Summary.{summary_text};
ghost use Rattle.node_events.specs.Node.{Node as State, live_sessions};
ghost use Rattle.sed_node.specs.Standing.{StandsFor, code_of};

use crate::{Node, RunEnd};
use printed_app::{Summary, put_application, put_summary};
use sed_engine::Engine;
use sed_outside::{Sink, SinkFault};

/// Puts what stands at the end of a run that came to this: the application, and the counts.
pub fn put_end<E: Engine, O: Sink>(
    node: &Node<E>,
    ended: RunEnd,
    out: &mut O,
) -> Result<(), SinkFault>
    ensures puts { (n : State) → StandsFor E.Engine node.now n
        → Puts O.Sink out.old out.new (application_text (code_of E.Engine node.now) n.application
        ++ summary_text (record {
          cycles = ended.cycles;
          taken = ended.taken;
          offered = ended.offered;
          traps = ended.traps;
          sessions = live_sessions n;
        })) result }
    ensures cause { HasCause (O.faults out.old) (O.faults out.new) (IsErr result) }
{
    put_application(node.app(), out)?;
    put_counts(ended, node.sessions(), out)
}

// Puts the counts of a run and the sessions that live at its end.
fn put_counts<O: Sink>(ended: RunEnd, sessions: u8, out: &mut O) -> Result<(), SinkFault>
    ensures { Puts O.Sink out.old out.new (summary_text (record {
      cycles = ended.cycles;
      taken = ended.taken;
      offered = ended.offered;
      traps = ended.traps;
      sessions = sessions;
    })) result }
{
    let summary = Summary {
        cycles: ended.cycles,
        taken: ended.taken,
        offered: ended.offered,
        traps: ended.traps,
        sessions,
    };
    put_summary(&summary, out)
}
