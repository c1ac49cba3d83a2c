//! What a run came to.
ghost use Rattle.std.specs.Prelude.{codes};
ghost use Rattle.printed_app.specs.Puts.{Puts};
ghost use Rattle.printed_app.specs.Summary.{count_line, summary_text};

use crate::{put_bytes, put_number};
use sed_outside::{Sink, SinkFault};

/// The counts of a run: its cycles, the datagrams that it took and those that it offered to be sent, the traps of its
/// cycles, and the sessions that live at its end.
#[derive(Clone, Copy, Debug, PartialEq, Eq)]
pub struct Summary {
    pub cycles: u64,
    pub taken: u64,
    pub offered: u64,
    pub traps: u64,
    pub sessions: u8,
}

/// Puts the five lines `cycles N`, `in N`, `out N`, `traps N` and `sessions N` into a sink. Takes no memory of its
/// own. Where the sink fails, a front of the lines was put.
pub fn put_summary<O: Sink>(summary: &Summary, out: &mut O) -> Result<(), SinkFault>
    ensures { Puts O.Sink out.old out.new (summary_text summary.now) result }
{
    put_count(b"cycles", summary.cycles, out)?;
    put_count(b"in", summary.taken, out)?;
    put_count(b"out", summary.offered, out)?;
    put_count(b"traps", summary.traps, out)?;
    put_sessions(summary.sessions, out)
}

// Puts the line `sessions N`.
fn put_sessions<O: Sink>(sessions: u8, out: &mut O) -> Result<(), SinkFault>
    ensures { Puts O.Sink out.old out.new (count_line (codes "sessions") sessions) result }
{
    put_count(b"sessions", u64::from(sessions), out)
}

// Puts the line `NAME N`.
fn put_count<O: Sink>(name: &[u8], count: u64, out: &mut O) -> Result<(), SinkFault>
    ensures { Puts O.Sink out.old out.new (count_line name.now count) result }
{
    put_bytes(name, out)?;
    put_bytes(b" ", out)?;
    put_number(count, out)?;
    put_bytes(b"\n", out)
}
