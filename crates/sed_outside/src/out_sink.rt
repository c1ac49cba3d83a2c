//! The edge over a writer, which tells nothing of what was put.
ghost use Rattle.std.specs.Prelude.{◌≡◌, ◌≤◌, ◌+◌, OnOk, OnErr, IsErr};
ghost use Rattle.std.specs.Io.KnownBytes.{Appends};
ghost use Rattle.sed_outside.specs.Cause.{HasCause};
ghost use Rattle.sed_outside.specs.OutSink.{writer_of, text_of, faults_of};
ghost use Rattle.sed_outside.specs.Sink.{with_text, PutsFront};

use crate::sink::{Sink, SinkFault};
use std::io::{self, Write};

/// A sink over a writer, such as the standard output. It sends each piece on before the next one.
#[derive(Drop)]
pub struct OutSink<W> {
    out: W,
    faults: u64,
}

impl<W: Write> OutSink<W> {
    /// A sink over this writer, of which no put has failed yet.
    pub fn new(out: W) -> OutSink<W>
        ensures faults { ⟦<OutSink<W> as Sink>⟧.faults result ≡ 0 }
        ensures writer { writer_of result ≡ out }
    {
        OutSink { out, faults: 0 }
    }
}

// Writes the whole piece and sends it on. A writer that takes nothing of a piece that isn't empty fails.
fn write_through<W: Write>(out: &mut W, bytes: &[u8]) -> io::Result<()>
    ensures { OnOk result (Appends (W.contents out.old) (W.contents out.new) bytes.now) }
{
    out.write_all(bytes)?;
    out.flush()
}

impl<W: Write> Sink for OutSink<W> {
    ghost text = { text_of };

    ghost faults = { faults_of };

    /// As every put, and: where the writer's bytes are known, a put that is done adds exactly these.
    fn put(&mut self, bytes: &[u8]) -> Result<(), SinkFault>
        ensures ok { OnOk result (text_of self.new ≡ with_text (text_of self.old) bytes.now) }
        ensures err { OnErr result (PutsFront (text_of self.old) (text_of self.new) bytes.now) }
        ensures cause { HasCause (faults_of self.old) (faults_of self.new) (IsErr result) }
        ensures by_one { faults_of self.new ≤ faults_of self.old + 1 }
        ensures written { OnOk result
            (Appends (W.contents (writer_of self.old)) (W.contents (writer_of self.new)) bytes.now) }
    {
        match write_through(&mut self.out, bytes) {
            Ok(()) => Ok(()),
            Err(_) => {
                self.faults = self.faults.saturating_add(1);
                Err(SinkFault::Failed)
            }
        }
    }
}
