//! A sink that collects its text in memory.
ghost use Rattle.std.specs.Prelude.{◌≡◌, ◌≤◌, ◌+◌, ◌++◌, [], Some, IsErr, OnErr, OnOk};
ghost use Rattle.sed_outside.specs.Cause.{HasCause};
ghost use Rattle.sed_outside.specs.Sink.{PutsFront};
ghost use Rattle.printed_app.specs.Collected.{faults_of, text_of};

use sed_outside::{Sink, SinkFault};
use std::alloc::Global;

/// A sink that collects its text in memory, and tells it. Its puts take memory; one that finds none fails, and puts
/// nothing.
#[derive(Drop)]
pub struct Collected {
    bytes: Vec<u8>,
    faults: u64,
}

impl Collected {
    /// No text yet, and no put that failed. It takes no memory yet.
    pub fn new(alloc: Global) -> Collected
        ensures text { ⟦<Collected as Sink>⟧.text result ≡ Some [] }
        ensures faults { ⟦<Collected as Sink>⟧.faults result ≡ 0 }
    {
        Collected {
            bytes: Vec::new(alloc),
            faults: 0,
        }
    }

    /// The text.
    pub fn into_bytes(self) -> Vec<u8>
        ensures { ⟦<Collected as Sink>⟧.text self ≡ Some result.items }
    {
        self.bytes
    }
}

impl Sink for Collected {
    ghost text = { λ c. Some (text_of c) };

    ghost faults = { faults_of };

    /// As every put, but it takes memory, and one that fails puts nothing.
    fn put(&mut self, bytes: &[u8]) -> Result<(), SinkFault>
        ensures ok { OnOk result (text_of self.new ≡ text_of self.old ++ bytes.now) }
        ensures err { OnErr result (PutsFront (Some (text_of self.old)) (Some (text_of self.new)) bytes.now) }
        ensures cause { HasCause (faults_of self.old) (faults_of self.new) (IsErr result) }
        ensures by_one { faults_of self.new ≤ faults_of self.old + 1 }

        ensures stays { OnErr result (text_of self.new ≡ text_of self.old) }
    {
        match self.bytes.extend_from_slice(bytes) {
            Ok(()) => Ok(()),
            Err(_) => {
                self.faults = self.faults.saturating_add(1);
                Err(SinkFault::Failed)
            }
        }
    }
}
