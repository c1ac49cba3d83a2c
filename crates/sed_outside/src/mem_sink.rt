//! A sink in memory.
ghost use Rattle.std.specs.Prelude.{◌≡◌, ◌≤◌, ◌+◌, ◌++◌, take, length, Some, [], IfOk, IsOk, IsErr, OnOk, OnErr};
ghost use Rattle.sed_outside.specs.Bounded.{room_left};
ghost use Rattle.sed_outside.specs.Cause.{HasCause};
ghost use Rattle.sed_outside.specs.Failing.{begins_with, FailsNow, after_call};
ghost use Rattle.sed_outside.specs.MemSink.{held_in, plan_of, faults_of};
ghost use Rattle.sed_outside.specs.Sink.{PutsFront};

use crate::bounded_text::BoundedText;
use crate::failing_calls::FailingCalls;
use crate::sink::{Sink, SinkFault};
use sed_value::Memory;
use std::alloc::Global;

/// A sink in memory with a room, and with puts that fail by number. It tells its text.
#[derive(Drop)]
pub struct MemSink {
    held: BoundedText,
    calls: FailingCalls,
    faults: u64,
}

impl MemSink {
    /// A sink with room for so many bytes, for which it takes all its memory here. `fails` has the numbers, from 0, of
    /// the puts that fail: these put nothing. A put past the room fails too, and puts the front that fits.
    pub fn new(alloc: Global, room: usize, fails: Vec<usize>) -> Result<MemSink, Memory>
        ensures text { IfOk result (λ sink. ⟦<MemSink as Sink>⟧.text sink ≡ Some []) }
        ensures faults { IfOk result (λ sink. ⟦<MemSink as Sink>⟧.faults sink ≡ 0) }
        ensures empty { IfOk result (λ sink. (held_in sink).text ≡ []) }
        ensures room { IfOk result (λ sink. (held_in sink).room ≡ room) }
        ensures fails { IfOk result (λ sink. plan_of sink ≡ begins_with fails.items) }
    {
        match BoundedText::new(alloc, room) {
            Ok(held) => Ok(MemSink {
                held,
                calls: FailingCalls::new(fails),
                faults: 0,
            }),
            Err(Memory) => Err(Memory),
        }
    }

    /// What was put.
    pub fn text(&self) -> &[u8]
        ensures { ⟦<MemSink as Sink>⟧.text self.now ≡ Some result.now }
    {
        self.held.as_slice()
    }
}

impl Sink for MemSink {
    ghost text = { λ m. Some (held_in m).text };

    ghost faults = { faults_of };

    /// As every put, and: the put is counted. One whose number is among those that fail puts nothing. Any other puts
    /// the front that fits, and is done exactly where that is all.
    fn put(&mut self, bytes: &[u8]) -> Result<(), SinkFault>
        ensures ok { OnOk result ((held_in self.new).text ≡ (held_in self.old).text ++ bytes.now) }
        ensures err { OnErr result (PutsFront (Some (held_in self.old).text) (Some (held_in self.new).text) bytes.now) }
        ensures cause { HasCause (faults_of self.old) (faults_of self.new) (IsErr result) }
        ensures by_one { faults_of self.new ≤ faults_of self.old + 1 }

        ensures room { (held_in self.new).room ≡ (held_in self.old).room }
        ensures calls { plan_of self.new ≡ after_call (plan_of self.old) }
        ensures planned { FailsNow (plan_of self.old)
            → IsErr result × ((held_in self.new).text ≡ (held_in self.old).text) }
        ensures front { (FailsNow (plan_of self.old) → ⊥)
            → (held_in self.new).text ≡ (held_in self.old).text ++ take (room_left (held_in self.old)) bytes.now }
        ensures fits { (FailsNow (plan_of self.old) → ⊥)
            → length bytes.now ≤ room_left (held_in self.old) → IsOk result }
    {
        if !self.calls.fails_now() && self.held.put(bytes) {
            return Ok(());
        }
        self.faults = self.faults.saturating_add(1);
        Err(SinkFault::Failed)
    }
}
