//! Where printed text goes.
ghost use Rattle.std.specs.Prelude.{◌≡◌, ◌≤◌, ◌+◌, List, ℕ, Option, OnOk, OnErr, IsErr};
ghost use Rattle.sed_outside.specs.Cause.{HasCause};
ghost use Rattle.sed_outside.specs.Sink.{with_text, PutsFront};

use thiserror::Error;

/// Why a piece of text was not put.
#[derive(Clone, Copy, Debug, PartialEq, Eq, Error)]
pub enum SinkFault {
    /// The outside failed, or took nothing of a piece that isn't empty. The count rose or stands at its last value.
    #[error("the text could not be written")]
    Failed,
}

/// Where printed text goes, one piece behind the other.
pub trait Sink {
    /// The bytes that were put so far, where they are told. Whether they are told is changed by no call.
    ghost text: { Self → Option (List ℕ) };

    /// How many puts have failed. The count never falls, goes on by one, and stands still at 2^64 - 1.
    ghost faults: { Self → ℕ };

    /// Puts these bytes behind those that were put before. It takes no memory. After a fault a front of them stands
    /// there, which may be all of them or none.
    fn put(&mut self, bytes: &[u8]) -> Result<(), SinkFault>
        ensures ok { OnOk result (text self.new ≡ with_text (text self.old) bytes.now) }
        ensures err { OnErr result (PutsFront (text self.old) (text self.new) bytes.now) }
        ensures cause { HasCause (faults self.old) (faults self.new) (IsErr result) }
        ensures by_one { faults self.new ≤ faults self.old + 1 };
}
