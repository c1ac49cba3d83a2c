//! Why no record is generated.
ghost use Rattle.std.specs.Prelude.{◌≡◌};
ghost use Rattle.record_making.specs.declared.refusal.RecordRefusal.TheVariants.{Memory as MemoryRefusal};

use sed_value::Memory;
use thiserror::Error;

/// Why no record is generated.
#[derive(Clone, Copy, Debug, PartialEq, Eq, Error)]
pub enum RecordRefusal {
    /// No user of that name is among the users.
    #[error("no such user")]
    NoUser,
    /// Memory was wanted.
    #[error("out of memory")]
    Memory,
}

impl From<Memory> for RecordRefusal {
    ghost from_gives = { λ _ refusal. refusal ≡ MemoryRefusal };

    fn from(_refused: Memory) -> RecordRefusal {
        RecordRefusal::Memory
    }
}
