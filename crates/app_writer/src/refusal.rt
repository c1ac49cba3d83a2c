//! Why there is no text of the App alone.
ghost use Rattle.std.specs.Prelude.{◌≡◌};
ghost use Rattle.app_writer.specs.declared.refusal.NewRefusal.TheVariants.{Memory as MemoryRefusal};

use sed_value::Memory;
use thiserror::Error;

/// Why there is no text of the App alone that fits a slot.
#[derive(Clone, Copy, Debug, PartialEq, Eq, Error)]
pub enum NewRefusal {
    /// The App's data passes the engine's limit.
    #[error("the data passes the limit")]
    DataFull,
    /// Memory was wanted.
    #[error("out of memory")]
    Memory,
    /// The text of the App alone has more bytes than a slot: it needs so many.
    #[error("a slot has fewer bytes than the application needs: {needs}")]
    SlotTooSmall { needs: usize },
}

impl From<Memory> for NewRefusal {
    ghost from_gives = { λ _ refusal. refusal ≡ MemoryRefusal };

    fn from(_refused: Memory) -> NewRefusal {
        NewRefusal::Memory
    }
}
