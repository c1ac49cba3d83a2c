//! Why a store was not made, opened or saved.
ghost use Rattle.std.specs.Prelude.{◌≡◌};
ghost use Rattle.app_save.specs.declared.refusal.SaveRefusal.TheVariants.{Device, Memory as MemoryRefusal};

use disk_model::DiskFault;
use sed_value::Memory;
use thiserror::Error;

/// Why a store was not made, opened or saved.
#[derive(Clone, Copy, Debug, PartialEq, Eq, Error)]
pub enum SaveRefusal {
    /// The disk failed, and its count of faults rose or stands at its last value.
    #[error("the disk failed")]
    Device,
    /// The payload is longer than a slot. Nothing was asked of the disk.
    #[error("the payload is longer than a slot")]
    Full,
    /// A store is made in an empty file alone.
    #[error("the file isn't empty")]
    NotEmpty,
    /// The file is no whole store.
    #[error("the file is no store")]
    NotAStore,
    /// Memory was wanted.
    #[error("out of memory")]
    Memory,
}

impl From<DiskFault> for SaveRefusal {
    ghost from_gives = { λ _ refusal. refusal ≡ Device };

    fn from(_fault: DiskFault) -> SaveRefusal {
        SaveRefusal::Device
    }
}

impl From<Memory> for SaveRefusal {
    ghost from_gives = { λ _ refusal. refusal ≡ MemoryRefusal };

    fn from(_refused: Memory) -> SaveRefusal {
        SaveRefusal::Memory
    }
}
