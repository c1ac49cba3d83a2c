//! Why a users file is refused.
use std::alloc::{AllocError, AllocFailed};
use thiserror::Error;

/// Why a users file is refused.
#[derive(Clone, Copy, Debug, PartialEq, Eq, Error)]
pub enum UsersRefusal {
    /// The text is no users file.
    #[error("no users file")]
    BadUsers,
    /// Memory was wanted.
    #[error("out of memory")]
    Memory,
}

impl From<AllocError> for UsersRefusal {
    ghost use Rattle.std.specs.Prelude.{◌≡◌};
    ghost use Rattle.dasp_session.specs.declared.refusal.UsersRefusal.{UsersRefusal};

    ghost from_gives = { λ _ refusal. refusal ≡ UsersRefusal.Memory };

    fn from(_refused: AllocError) -> UsersRefusal {
        UsersRefusal::Memory
    }
}

impl<T: Drop> From<AllocFailed<T>> for UsersRefusal {
    ghost use Rattle.std.specs.Prelude.{◌≡◌};
    ghost use Rattle.dasp_session.specs.declared.refusal.UsersRefusal.{UsersRefusal};

    ghost from_gives = { λ _ refusal. refusal ≡ UsersRefusal.Memory };

    fn from(_refused: AllocFailed<T>) -> UsersRefusal {
        UsersRefusal::Memory
    }
}
