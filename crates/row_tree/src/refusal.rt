//! Why there is no tree.
ghost use Rattle.std.specs.Prelude.{◌≡◌};
ghost use Rattle.row_tree.specs.declared.refusal.TreeRefusal.TheVariants.{Memory};

use std::alloc::{AllocError, AllocFailed};

/// Why rows have no children.
#[derive(Clone, Copy, Debug, PartialEq, Eq)]
pub enum TreeRefusal {
    /// They are no tree.
    NoTree,
    /// Memory was wanted and refused.
    Memory,
}

impl From<AllocError> for TreeRefusal {
    ghost from_gives = { λ _ e. e ≡ Memory };

    fn from(_: AllocError) -> Self {
        TreeRefusal::Memory
    }
}

impl<T: Drop> From<AllocFailed<T>> for TreeRefusal {
    ghost from_gives = { λ _ e. e ≡ Memory };

    fn from(_: AllocFailed<T>) -> Self {
        TreeRefusal::Memory
    }
}
