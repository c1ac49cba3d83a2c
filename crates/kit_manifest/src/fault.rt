//! Why a manifest or a list of kits is refused.
use std::alloc::{AllocError, AllocFailed};
use thiserror::Error;

/// Why a manifest or a list of kits is refused. `at` is the place, from 0, of the manifest in the list.
#[derive(Clone, Copy, Debug, PartialEq, Eq, Error)]
pub enum ManifestFault {
    /// The text is no TOML document, as a text that is no UTF-8 is none.
    #[error("no TOML document")]
    NotToml,
    /// `name`, `version` or `files` is absent.
    #[error("a key is missing")]
    MissingKey,
    /// `name` or `version` is no string, or `files` or `depends` no array of strings.
    #[error("a value of a wrong type")]
    WrongType,
    /// A kit's name is not a letter and then letters or digits, 1 to 24 in all.
    #[error("a bad name of a kit")]
    BadName,
    /// A dependence is not among the kits and not `sys`.
    #[error("an unknown kit")]
    UnknownKit { at: usize },
    /// Dependences lead back to the kit.
    #[error("kits that depend on each other in a cycle")]
    Cycle { at: usize },
    /// Two kits have one name, or a kit is named `sys`.
    #[error("a repeated kit")]
    RepeatedKit { at: usize },
    /// Memory was wanted.
    #[error("out of memory")]
    Memory,
}

impl From<AllocError> for ManifestFault {
    ghost use Rattle.std.specs.Prelude.{◌≡◌};
    ghost use Rattle.kit_manifest.specs.declared.fault.ManifestFault.{ManifestFault};

    ghost from_gives = { λ _ fault. fault ≡ ManifestFault.Memory };

    fn from(_: AllocError) -> ManifestFault {
        ManifestFault::Memory
    }
}

impl<T: Drop> From<AllocFailed<T>> for ManifestFault {
    ghost use Rattle.std.specs.Prelude.{◌≡◌};
    ghost use Rattle.kit_manifest.specs.declared.fault.ManifestFault.{ManifestFault};

    ghost from_gives = { λ _ fault. fault ≡ ManifestFault.Memory };

    fn from(_: AllocFailed<T>) -> ManifestFault {
        ManifestFault::Memory
    }
}
