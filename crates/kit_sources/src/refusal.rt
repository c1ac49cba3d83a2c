//! Why the files of kits are refused.
ghost use Rattle.std.specs.Prelude.{◌≡◌, ◌⊎◌, IfOk};

use kit_manifest::Text;
use std::alloc::{AllocError, AllocFailed, Global};

/// Why a file that was read is refused.
#[derive(Clone, Copy, Debug, PartialEq, Eq)]
pub enum Why {
    /// A manifest is no TOML document.
    NotToml,
    /// A manifest lacks `name`, `version` or `files`.
    MissingKey,
    /// A manifest has a value of another type at one of its keys.
    WrongType,
    /// A manifest has a name of a kit that is not of their form.
    BadName,
    /// A manifest depends on a kit that is not among those read and not `sys`.
    UnknownKit,
    /// Dependences lead back to the manifest's kit.
    Cycle,
    /// Another manifest has the kit's name, or it is `sys`.
    RepeatedKit,
    /// A source, cut into tokens, goes on at this place, and nothing begins there.
    Lex { at: usize },
    /// The tokens of a source derive no unit, which shows at this place: where a token begins, or at the text's end.
    Parse { at: usize },
}

/// Why kits were not read.
#[derive(Drop)]
pub enum SourcesRefusal {
    /// The file could not be read, and the count of failed reads of its name rose or stands at its last value.
    FileFault { file: Text },
    /// The file was read, and is refused.
    Refused { file: Text, why: Why },
    /// Memory was wanted.
    Memory,
}

impl From<AllocError> for SourcesRefusal {
    ghost use Rattle.std.specs.Prelude.{◌≡◌};
    ghost use Rattle.kit_sources.specs.declared.refusal.SourcesRefusal.TheVariants.{Memory};

    ghost from_gives = { λ _ refusal. refusal ≡ Memory };

    fn from(_: AllocError) -> SourcesRefusal {
        SourcesRefusal::Memory
    }
}

impl<T: Drop> From<AllocFailed<T>> for SourcesRefusal {
    ghost use Rattle.std.specs.Prelude.{◌≡◌};
    ghost use Rattle.kit_sources.specs.declared.refusal.SourcesRefusal.TheVariants.{Memory};

    ghost from_gives = { λ _ refusal. refusal ≡ Memory };

    fn from(_: AllocFailed<T>) -> SourcesRefusal {
        SourcesRefusal::Memory
    }
}

/// The name, copied.
pub(crate) fn text_of(alloc: Global, name: &str) -> Result<Text, AllocError>
    ensures { IfOk result (λ text. text ≡ name.now) }
{
    Ok(Text::new(String::from_str(alloc, name)?))
}

/// That the file of this name could not be read; it takes memory for the name.
pub(crate) fn file_fault(alloc: Global, name: &str) -> SourcesRefusal
    ensures { (result ≡ SourcesRefusal.FileFault name.now) ⊎ (result ≡ SourcesRefusal.Memory) }
{
    match text_of(alloc, name) {
        Ok(file) => SourcesRefusal::FileFault { file },
        Err(_) => SourcesRefusal::Memory,
    }
}

/// That the file of this name is refused; it takes memory for the name.
pub(crate) fn refused(alloc: Global, name: &str, why: Why) -> SourcesRefusal
    ensures { (result ≡ SourcesRefusal.Refused name.now why) ⊎ (result ≡ SourcesRefusal.Memory) }
{
    match text_of(alloc, name) {
        Ok(file) => SourcesRefusal::Refused { file, why },
        Err(_) => SourcesRefusal::Memory,
    }
}
