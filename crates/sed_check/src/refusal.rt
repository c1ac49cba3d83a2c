//! Why a program is not loaded.
ghost use Rattle.std.specs.Prelude.{◌≡◌};
ghost use Rattle.sed_check.specs.Refusals as meaning;

use kit_manifest::Text;
use kit_sources::{SourcesRefusal, Why};

/// Why a program is not loaded. Each names the file that it stands at, as it was handed in or as its manifest writes
/// it.
#[derive(Drop)]
pub enum KitsRefusal {
    /// The file could not be read, and the count of failed reads of its name rose or stands at its last value.
    FileFault { file: Text },
    /// A manifest, or a source that does not lex or parse.
    Refused { file: Text, why: Why },
    /// A source at whose place `at` a rule of checking is broken; it is the first fault of all.
    Rule { file: Text, at: u32, rule: u8 },
    /// Memory was wanted.
    Memory,
}

/// The refusal that ended the reading of sources. Takes no memory.
pub(crate) fn of_sources(refusal: SourcesRefusal) -> KitsRefusal
    ensures { result ≡ meaning.of_sources refusal }
{
    match refusal {
        SourcesRefusal::FileFault { file } => KitsRefusal::FileFault { file },
        SourcesRefusal::Refused { file, why } => KitsRefusal::Refused { file, why },
        SourcesRefusal::Memory => KitsRefusal::Memory,
    }
}
