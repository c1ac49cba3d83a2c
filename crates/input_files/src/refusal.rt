//! Why an input file is refused.
use kit_manifest::Text;

/// Why an input file of a command is refused.
#[derive(Drop)]
pub enum InputRefusal {
    /// The file could not be read, and the count of failed reads of its name rose or stands at its last value.
    FileFault { file: Text },
    /// The text is no users file.
    BadUsers,
    /// The secret file has fewer than 20 bytes.
    ShortSecret,
    /// The bytes are no record, for a cause at this place, counted from 0.
    BadRecord { at: usize },
    /// The bytes are no image: the field that starts at this place, counted from 0, is the first that is cut or not
    /// allowed; or an image ends there, and bytes stand behind it.
    BadImage { at: usize },
    /// The image breaks this rule at this place of this method, and none before it. A rule on its tables is told by
    /// method 65,535 and place 0.
    BrokenRule { method: u16, at: u16, rule: u8 },
    /// Memory was wanted.
    Memory,
}
