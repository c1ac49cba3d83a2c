//! Why a command is refused.
ghost use Rattle.std.specs.Prelude.{◌≡◌};
ghost use Rattle.sedona_cli.specs.Refusals as meaning;

use app_file::AppRefusal;
use input_files::InputRefusal;
use kit_manifest::Text;
use kit_sources::Why;
use scode_compile::CompileRefusal;
use sed_check::KitsRefusal;
use sed_value::KitRef;

/// Why a command is refused. Each has a status and a line.
#[derive(Drop)]
pub enum Refusal {
    /// The file could not be read, or the output file not be written, and the count of its failed reads, or writes,
    /// rose or stands at its last value.
    FileFault {
        file: Text,
    },
    /// A manifest, or a source that does not lex or parse.
    Refused {
        file: Text,
        why: Why,
    },
    /// A source at whose place `at` a rule of checking is broken; it is the first fault of all.
    Rule {
        file: Text,
        at: u32,
        rule: u8,
    },
    /// The code of the program's method with this number passes 65,535 bytes, and that of none before it.
    MethodTooLong {
        method: usize,
    },
    /// The bytes of an image's file are no image: the field at this place, counted from 0, is cut or not allowed, or
    /// an image ends there.
    ImageRefused {
        at: usize,
    },
    /// The image breaks this rule at this place of this method, and none before it; of its tables this is told by
    /// method 65,535.
    ImageBroken {
        method: u16,
        at: u16,
        rule: u8,
    },
    /// The text of an application needs so many bytes, and a slot has fewer.
    SlotTooSmall {
        needs: usize,
        has: u32,
    },
    /// The disk failed while the store was attached, made or opened, and its count of faults rose or stands at its last
    /// value.
    DeviceFault,
    /// A store is made in an empty file alone.
    StoreExists,
    /// The store's file is no whole store.
    NoStore,
    /// The payload of the store's newest slot is no application's file.
    NoApplication,
    /// The first place at which the kits of the store's application and those that were loaded differ, and what each
    /// has there.
    WrongKits {
        kit: u8,
        in_file: Option<KitRef>,
        in_kits: Option<KitRef>,
    },
    /// The first limit that the store's application passes: 1 an id of 4,096 or more, 2 the links, 3 the depth, 4 the
    /// children of a component, 5 the links at one, 6 the data.
    OverLimit {
        which: u8,
    },
    /// The text of the users file is outside its grammar.
    BadUsers,
    /// The secret file has fewer than 20 bytes.
    ShortSecret,
    /// The bytes of the record's file are no record, for a cause at this place, counted from 0.
    BadRecord {
        at: usize,
    },
    /// The link failed as its port was asked for, and its count of faults rose or stands at its last value.
    LinkFault,
    /// Memory was wanted.
    Memory,
}

/// The refusal that ended the loading of kits. Takes no memory.
pub fn of_kits(refusal: KitsRefusal) -> Refusal
    ensures { result ≡ meaning.of_kits refusal }
{
    match refusal {
        KitsRefusal::FileFault { file } => Refusal::FileFault { file },
        KitsRefusal::Refused { file, why } => Refusal::Refused { file, why },
        KitsRefusal::Rule { file, at, rule } => Refusal::Rule { file, at, rule },
        KitsRefusal::Memory => Refusal::Memory,
    }
}

/// The refusal that ended the compiling of a program. Takes no memory.
pub fn of_compiling(refusal: CompileRefusal) -> Refusal
    ensures { result ≡ meaning.of_compiling refusal }
{
    match refusal {
        CompileRefusal::MethodTooLong { method } => Refusal::MethodTooLong { method },
        CompileRefusal::Memory => Refusal::Memory,
    }
}

/// The refusal of what is no application. Takes no memory.
pub fn of_app(refusal: AppRefusal) -> Refusal
    ensures { result ≡ meaning.of_app refusal }
{
    match refusal {
        AppRefusal::NotAnApp { .. } => Refusal::NoApplication,
        AppRefusal::WrongKits {
            kit,
            in_file,
            in_kits,
        } => Refusal::WrongKits {
            kit,
            in_file,
            in_kits,
        },
        AppRefusal::OverLimit { which } => Refusal::OverLimit { which },
        AppRefusal::Memory => Refusal::Memory,
    }
}

/// The refusal of a file of users, of a secret, of a record or of an image. Takes no memory.
pub fn of_inputs(refusal: InputRefusal) -> Refusal
    ensures { result ≡ meaning.of_inputs refusal }
{
    match refusal {
        InputRefusal::FileFault { file } => Refusal::FileFault { file },
        InputRefusal::BadUsers => Refusal::BadUsers,
        InputRefusal::ShortSecret => Refusal::ShortSecret,
        InputRefusal::BadRecord { at } => Refusal::BadRecord { at },
        InputRefusal::BadImage { at } => Refusal::ImageRefused { at },
        InputRefusal::BrokenRule { method, at, rule } => Refusal::ImageBroken { method, at, rule },
        InputRefusal::Memory => Refusal::Memory,
    }
}
