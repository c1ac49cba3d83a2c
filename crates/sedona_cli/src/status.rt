//! The status of the process.
ghost use Rattle.std.specs.Prelude.{◌≡◌};
ghost use Rattle.sedona_cli.specs.Status.{number_of, status_of};

use crate::refusal::Refusal;

/// How a command ended.
#[derive(Clone, Copy, Debug, PartialEq, Eq)]
pub enum Status {
    /// All that was asked was done, and its text was put.
    Done,
    /// The words are outside the table of words.
    Usage,
    /// A manifest or a source is refused, the kits break a rule, or a method is too long.
    Refused,
    /// A file could not be read, or the output file not be written.
    FileFault,
    /// The disk failed while a store was attached, made or opened.
    DeviceFault,
    /// What the store's file holds is refused.
    StoreRefused,
    /// The bytes of an image's file are no image, or it breaks a rule.
    ImageRefused,
    /// Want of memory.
    NoMemory,
    /// All was done, but its text could not be put; or the sink failed what was put as it was done.
    SinkFault,
    /// The bytes of a record's file are no record.
    RecordRefused,
    /// The link failed as its port was asked for.
    LinkFault,
    /// A users file or a secret file is refused.
    InputRefused,
    /// The slot of a new store is smaller than the application.
    SlotTooSmall,
}

impl Status {
    /// Its number, which the process ends with.
    pub fn number(self) -> u8
        ensures { result ≡ number_of self }
    {
        match self {
            Status::Done => 0,
            Status::Usage => 1,
            Status::Refused => 2,
            Status::FileFault => 3,
            Status::DeviceFault => 4,
            Status::StoreRefused => 5,
            Status::ImageRefused => 6,
            Status::NoMemory => 7,
            Status::SinkFault => 8,
            Status::RecordRefused => 9,
            Status::LinkFault => 10,
            Status::InputRefused => 11,
            Status::SlotTooSmall => 12,
        }
    }

    /// That of a refusal.
    pub fn of(refusal: &Refusal) -> Status
        ensures { result ≡ status_of refusal.now }
    {
        match refusal {
            Refusal::FileFault { .. } => Status::FileFault,
            Refusal::Refused { .. } => Status::Refused,
            Refusal::Rule { .. } => Status::Refused,
            Refusal::MethodTooLong { .. } => Status::Refused,
            Refusal::ImageRefused { .. } => Status::ImageRefused,
            Refusal::ImageBroken { .. } => Status::ImageRefused,
            Refusal::SlotTooSmall { .. } => Status::SlotTooSmall,
            Refusal::DeviceFault => Status::DeviceFault,
            Refusal::StoreExists => Status::StoreRefused,
            Refusal::NoStore => Status::StoreRefused,
            Refusal::NoApplication => Status::StoreRefused,
            Refusal::WrongKits { .. } => Status::StoreRefused,
            Refusal::OverLimit { .. } => Status::StoreRefused,
            Refusal::BadUsers => Status::InputRefused,
            Refusal::ShortSecret => Status::InputRefused,
            Refusal::BadRecord { .. } => Status::RecordRefused,
            Refusal::LinkFault => Status::LinkFault,
            Refusal::Memory => Status::NoMemory,
        }
    }
}
