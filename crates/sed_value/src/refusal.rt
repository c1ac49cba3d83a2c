//! Why a command of the Sox protocol is refused.
ghost use Rattle.std.specs.Prelude.{◌≡◌, ◌-◌, Some, slice_get, map};
ghost use Rattle.sed_value.specs.declared.refusal.Refusal.{Refusal as Refused};
ghost use Rattle.sed_value.specs.Refusal.{number_of_refusal, text_of_refusal, refusals, one_to_twenty_six};

/// Why a command is refused. Each refusal has a number, which orders them, and a text, which the reply carries.
#[derive(Clone, Copy, Debug, PartialEq, Eq)]
pub enum Refusal {
    /// The request's form is wrong.
    Malformed,
    /// No command has this letter.
    UnknownCommand,
    /// An id is not that of a live component.
    NoComponent,
    /// No type of that number may be added.
    NoType,
    /// The type is abstract.
    AbstractType,
    /// The name is not of a name's form.
    BadName,
    /// Another child of the parent has the name.
    NameTaken,
    /// The parent has as many children as it may have.
    TooManyChildren,
    /// The parent stands as deep as a component may.
    TooDeep,
    /// There are as many components as there may be.
    ComponentLimit,
    /// The data of a new component passes the data limit.
    DataFull,
    /// The type has no slot of that number.
    NoSlot,
    /// The slot is an action where a property is asked for, or the other way round.
    WrongKindOfSlot,
    /// The bytes are not exactly the values needed.
    BadValue,
    /// A buffer is longer than its type says.
    BufferTooLong,
    /// The types of the two slots do not go together.
    LinkTypesDiffer,
    /// The target slot has a link.
    TargetLinked,
    /// A component has as many links as it may have.
    LinksAtComponent,
    /// There are as many links as there may be.
    LinkLimit,
    /// There is no such link.
    NoLink,
    /// The ids are not the component's children, each once.
    NotTheChildren,
    /// The App cannot be deleted or renamed.
    AppItself,
    /// The component's fault is not 0.
    Faulted,
    /// The device of a save failed.
    SaveDevice,
    /// The application does not fit the store.
    StoreFull,
    /// Memory was wanted and refused.
    OutOfMemory,
}

impl Refusal {
    /// Its number, from 1 to 26.
    pub fn number(self) -> u8
        ensures { result ≡ number_of_refusal self }
    {
        self as u8 + 1
    }

    /// Its text, as a reply carries it.
    pub fn text(self) -> &'static str
        ensures { result.now ≡ text_of_refusal self }
    {
        match self {
            Refusal::Malformed => "malformed",
            Refusal::UnknownCommand => "unknown command",
            Refusal::NoComponent => "no component",
            Refusal::NoType => "no type",
            Refusal::AbstractType => "abstract type",
            Refusal::BadName => "bad name",
            Refusal::NameTaken => "name taken",
            Refusal::TooManyChildren => "too many children",
            Refusal::TooDeep => "too deep",
            Refusal::ComponentLimit => "component limit",
            Refusal::DataFull => "data full",
            Refusal::NoSlot => "no slot",
            Refusal::WrongKindOfSlot => "wrong kind of slot",
            Refusal::BadValue => "bad value",
            Refusal::BufferTooLong => "buffer too long",
            Refusal::LinkTypesDiffer => "link types differ",
            Refusal::TargetLinked => "target linked",
            Refusal::LinksAtComponent => "links at component",
            Refusal::LinkLimit => "link limit",
            Refusal::NoLink => "no link",
            Refusal::NotTheChildren => "not the children",
            Refusal::AppItself => "app itself",
            Refusal::Faulted => "faulted",
            Refusal::SaveDevice => "save device",
            Refusal::StoreFull => "store full",
            Refusal::OutOfMemory => "out of memory",
        }
    }
}

/// A law for provers: the numbers of the refusals, in the order of `refusals`, are 1 to 26, and each refusal stands
/// in that order at its number.
pub fn refusals_are_numbered()
    ensures in_order { map number_of_refusal refusals ≡ one_to_twenty_six }
    ensures each_once { (refusal : Refused) → slice_get refusals (number_of_refusal refusal - 1) ≡ Some refusal }
{}
