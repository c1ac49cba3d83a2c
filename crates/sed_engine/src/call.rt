//! Places, root calls and their answers.

use sed_typed::SlotNo;

/// Where an engine keeps an object.
#[derive(Clone, Copy, Debug, PartialEq, Eq)]
pub struct Place(pub u32);

/// A callback of a component.
#[derive(Clone, Copy, Debug, PartialEq, Eq)]
pub enum Callback {
    Start,
    Stop,
    Changed,
}

/// What a root call runs: `execute`, the method of an action, or a callback.
#[derive(Clone, Copy, Debug, PartialEq, Eq)]
pub enum Root {
    Execute,
    Action(SlotNo),
    Callback(Callback),
}

/// How a root call ends: with so many turns left, or by the trap of this number, 1 to 5. The
/// definitions say 0 of a call that may not be made, and of no other.
#[derive(Clone, Copy, Debug, PartialEq, Eq)]
pub enum CallEnd {
    Done { left: u32 },
    Trap { number: u8 },
}

/// Why an object is not added.
#[derive(Clone, Copy, Debug, PartialEq, Eq)]
pub enum AddRefusal {
    /// The data sizes of the live objects and the new one pass the limit.
    DataFull,
    /// Memory was wanted and refused.
    Memory,
}
