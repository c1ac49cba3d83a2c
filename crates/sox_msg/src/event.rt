//! What a session is told without asking.
use sed_value::Id;

/// A part of a component that differs from what was posted last. It borrows the part's bytes.
#[derive(Clone, Copy, Debug, PartialEq, Eq)]
pub struct Event<'a> {
    /// The component.
    pub id: Id,
    /// One of the letters `t`, `c`, `r` and `l`.
    pub part: u8,
    /// The part.
    pub bytes: &'a [u8],
}
