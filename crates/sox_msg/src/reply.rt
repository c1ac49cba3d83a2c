//! What a request is answered.
use sed_value::{Id, Refusal};

/// The answer to a request. It borrows its bytes.
#[derive(Clone, Copy, Debug, PartialEq, Eq)]
pub struct Reply<'a> {
    /// The request's number.
    pub number: u8,
    /// The answer.
    pub body: ReplyBody<'a>,
}

/// The answer to a request.
#[derive(Clone, Copy, Debug, PartialEq, Eq)]
pub enum ReplyBody<'a> {
    /// What was asked for is done, and there is nothing to say.
    Done {
        /// The request's letter as a capital.
        letter: u8,
    },
    /// A component was added.
    Added {
        /// The component.
        id: Id,
    },
    /// A part of a component.
    Part {
        /// The component.
        id: Id,
        /// One of the letters `t`, `c`, `r`, `l` and `f`.
        part: u8,
        /// The part.
        bytes: &'a [u8],
    },
    /// The value of a property.
    Slot {
        /// The component.
        id: Id,
        /// The property.
        slot: u8,
        /// The value.
        bytes: &'a [u8],
    },
    /// The kits and their checksums.
    Version {
        /// How many kits, and then the name and the checksum of each.
        schema: &'a [u8],
    },
    /// Why nothing was done.
    Refused(Refusal),
}
