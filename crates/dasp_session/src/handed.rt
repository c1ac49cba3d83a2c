//! What a datagram hands to what stands above the sessions.

/// What a datagram hands on.
#[derive(Clone, Copy, Debug, PartialEq, Eq)]
pub enum Handed {
    /// Nothing.
    Nothing,
    /// The session of this place ended.
    Ended { place: u8 },
    /// A message was taken in the session of this place. Its payload begins at this byte of the datagram.
    Payload { place: u8, at: usize },
}

/// What a message hands on of its session.
#[derive(Clone, Copy, Debug, PartialEq, Eq)]
pub(crate) enum Effect {
    /// Nothing.
    Nothing,
    /// The session ended.
    Ended,
    /// The message's payload.
    Payload,
}
