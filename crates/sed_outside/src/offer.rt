//! A datagram that was offered.
use crate::datagram::Datagram;

/// A datagram that was offered to a link.
#[derive(Drop)]
pub struct Offer {
    /// The datagram, with whom it goes to.
    pub datagram: Datagram,
    /// How many polls the link had made by then.
    pub polled: u64,
}
