//! A datagram, kept in place.
use crate::Addr;
use sed_value::InPlace;

/// A datagram and its peer. Contracts see the bytes as a list.
#[derive(Drop)]
pub struct Datagram {
    /// Whom it goes to.
    pub peer: Addr,
    /// Its bytes, at most 512.
    pub bytes: InPlace<512>,
}
