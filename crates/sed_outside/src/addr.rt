//! Where a peer on the network is.

/// The address of a UDP peer. Two addresses are the same exactly where their four bytes and their ports are.
#[derive(Clone, Copy, Debug, PartialEq, Eq)]
pub struct Addr {
    /// The four bytes of the host's IPv4 address, in the order in which they are written: 127.0.0.1 is 127, 0, 0 and 1.
    pub ip: [u8; 4],
    /// The port.
    pub port: u16,
}
