//! The entries of a record.
use sed_outside::Addr;

/// An entry of a record. It borrows the record's bytes.
#[derive(Clone, Copy, Debug, PartialEq, Eq)]
pub enum Event<'a> {
    /// A datagram that came.
    Datagram {
        /// Its sender.
        from: Addr,
        /// What it is, at most 512 bytes.
        bytes: &'a [u8],
    },
    /// A tick.
    Tick {
        /// Its moment, in nanoseconds.
        ticks: i64,
    },
}
