//! Why bytes are no message.
use sed_wire::{Short, StrFault};

/// The bytes are no message.
#[derive(Clone, Copy, Debug, PartialEq, Eq)]
pub struct Malformed;

impl From<Short> for Malformed {
    fn from(_short: Short) -> Malformed {
        Malformed
    }
}

impl From<StrFault> for Malformed {
    fn from(_fault: StrFault) -> Malformed {
        Malformed
    }
}
