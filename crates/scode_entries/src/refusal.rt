//! Why a method is not compiled.

/// Why a method is not compiled.
#[derive(Clone, Copy, Debug, PartialEq, Eq)]
pub enum EmitRefusal {
    /// Its code passes 65,535 bytes.
    TooLong,
    /// Memory was wanted.
    Memory,
}
