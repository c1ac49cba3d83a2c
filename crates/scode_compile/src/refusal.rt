//! Why a program is not compiled.

/// Why a program is not compiled.
#[derive(Clone, Copy, Debug, PartialEq, Eq)]
pub enum CompileRefusal {
    /// The code of the method with this number passes 65,535 bytes, and that of none before it.
    MethodTooLong { method: usize },
    /// Memory was wanted.
    Memory,
}
