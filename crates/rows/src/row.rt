//! The rows of a table.
ghost use Rattle.std.specs.Prelude.{◌≡◌, ◌++◌, ℕ, List, IfOk, IsErrOf};
ghost use Rattle.rows.specs.Fields as fields;
ghost use Rattle.rows.specs.Fields.{Writes};
ghost use Rattle.rows.specs.Row.{fields_of};

use crate::spelling::{behind_bar, spelled};
use std::alloc::{AllocError, AllocFailed, Global};
use thiserror::Error;

/// Why a line is no row.
#[derive(Clone, Copy, Debug, PartialEq, Eq, Error)]
pub enum RowFault {
    /// A `\` stands before what is no escape.
    #[error("a \\ that begins no escape")]
    BadEscape,
    /// Memory was wanted.
    #[error("out of memory")]
    Memory,
}

impl From<AllocError> for RowFault {
    ghost use Rattle.std.specs.Prelude.{◌≡◌};
    ghost use Rattle.rows.specs.declared.row.RowFault.{RowFault};

    ghost from_gives = { λ _ fault. fault ≡ RowFault.Memory };

    fn from(_: AllocError) -> RowFault {
        RowFault::Memory
    }
}

impl<T: Drop> From<AllocFailed<T>> for RowFault {
    ghost use Rattle.std.specs.Prelude.{◌≡◌};
    ghost use Rattle.rows.specs.declared.row.RowFault.{RowFault};

    ghost from_gives = { λ _ fault. fault ≡ RowFault.Memory };

    fn from(_: AllocFailed<T>) -> RowFault {
        RowFault::Memory
    }
}

/// The inputs of a case, and what is wanted of them.
#[derive(Drop)]
pub struct Row {
    pub inputs: Vec<Vec<u8>>,
    pub wanted: Vec<u8>,
}

impl Row {
    /// The row of a line: what its fields write, of which the last is what is wanted.
    ///
    /// Fields are parted by spaces, a bar and one space, which are none of them. In a field `\n`, `\r`, `\t`, `\\`
    /// and `\|` write one byte, and so does `\x` with two hex digits; any other byte is itself. A `\` before
    /// anything else is a fault.
    pub fn read(alloc: Global, line: &[u8]) -> Result<Row, RowFault>
        ensures written { IfOk result (λ row. Writes line.now (fields_of row)) }
        ensures only { IfOk result (λ row. (others : List (List ℕ)) → Writes line.now others → others ≡ fields_of row) }
        ensures fault { IsErrOf result RowFault.BadEscape → (others : List (List ℕ)) → Writes line.now others → ⊥ }
    {
        let mut inputs = Vec::new(alloc);
        let mut field = Vec::new(alloc);
        let mut rest = line;
        while !rest.is_empty() {
            if let Some(others) = behind_bar(rest) {
                inputs.push(field)?;
                field = Vec::new(alloc);
                rest = others;
                continue;
            }
            let Some((byte, others)) = spelled(rest) else {
                return Err(RowFault::BadEscape);
            };
            field.push(byte)?;
            rest = others;
        }
        Ok(Row {
            inputs,
            wanted: field,
        })
    }
}

/// Whether the line is a row: it is not empty, and begins with no `#`.
pub fn is_row(line: &[u8]) -> bool
    ensures { result ≡ fields.is_row line.now }
{
    match line.first() {
        None => false,
        Some(byte) => *byte != b'#',
    }
}
