//! Instructions as bytes.
ghost use Rattle.std.specs.Prelude.{◌≡◌, All, IfOk, IsTrue};
ghost use Rattle.scode_ops.specs.Codes.{is_spelled};
ghost use Rattle.scode_emit.specs.Code as code;

use scode_ops::{Op, encode};
use sed_value::Memory;
use std::alloc::Global;

/// The bytes of instructions, one behind the other.
pub fn bytes_of(alloc: Global, ops: &[Op]) -> Result<Vec<u8>, Memory>
    requires { All (λ op. IsTrue (is_spelled op)) ops.now }
    ensures { IfOk result (λ bytes. bytes.items ≡ code.bytes_of ops.now) }
{
    let mut bytes = Vec::new(alloc);
    for op in ops {
        encode(*op, &mut bytes)?;
    }
    Ok(bytes)
}
