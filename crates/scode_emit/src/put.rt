//! Instructions one behind the other.
ghost use Rattle.std.specs.Prelude.{◌≡◌, ◌++◌, ◌∷◌, [], OnOk};

use scode_ops::Op;
use sed_value::Memory;

// One more instruction.
pub(crate) fn put(ops: &mut Vec<Op>, op: Op) -> Result<(), Memory>
    ensures { OnOk result (ops.new.items ≡ ops.old.items ++ op ∷ []) }
{
    ops.push(op)?;
    Ok(())
}
