//! Bufs: how many bytes one has, and a byte of it.
ghost use Rattle.std.specs.Prelude.{◌≡◌, ◌≤◌, ℕ, List, IfOk, length};
ghost use Rattle.sed_engine.specs.Values as val;
ghost use Rattle.sed_engine.specs.Expressions.{buf_bytes as bytes_of_buf};
ghost use Rattle.sed_engine.specs.Expressions.{buf_size as size_of_buf, buf_byte as byte_of_buf};
ghost use Rattle.sed_cells.specs.Places.{Plan as Planned, classes_in};
ghost use Rattle.walk_steps.specs.Seen.{seen, ends};
ghost use Rattle.walk_steps.specs.Stored.{stepped, with_locals};
ghost use Rattle.walk_steps.specs.Targets.{lent};

use crate::places::index_of;
use crate::reach;
use crate::store::Store;
use crate::texts::byte_at;
use crate::word::{Stop, Word};
use sed_cells::Plan;

// The bytes of the Buf in a field of an object: null traps.
fn buf_bytes<'a>(
    plan: &Plan,
    class: usize,
    object: Word,
    number: usize,
    store: &'a Store,
) -> Result<&'a [u8], Stop>
    requires { class ≤ classes_in plan.now }
    ensures read { (locals : List val.Val) →
        stepped plan.now class (lent result) store.now locals
        ≡ bytes_of_buf (seen plan.now class object) number (with_locals plan.now class store.now locals) }
    ensures few { IfOk result (λ bytes. length bytes.now ≤ 255) }
{
    let found = reach::field(plan, class, object, number);
    reach::bytes(store, plan, class, found)
}

/// How many bytes the Buf in a field of an object has: null traps.
pub fn buf_size(
    plan: &Plan,
    class: usize,
    object: Word,
    number: usize,
    store: &Store,
) -> Result<Word, Stop>
    requires { class ≤ classes_in plan.now }
    ensures { (locals : List val.Val) →
        stepped plan.now class (ends plan.now class result) store.now locals
        ≡ size_of_buf (seen plan.now class object) number (with_locals plan.now class store.now locals) }
{
    let bytes = buf_bytes(plan, class, object, number, store)?;
    Ok(Word::Int(bytes.len() as i32))
}

/// A byte of the Buf in a field of an object: null is tested, then the index.
pub fn buf_byte(
    plan: &Plan,
    class: usize,
    object: Word,
    number: usize,
    index: Word,
    store: &Store,
) -> Result<Word, Stop>
    requires { class ≤ classes_in plan.now }
    ensures { (locals : List val.Val) →
        stepped plan.now class (ends plan.now class result) store.now locals
        ≡ byte_of_buf (seen plan.now class object) number (seen plan.now class index)
        (with_locals plan.now class store.now locals) }
{
    let bytes = buf_bytes(plan, class, object, number, store)?;
    let at = index_of(bytes.len(), index)?;
    Ok(Word::Int(i32::from(byte_at(bytes, at))))
}
