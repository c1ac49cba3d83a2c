//! Callers that know an engine by its trait alone, and their use at the tiny engine.
ghost use Rattle.std.specs.Prelude.{◌≡◌, ◌≢◌, ◌↔◌, ℕ, ◌+◌, ◌<◌, ◌≤◌, false, IsTrue, IfOk, IfSome, IsSomeAnd, OnErr};
ghost use Rattle.std.specs.FinMap as map;
ghost use Rattle.sed_engine.specs.Code.{called, data_of, is_creatable, may_call, may_store, new_object, root_of};
ghost use Rattle.sed_engine.specs.Code.{slot_value, with_slot};
ghost use Rattle.sed_engine.specs.Whole.{EndsWell};

use crate::tiny::{Tiny, int_kept};
use sed_engine::{AddRefusal, CallEnd, Engine, Place, Root};
use sed_typed::{SlotNo, TypeNo};
use sed_value::{SlotBuf, Value};
use std::alloc::Global;

/// Makes an object, stores a value in one of its properties, and reads it back into `out`.
///
/// The other places stay. A refusal comes where the engine's `add` refuses, and changes nothing.
pub fn make_with<E: Engine>(
    engine: &mut E,
    t: TypeNo,
    s: SlotNo,
    v: &SlotBuf,
    out: &mut SlotBuf,
) -> Result<Place, AddRefusal>
    requires creatable { IsTrue (is_creatable (E.meaning engine.old) t.0) }
    requires few { map.len (E.live engine.old) < 4096 }
    requires goes { IsTrue (may_store (E.meaning engine.old) t.0 s.0 v.now) }
    ensures made { IfOk result (λ p. map.get (E.live engine.new) p.0
        ≡ Some (with_slot (E.meaning engine.old) (new_object (E.meaning engine.old) t.0) s.0 v.now)) }
    ensures read { IfOk result (λ p. out.new
        ≡ slot_value (E.meaning engine.old)
        (with_slot (E.meaning engine.old) (new_object (E.meaning engine.old) t.0) s.0 v.now) s.0) }
    ensures others { IfOk result (λ p. (q : ℕ) → q ≢ p.0
        → map.get (E.live engine.new) q ≡ map.get (E.live engine.old) q) }
    ensures refused { OnErr result (E.live engine.new ≡ E.live engine.old) }
    ensures full { (result ≡ Err AddRefusal.DataFull) ↔ (E.limit engine.old
        < data_of (E.meaning engine.old) (E.live engine.old) + (E.meaning engine.old).data_size t.0) }
    ensures memory { result ≡ Err AddRefusal.Memory → E.fixed engine.old ≡ false }
    ensures meaning { E.meaning engine.new ≡ E.meaning engine.old }
    ensures statics { E.statics engine.new ≡ E.statics engine.old }
{
    let p = match engine.add(t) {
        Ok(p) => p,
        Err(refusal) => return Err(refusal),
    };
    engine.set(p, s, v);
    engine.get(p, s, out);
    Ok(p)
}

/// Runs a root call, as the engine's `call` does. It ends normally, with no more turns left than were
/// given, or by one of the five traps: the engine's `schema` says that what is kept fits, so the code
/// may be asked this.
pub fn call_well<E: Engine>(
    engine: &mut E,
    p: Place,
    r: Root,
    arg: &SlotBuf,
    turns: u32,
    ticks: i64,
) -> CallEnd
    requires live { IsSomeAnd (map.get (E.live engine.old) p.0) (λ o.
        IsTrue (may_call (E.meaning engine.old) o.class r arg.now)) }
    requires some_turns { 1 ≤ turns }
    requires most_turns { turns ≤ 1000000 }
    ensures well { EndsWell turns result }
    ensures end { IfSome (map.get (E.live engine.old) p.0) (λ o.
        result ≡ (root_of (E.meaning engine.old) o (E.statics engine.old) r arg.now turns ticks).end) }
    ensures left { IfSome (map.get (E.live engine.old) p.0) (λ o.
        E.live engine.new ≡ map.insert (E.live engine.old) p.0
        (called o (root_of (E.meaning engine.old) o (E.statics engine.old) r arg.now turns ticks))) }
    ensures statics { IfSome (map.get (E.live engine.old) p.0) (λ o.
        E.statics engine.new ≡ (root_of (E.meaning engine.old) o (E.statics engine.old)
        r arg.now turns ticks).statics) }
    ensures meaning { E.meaning engine.new ≡ E.meaning engine.old }
{
    let _schema = engine.schema();
    engine.call(p, r, arg, turns, ticks)
}

/// Makes a folder in a new tiny engine and executes it once, which does nothing and takes no turn.
pub fn end_of_folder(alloc: Global, turns: u32) -> Result<CallEnd, AddRefusal>
    requires some_turns { 1 ≤ turns }
    requires most_turns { turns ≤ 1000000 }
    ensures { IfOk result (λ end. end ≡ CallEnd.Done turns) }
{
    let mut engine = match Tiny::new(alloc, 4) {
        Ok(engine) => engine,
        Err(_) => return Err(AddRefusal::Memory),
    };
    let mut v = SlotBuf::new();
    v.put(Value::Int(0));
    let mut out = SlotBuf::new();
    let nothing = SlotBuf::new();
    match make_with(&mut engine, TypeNo(4), SlotNo(0), &v, &mut out) {
        Ok(p) => Ok(call_well(&mut engine, p, Root::Execute, &nothing, turns, 0)),
        Err(refusal) => Err(refusal),
    }
}

/// Makes a folder with this `meta` in a new tiny engine, and gives what its `meta` then is.
///
/// `DataFull` comes only where the folder's 4 bytes pass the limit, and then no folder is made.
pub fn meta_of_folder(alloc: Global, limit: u32, meta: i32) -> Result<i32, AddRefusal>
    ensures value { IfOk result (λ m. m ≡ meta) }
    ensures fits { IfOk result (λ m. 4 ≤ limit) }
    ensures full { result ≡ Err AddRefusal.DataFull → limit < 4 }
{
    let mut engine = match Tiny::new(alloc, limit) {
        Ok(engine) => engine,
        Err(_) => return Err(AddRefusal::Memory),
    };
    let mut v = SlotBuf::new();
    v.put(Value::Int(meta));
    let mut out = SlotBuf::new();
    match make_with(&mut engine, TypeNo(4), SlotNo(0), &v, &mut out) {
        Ok(_) => Ok(int_kept(&out)),
        Err(refusal) => Err(refusal),
    }
}

#[cfg(test)]
mod tests {
    use super::*;
    use std::alloc::AllocError;

    // A component takes 4 bytes.
    #[test]
    fn a_folder_keeps_its_meta(rt: HostRuntime) -> Result<(), AllocError> {
        let rows = [
            (8, 7, Ok(7)),
            (4, -2147483648, Ok(-2147483648)),
            (3, 7, Err(AddRefusal::DataFull)),
        ];
        for (limit, meta, expected) in rows {
            assert!(rt; meta_of_folder(rt.alloc(), limit, meta) == expected);
        }
        Ok(())
    }

    // `execute` of a folder does nothing, and takes no turn.
    #[test]
    fn a_folder_is_executed(rt: HostRuntime) -> Result<(), AllocError> {
        assert!(rt; end_of_folder(rt.alloc(), 10) == Ok(CallEnd::Done { left: 10 }));
        Ok(())
    }
}
