//! The trait of an engine.

ghost use Rattle.std.specs.Prelude.{◌≡◌, ◌↔◌, ℕ, ◌+◌, ◌<◌, ◌≤◌, Bool, false, IsTrue, IfOk, OnErr, IfSome, IsSome};
ghost use Rattle.std.specs.Prelude.{IsSomeAnd};
ghost use Rattle.std.specs.FinMap as map;
ghost use Rattle.sed_typed.specs.Contents.{Contents};
ghost use Rattle.sed_typed.specs.Spelled.{CanBeTold};
ghost use Rattle.sed_engine.specs.Code.{Meaning, Places, is_creatable, is_property, is_same_field, may_store, may_call};
ghost use Rattle.sed_engine.specs.Code.{data_of, new_object, slot_value, with_slot, root_of, called};
ghost use Rattle.sed_engine.specs.Fits.{Fits};
ghost use Rattle.sed_engine.specs.Whole.{IsObject, IsWhole};

use crate::call::{AddRefusal, CallEnd, Place, Root};
use sed_typed::{Schema, SlotNo, TypeNo};
use sed_value::SlotBuf;

/// Keeps objects at places, and runs root calls on them.
///
/// A place is live from the `add` that gave it to its `remove`. No call changes what the code
/// means, the limit, or whether the engine is fixed, and only `add` may take memory.
pub trait Engine: Drop {
    /// What the code means.
    ghost meaning: { Self → Meaning };

    /// The live places, with the object at each.
    ghost live: { Self → Places };

    /// The contents of the statics.
    ghost statics: { Self → Contents };

    /// The greatest sum of the live objects' data sizes, in bytes.
    ghost limit: { Self → ℕ };

    /// A fixed engine never wants memory.
    ghost fixed: { Self → Bool };

    /// The schema of the code, which is whole, and can be told by an application file. Whatever is kept fits: each live
    /// object is one of which components are made, and its contents and the statics are of their types.
    fn schema(&self) -> &Schema
        ensures same { result.now ≡ (meaning self.now).schema }
        ensures whole { IsWhole (meaning self.now) }
        ensures told { CanBeTold (meaning self.now).schema }
        ensures objects { (p : ℕ) → IfSome (map.get (live self.now) p) (IsObject (meaning self.now)) }
        ensures statics { Fits (meaning self.now).fields (meaning self.now).static_fields
            (meaning self.now).initial_statics (statics self.now) };

    /// The greatest sum of the live objects' data sizes, in bytes.
    fn data_limit(&self) -> usize
        ensures { result ≡ limit self.now };

    /// Whether two properties of a class are kept in one field, so that what is stored in the one is read in the other.
    /// A property is kept in one field with itself.
    fn same_field(&self, t: TypeNo, a: SlotNo, b: SlotNo) -> bool
        requires first { IsTrue (is_property (meaning self.now) t.0 a.0) }
        requires other { IsTrue (is_property (meaning self.now) t.0 b.0) }
        ensures { result ≡ is_same_field (meaning self.now) t.0 a.0 b.0 };

    /// Makes an object of a component type that is not abstract, at a place that was not live.
    ///
    /// `DataFull` comes exactly where the data sizes of the live objects and the new one pass the
    /// limit; `Memory` only where the engine is not fixed. An error changes nothing.
    fn add(&mut self, t: TypeNo) -> Result<Place, AddRefusal>
        requires creatable { IsTrue (is_creatable (meaning self.old) t.0) }
        requires few { map.len (live self.old) < 4096 }
        ensures fresh { IfOk result (λ p. map.get (live self.old) p.0 ≡ None) }
        ensures added { IfOk result (λ p. live self.new
            ≡ map.insert (live self.old) p.0 (new_object (meaning self.old) t.0)) }
        ensures refused { OnErr result (live self.new ≡ live self.old) }
        ensures full { (result ≡ Err AddRefusal.DataFull) ↔ (limit self.old
            < data_of (meaning self.old) (live self.old) + (meaning self.old).data_size t.0) }
        ensures memory { result ≡ Err AddRefusal.Memory → fixed self.old ≡ false }
        ensures meaning { meaning self.new ≡ meaning self.old }
        ensures statics { statics self.new ≡ statics self.old }
        ensures limit { limit self.new ≡ limit self.old }
        ensures fixed { fixed self.new ≡ fixed self.old };

    /// Ends a place. The other places and the statics stay.
    fn remove(&mut self, p: Place)
        requires { IsSome (map.get (live self.old) p.0) }
        ensures removed { live self.new ≡ map.remove (live self.old) p.0 }
        ensures meaning { meaning self.new ≡ meaning self.old }
        ensures statics { statics self.new ≡ statics self.old }
        ensures limit { limit self.new ≡ limit self.old }
        ensures fixed { fixed self.new ≡ fixed self.old };

    /// Puts the value of a property into `out`.
    fn get(&self, p: Place, s: SlotNo, out: &mut SlotBuf)
        requires { IsSomeAnd (map.get (live self.now) p.0) (λ o. IsTrue (is_property (meaning self.now) o.class s.0)) }
        ensures { IfSome (map.get (live self.now) p.0) (λ o. out.new ≡ slot_value (meaning self.now) o s.0) };

    /// Stores a value in a property, as an assignment does: a byte keeps the low 8 bits of a number
    /// and a short the low 16. Nothing else changes.
    fn set(&mut self, p: Place, s: SlotNo, v: &SlotBuf)
        requires { IsSomeAnd (map.get (live self.old) p.0) (λ o.
            IsTrue (may_store (meaning self.old) o.class s.0 v.now)) }
        ensures written { IfSome (map.get (live self.old) p.0) (λ o.
            live self.new ≡ map.insert (live self.old) p.0 (with_slot (meaning self.old) o s.0 v.now)) }
        ensures meaning { meaning self.new ≡ meaning self.old }
        ensures statics { statics self.new ≡ statics self.old }
        ensures limit { limit self.new ≡ limit self.old }
        ensures fixed { fixed self.new ≡ fixed self.old };

    /// Runs a root call on the object with so many turns, 1 to 1,000,000, at a moment in nanoseconds.
    ///
    /// It ends as the code's root call does, and leaves the contents and statics that this leaves;
    /// the other places stay. `arg` is the action's argument, and `Nothing` where there is none.
    fn call(&mut self, p: Place, r: Root, arg: &SlotBuf, turns: u32, ticks: i64) -> CallEnd
        requires live { IsSomeAnd (map.get (live self.old) p.0) (λ o.
            IsTrue (may_call (meaning self.old) o.class r arg.now)) }
        requires some_turns { 1 ≤ turns }
        requires most_turns { turns ≤ 1000000 }
        ensures end { IfSome (map.get (live self.old) p.0) (λ o. result
            ≡ (root_of (meaning self.old) o (statics self.old) r arg.now turns ticks).end) }
        ensures left { IfSome (map.get (live self.old) p.0) (λ o. live self.new
            ≡ map.insert (live self.old) p.0
            (called o (root_of (meaning self.old) o (statics self.old) r arg.now turns ticks))) }
        ensures statics { IfSome (map.get (live self.old) p.0) (λ o.
            statics self.new ≡ (root_of (meaning self.old) o (statics self.old) r arg.now turns ticks).statics) }
        ensures meaning { meaning self.new ≡ meaning self.old }
        ensures limit { limit self.new ≡ limit self.old }
        ensures fixed { fixed self.new ≡ fixed self.old };
}
