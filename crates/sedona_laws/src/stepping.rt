//! The calls of any engine are steps of the definitions.
ghost use Rattle.std.specs.Prelude.{◌<◌, ◌≤◌, IsTrue, IsSome, IsSomeAnd};
ghost use Rattle.std.specs.FinMap as map;
ghost use Rattle.sed_engine.specs.Code.{is_creatable, is_property, may_call, may_store};
ghost use Rattle.sedona_laws.specs.Steps.{Adds, Calls, Gets, Removes, Sets, state_of};

use sed_engine::{AddRefusal, CallEnd, Engine, Place, Root};
use sed_typed::{SlotNo, TypeNo};
use sed_value::SlotBuf;

/// What `add` of any engine does is the step of the definitions.
pub fn add_is_a_step<E: Engine>(engine: &mut E, t: TypeNo) -> Result<Place, AddRefusal>
    requires creatable { IsTrue (is_creatable (E.meaning engine.old) t.0) }
    requires few { map.len (E.live engine.old) < 4096 }
    ensures { Adds t.0 result (state_of E.Engine engine.old) (state_of E.Engine engine.new) }
{
    engine.add(t)
}

/// So is what `remove` does.
pub fn remove_is_a_step<E: Engine>(engine: &mut E, p: Place)
    requires { IsSome (map.get (E.live engine.old) p.0) }
    ensures { Removes p.0 (state_of E.Engine engine.old) (state_of E.Engine engine.new) }
{
    engine.remove(p);
}

/// So is what `get` gives.
pub fn get_is_a_step<E: Engine>(engine: &E, p: Place, s: SlotNo, out: &mut SlotBuf)
    requires { IsSomeAnd (map.get (E.live engine.now) p.0) (λ o.
        IsTrue (is_property (E.meaning engine.now) o.class s.0)) }
    ensures { Gets p.0 s.0 out.new (state_of E.Engine engine.now) (state_of E.Engine engine.now) }
{
    engine.get(p, s, out);
}

/// So is what `set` does.
pub fn set_is_a_step<E: Engine>(engine: &mut E, p: Place, s: SlotNo, v: &SlotBuf)
    requires { IsSomeAnd (map.get (E.live engine.old) p.0) (λ o.
        IsTrue (may_store (E.meaning engine.old) o.class s.0 v.now)) }
    ensures { Sets p.0 s.0 v.now (state_of E.Engine engine.old) (state_of E.Engine engine.new) }
{
    engine.set(p, s, v);
}

/// So is what `call` does.
pub fn call_is_a_step<E: Engine>(
    engine: &mut E,
    p: Place,
    r: Root,
    arg: &SlotBuf,
    turns: u32,
    ticks: i64,
) -> CallEnd
    requires live { IsSomeAnd (map.get (E.live engine.old) p.0) (λ o.
        IsTrue (may_call (E.meaning engine.old) o.class r arg.now)) }
    requires some_turns { 1 ≤ turns }
    requires most_turns { turns ≤ 1000000 }
    ensures { Calls p.0 r arg.now turns ticks result (state_of E.Engine engine.old) (state_of E.Engine engine.new) }
{
    engine.call(p, r, arg, turns, ticks)
}
