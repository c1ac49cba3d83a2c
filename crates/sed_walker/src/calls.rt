//! Root calls on components.
ghost use Rattle.std.specs.Prelude.{◌≡◌, ◌<◌, IfSome};
ghost use Rattle.std.specs.FinMap as map;
ghost use Rattle.slab.specs.Slab.{get, ContainsKey};
ghost use Rattle.sed_engine.specs.Code.{called};
ghost use Rattle.sed_cells.specs.Places.{classes_in, contents_of};
ghost use Rattle.sed_walker.specs.Held.{live_of, object_seen};
ghost use Rattle.sed_walker.specs.Calls.{asked, ended};

use crate::component::Component;
use sed_cells::{Cells, Plan};
use sed_engine::{CallEnd, Root};
use sed_value::Value;
use sed_walk::root;
use slab::Slab;
use std::alloc::Global;
use std::mem;
use walk_steps::Store;

/// What a root call leaves, and how it ended.
#[derive(Drop)]
pub struct Left {
    pub component: Component,
    pub statics: Cells,
    pub end: CallEnd,
}

/// Runs a root call on the component under a key, and on the statics.
pub fn call(
    alloc: Global,
    plan: &Plan,
    components: &mut Slab<Component>,
    statics: &mut Cells,
    key: usize,
    which: Root,
    argument: &Value,
    turns: u32,
    moment: i64,
) -> CallEnd
    requires there { ContainsKey components.old key }
    requires class { IfSome (get components.old key) (λ c. c.class < classes_in plan.now) }
    ensures end { IfSome (get components.old key) (λ c.
        result ≡ (asked plan.now c statics.old which argument.now turns moment).end) }
    ensures left { IfSome (get components.old key) (λ c.
        live_of plan.now components.new ≡ map.insert (live_of plan.now components.old) key
        (called (object_seen plan.now c) (asked plan.now c statics.old which argument.now turns moment))) }
    ensures statics { IfSome (get components.old key) (λ c.
        contents_of plan.now (classes_in plan.now) statics.new
        ≡ (asked plan.now c statics.old which argument.now turns moment).statics) }
{
    let component = components.remove(key);
    let taken = mem::replace(statics, Cells::new(alloc));
    let left = run(plan, component, taken, which, argument, turns, moment);
    *statics = left.statics;
    let _same = components.insert_reserved(left.component);
    left.end
}

// Runs a root call on a component and on the statics, which it takes and gives back.
fn run(
    plan: &Plan,
    component: Component,
    statics: Cells,
    which: Root,
    argument: &Value,
    turns: u32,
    moment: i64,
) -> Left
    requires { component.class < classes_in plan.now }
    ensures class { result.component.class ≡ component.class }
    ensures left { ended plan.now result ≡ asked plan.now component statics which argument.now turns moment }
{
    let Component { class, cells } = component;
    let mut store = Store::new(cells, statics, turns, moment);
    let answer = root::run(plan, class, which, argument, &mut store);
    let end = root::call_end(answer, store.turns());
    let (cells, statics) = store.into_cells();
    Left {
        component: Component { class, cells },
        statics,
        end,
    }
}
