//! The begin of an application.
ghost use Rattle.std.specs.Prelude.{◌≡◌, ◌≤◌, All, IsTrue, length};
ghost use Rattle.comp_tree.specs.Application.{is_live, most_components};
ghost use Rattle.comp_tree.specs.Calls.{Counted, call_each};
ghost use Rattle.comp_tree.specs.Cycle.{Begin, Cycled};
ghost use Rattle.comp_tree.specs.Held.{components_of};
ghost use Rattle.comp_tree.specs.SameCode.{SameCode};
ghost use Rattle.link_prop.specs.Linked.{application_of};
ghost use Rattle.link_prop.specs.Marks.{KeepsAppMarks, no_links};
ghost use Rattle.link_prop.specs.CycleMarks.{values_of_any};

use crate::App;
use crate::end::{CycleEnd, traps_of};
use comp_tree::Turns;
use sed_engine::{Callback, Engine};
use sed_value::Id;

/// Calls `start` of each component, depth first, with so many turns at a moment in nanoseconds. Where a component's
/// fault isn't 0 nothing is called; a trap becomes its fault, and is counted. It may mark the values of any component,
/// and marks nothing else.
pub fn begin<E: Engine>(app: &mut App<E>, turns: Turns, ticks: i64) -> CycleEnd
    ensures begun { (let c : Cycled = record { application = application_of E.Engine app.new; traps = result.traps }
        in c) ≡ Begin (E.meaning app.old.tree.engine) (application_of E.Engine app.old) turns ticks }
    ensures marks { KeepsAppMarks E.Engine values_of_any no_links app.old app.new }
    ensures same { SameCode E.Engine app.old.tree.engine app.new.tree.engine }
{
    let ids = app.tree().depth_first();
    CycleEnd {
        traps: start_all(app, ids.as_slice(), turns, ticks),
    }
}

// Calls `start` of components one after another, and says how many of the calls trapped.
fn start_all<E: Engine>(app: &mut App<E>, ids: &[u16], turns: Turns, ticks: i64) -> u32
    requires live { All (λ id. IsTrue (is_live (components_of E.Engine app.old.tree).by_id id)) ids.now }
    requires few { length ids.now ≤ most_components }
    ensures started { call_each (E.meaning app.old.tree.engine) Callback.Start turns ticks
        (components_of E.Engine app.old.tree) ids.now ≡ (let s : Counted =
        record { left = components_of E.Engine app.new.tree; traps = result } in s) }
    ensures links { app.new.links ≡ app.old.links }
    ensures marks { KeepsAppMarks E.Engine values_of_any no_links app.old app.new }
    ensures same { SameCode E.Engine app.old.tree.engine app.new.tree.engine }
{
    let mut traps = 0;
    for id in ids {
        traps += traps_of(app.callback(Id(*id), Callback::Start, 0, turns, ticks));
    }
    traps
}
