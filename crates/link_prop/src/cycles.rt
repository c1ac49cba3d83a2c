//! One cycle.
ghost use Rattle.std.specs.Prelude.{◌≡◌, ◌≤◌, ◌+◌, ℕ, length};
ghost use Rattle.std.specs.List.{fold};
ghost use Rattle.comp_tree.specs.Application.{is_live, most_components};
ghost use Rattle.comp_tree.specs.Calls.{Counted, execute_at, traps_of as traps_in};
ghost use Rattle.comp_tree.specs.Cycle.{Cycle, Cycled, visit as visited_at};
ghost use Rattle.comp_tree.specs.Held.{components_of};
ghost use Rattle.comp_tree.specs.SameCode.{SameCode};
ghost use Rattle.link_prop.specs.Linked.{application_of};
ghost use Rattle.link_prop.specs.Marks.{KeepsAppMarks, no_links};
ghost use Rattle.link_prop.specs.CycleMarks.{values_of_any};

use crate::App;
use crate::end::{CycleEnd, traps_of};
use comp_tree::Turns;
use sed_engine::Engine;
use sed_value::Id;

/// One cycle of an application, each root call with so many turns at a moment in nanoseconds.
///
/// At each component, depth first, the links into it are copied by ascending target slot, `changed` is called after
/// each copy that changes what is stored, and then the component is executed where its fault is 0. A trap becomes the
/// component's fault, and is counted. It may mark the values of any component, and marks nothing else.
pub fn cycle<E: Engine>(app: &mut App<E>, turns: Turns, ticks: i64) -> CycleEnd
    ensures cycled { (let c : Cycled = record { application = application_of E.Engine app.new; traps = result.traps }
        in c) ≡ Cycle (E.meaning app.old.tree.engine) (application_of E.Engine app.old) turns ticks }
    ensures marks { KeepsAppMarks E.Engine values_of_any no_links app.old app.new }
    ensures same { SameCode E.Engine app.old.tree.engine app.new.tree.engine }
{
    let ids = app.tree().depth_first();
    CycleEnd {
        traps: visit_all(app, ids.as_slice(), turns, ticks),
    }
}

// Visits components one after another, and says how many root calls trapped.
fn visit_all<E: Engine>(app: &mut App<E>, ids: &[u16], turns: Turns, ticks: i64) -> u32
    requires { length ids.now ≤ most_components }
    ensures visited { fold (visited_at (E.meaning app.old.tree.engine) app.old.links turns ticks)
        (record { left = components_of E.Engine app.old.tree; traps = 0 }) ids.now
        ≡ (let s : Counted = record { left = components_of E.Engine app.new.tree; traps = result } in s) }
    ensures links { app.new.links ≡ app.old.links }
    ensures marks { KeepsAppMarks E.Engine values_of_any no_links app.old app.new }
    ensures same { SameCode E.Engine app.old.tree.engine app.new.tree.engine }
{
    let mut traps = 0;
    for id in ids {
        traps += visit(app, Id(*id), turns, ticks);
    }
    traps
}

// Copies the links into a component, executes it where it may be, and says how many root calls trapped.
fn visit<E: Engine>(app: &mut App<E>, id: Id, turns: Turns, ticks: i64) -> u32
    ensures visited { (before : ℕ)
        → visited_at (E.meaning app.old.tree.engine) app.old.links turns ticks
        (record { left = components_of E.Engine app.old.tree; traps = before }) id.0
        ≡ (let s : Counted = record { left = components_of E.Engine app.new.tree; traps = before + result } in s) }
    ensures few { result ≤ 8193 }
    ensures links { app.new.links ≡ app.old.links }
    ensures live { (other : ℕ) → is_live (components_of E.Engine app.new.tree).by_id other
        ≡ is_live (components_of E.Engine app.old.tree).by_id other }
    ensures marks { KeepsAppMarks E.Engine values_of_any no_links app.old app.new }
    ensures same { SameCode E.Engine app.old.tree.engine app.new.tree.engine }
{
    let copied = app.copy_into(id, turns, ticks);
    copied + run_if_it_may(app, id, turns, ticks)
}

// Executes a component that is live and has no fault, and says how many root calls trapped: one or none.
fn run_if_it_may<E: Engine>(app: &mut App<E>, id: Id, turns: Turns, ticks: i64) -> u32
    ensures left { components_of E.Engine app.new.tree
        ≡ (execute_at (E.meaning app.old.tree.engine) (components_of E.Engine app.old.tree) id.0 turns ticks).left }
    ensures traps { result ≡ traps_in
        (execute_at (E.meaning app.old.tree.engine) (components_of E.Engine app.old.tree) id.0 turns ticks).end }
    ensures few { result ≤ 1 }
    ensures links { app.new.links ≡ app.old.links }
    ensures live { (other : ℕ) → is_live (components_of E.Engine app.new.tree).by_id other
        ≡ is_live (components_of E.Engine app.old.tree).by_id other }
    ensures marks { KeepsAppMarks E.Engine values_of_any no_links app.old app.new }
    ensures same { SameCode E.Engine app.old.tree.engine app.new.tree.engine }
{
    let Some(entry) = app.tree().find(id) else {
        return 0;
    };
    if entry.fault != 0 {
        return 0;
    }
    traps_of(app.execute(id, turns, ticks))
}
