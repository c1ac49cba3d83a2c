//! What may be assigned to.
ghost use Rattle.std.specs.Prelude.{◌≡◌, ◌≤◌, ◌<◌};
ghost use Rattle.sed_engine.specs.Places.{fetch as fetch_of, put as put_of};
ghost use Rattle.sed_cells.specs.Places.{classes_in};
ghost use Rattle.walk_steps.specs.Seen.{seen, ends};
ghost use Rattle.walk_steps.specs.Stored.{ended, state_of};
ghost use Rattle.walk_steps.specs.Targets.{target_seen};

use crate::store::Store;
use crate::word::{Stop, Word};
use crate::{locals, reach};
use sed_cells::Plan;
use sed_typed::Kind;
use sed_value::Prim;

/// What may be assigned to, once its object and index are evaluated. Neither null nor the index is
/// tested yet.
#[derive(Clone, Copy, Debug)]
pub enum Target {
    Local(Kind, u8),
    Static(Prim, u16),
    Field(Prim, Word, u16),
    /// An element of an array of so many: the object, the field, and the index.
    Element(Prim, u16, Word, u16, Word),
    /// An element of a static array of so many: the static, and the index.
    StaticElement(Prim, u16, u16, Word),
}

/// Reads a target, with its tests.
#[inline(always)]
pub fn fetch(
    plan: &Plan,
    class: usize,
    target: Target,
    store: &Store,
    locals: &[Word],
) -> Result<Word, Stop>
    requires { class ≤ classes_in plan.now }
    ensures { ended plan.now class (ends plan.now class result) store.now locals.now
        ≡ fetch_of (target_seen plan.now class target) (state_of plan.now class store.now locals.now) }
{
    match target {
        Target::Local(kind, number) => locals::read(locals, kind, usize::from(number)),
        Target::Static(_, number) => { reach::read_static(store, plan, class, usize::from(number)) }
        Target::Field(_, object, number) => {
            reach::read_field(store, plan, class, object, usize::from(number))
        }
        Target::Element(_, count, object, number, index) => {
            let found = reach::element(
                plan,
                class,
                object,
                usize::from(count),
                usize::from(number),
                index,
            );
            reach::read(store, plan, class, found)
        }
        Target::StaticElement(_, count, number, index) => {
            let found = reach::static_element(
                plan,
                class,
                usize::from(count),
                usize::from(number),
                index,
            );
            reach::read(store, plan, class, found)
        }
    }
}

/// Stores a value in a target, with its tests, and gives the stored value as a read gives it.
#[inline(always)]
pub fn put(
    plan: &Plan,
    class: usize,
    target: Target,
    value: Word,
    store: &mut Store,
    locals: &mut [Word],
) -> Result<Word, Stop>
    requires { class ≤ classes_in plan.now }
    ensures end { ended plan.now class (ends plan.now class result) store.new locals.new
        ≡ put_of (target_seen plan.now class target) (seen plan.now class value)
        (state_of plan.now class store.old locals.old) }
    ensures turns { store.new.turns ≡ store.old.turns }
{
    match target {
        Target::Local(_, number) => locals::put(locals, usize::from(number), value),
        Target::Static(prim, number) => {
            let found = reach::static_field(plan, class, usize::from(number));
            reach::write(store, plan, class, found, prim, value)
        }
        Target::Field(prim, object, number) => {
            reach::write_field(store, plan, class, object, usize::from(number), prim, value)
        }
        Target::Element(prim, count, object, number, index) => {
            let found = reach::element(
                plan,
                class,
                object,
                usize::from(count),
                usize::from(number),
                index,
            );
            reach::write(store, plan, class, found, prim, value)
        }
        Target::StaticElement(prim, count, number, index) => {
            let found = reach::static_element(
                plan,
                class,
                usize::from(count),
                usize::from(number),
                index,
            );
            reach::write(store, plan, class, found, prim, value)
        }
    }
}
