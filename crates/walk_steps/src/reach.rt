//! Fields and elements: their places, what is read of them, and what is stored in them.
ghost use Rattle.std.specs.Prelude.{◌≡◌, ◌≤◌, ◌<◌, ◌++◌, ◌∷◌, [], ℕ, List, IfOk, IfSome, IfNone, None, Ok, Result};
ghost use Rattle.std.specs.Prelude.{is_some, length};
ghost use Rattle.sed_value.specs.declared.value.Value.{Value};
ghost use Rattle.sed_typed.specs.Contents.{value_at};
ghost use Rattle.sed_engine.specs.Stops.{map_ok, and_then, there, Stop as AnyStop};
ghost use Rattle.sed_engine.specs.State.{answers, gives, then_do};
ghost use Rattle.sed_engine.specs.Steps.{inside, read_spot, write_spot, read_bytes};
ghost use Rattle.sed_engine.specs.Places.{static_spot, field_spot};
ghost use Rattle.sed_engine.specs.Expressions.{part_at, class_of, method_for as method_of};
ghost use Rattle.sed_engine.specs.Texts.{index_of as index_in};
ghost use Rattle.sed_engine.specs.Values as val;
ghost use Rattle.sed_cells.specs.Places.{classes_in, contents_of, class_there, place_of as path_of};
ghost use Rattle.walk_steps.specs.Seen.{seen, ends, as_it_is, spot_seen};
ghost use Rattle.walk_steps.specs.Found.{IsFound};
ghost use Rattle.walk_steps.specs.Stored.{stepped, with_locals};
ghost use Rattle.walk_steps.specs.Targets.{setting_of, lent};

use crate::places::{index_of, place_of, top};
use crate::store::Store;
use crate::word::{Base, Stop, Word};
use sed_cells::Plan;
use sed_typed::Kind;
use sed_value::Prim;

/// The place at a step from a place.
#[inline(always)]
pub fn step(
    plan: &Plan,
    class: usize,
    base: Base,
    place: usize,
    number: usize,
) -> Result<(Base, usize), Stop>
    requires { class ≤ classes_in plan.now }
    ensures { IsFound plan.now class result (Ok (inside (spot_seen plan.now class base place) number)) }
{
    match base {
        Base::Component => match plan.inside(class, place, number) {
            Some(found) => Ok((Base::Component, found)),
            None => Err(Stop::Untyped),
        },
        Base::Statics => match plan.inside(plan.statics(), place, number) {
            Some(found) => Ok((Base::Statics, found)),
            None => Err(Stop::Untyped),
        },
    }
}

/// The place of a static field.
#[inline(always)]
pub fn static_field(plan: &Plan, class: usize, number: usize) -> Result<(Base, usize), Stop>
    requires { class ≤ classes_in plan.now }
    ensures { IsFound plan.now class result (Ok (static_spot number)) }
{
    step(plan, class, Base::Statics, 0, number)
}

/// The place of a field of an object: null traps.
#[inline(always)]
pub fn field(plan: &Plan, class: usize, object: Word, number: usize) -> Result<(Base, usize), Stop>
    requires { class ≤ classes_in plan.now }
    ensures { IsFound plan.now class result
        (map_ok (λ spot. inside spot number) (val.spot_of (seen plan.now class object))) }
{
    match place_of(object) {
        Ok((base, place)) => step(plan, class, base, place, number),
        Err(stop) => Err(stop),
    }
}

// The place at two steps from a place.
fn two_steps(plan: &Plan, top: usize, place: usize, number: usize, index: usize) -> Option<usize>
    requires { top ≤ classes_in plan.now }
    ensures found { IfSome result (λ m. path_of plan.now top m
        ≡ (path_of plan.now top place ++ number ∷ []) ++ index ∷ []) }
    ensures nothing { IfNone result ((values : List Value)
        → value_at (contents_of plan.now top values) ((path_of plan.now top place ++ number ∷ [])
        ++ index ∷ []) ≡ None) }
{
    match plan.inside(top, place, number) {
        Some(array) => plan.inside(top, array, index),
        None => None,
    }
}

// The place of an element of the array at a step from a place.
fn element_from(
    plan: &Plan,
    class: usize,
    base: Base,
    place: usize,
    number: usize,
    index: usize,
) -> Result<(Base, usize), Stop>
    requires { class ≤ classes_in plan.now }
    ensures { IsFound plan.now class result (Ok (inside (inside (spot_seen plan.now class base place) number) index)) }
{
    match base {
        Base::Component => match two_steps(plan, class, place, number, index) {
            Some(found) => Ok((Base::Component, found)),
            None => Err(Stop::Untyped),
        },
        Base::Statics => match two_steps(plan, plan.statics(), place, number, index) {
            Some(found) => Ok((Base::Statics, found)),
            None => Err(Stop::Untyped),
        },
    }
}

/// The place of an element of an array of so many in a field of an object: null is tested, then the
/// index.
pub fn element(
    plan: &Plan,
    class: usize,
    object: Word,
    count: usize,
    number: usize,
    index: Word,
) -> Result<(Base, usize), Stop>
    requires { class ≤ classes_in plan.now }
    ensures { IsFound plan.now class result
        (and_then (val.spot_of (seen plan.now class object)) (λ spot.
        map_ok (λ i. inside (inside spot number) i) (index_in count (seen plan.now class index)))) }
{
    match place_of(object) {
        Ok((base, place)) => indexed(plan, class, base, place, count, number, index),
        Err(stop) => Err(stop),
    }
}

// The place of an element of an array of so many: the index is tested.
fn indexed(
    plan: &Plan,
    class: usize,
    base: Base,
    place: usize,
    count: usize,
    number: usize,
    index: Word,
) -> Result<(Base, usize), Stop>
    requires { class ≤ classes_in plan.now }
    ensures { IsFound plan.now class result
        (map_ok (λ i. inside (inside (spot_seen plan.now class base place) number) i)
        (index_in count (seen plan.now class index))) }
{
    match index_of(count, index) {
        Ok(at) => element_from(plan, class, base, place, number, at),
        Err(stop) => Err(stop),
    }
}

/// The place of an element of a static array of so many: the index is tested.
pub fn static_element(
    plan: &Plan,
    class: usize,
    count: usize,
    number: usize,
    index: Word,
) -> Result<(Base, usize), Stop>
    requires { class ≤ classes_in plan.now }
    ensures { IsFound plan.now class result
        (map_ok (λ i. inside (static_spot number) i) (index_in count (seen plan.now class index))) }
{
    indexed(plan, class, Base::Statics, 0, count, number, index)
}

/// What is read of a place that was sought.
#[inline(always)]
pub fn read(
    store: &Store,
    plan: &Plan,
    class: usize,
    found: Result<(Base, usize), Stop>,
) -> Result<Word, Stop>
    requires { class ≤ classes_in plan.now }
    ensures { (locals : List val.Val) (r : Result val.Spot AnyStop) → IsFound plan.now class found r →
        stepped plan.now class (ends plan.now class result) store.now locals
        ≡ then_do (answers r (with_locals plan.now class store.now locals)) (λ spot s1. read_spot spot s1) }
{
    match found {
        Ok((base, place)) => store.read(plan, class, base, place),
        Err(stop) => Err(stop),
    }
}

/// What is read of a static field.
#[inline(always)]
pub fn read_static(store: &Store, plan: &Plan, class: usize, number: usize) -> Result<Word, Stop>
    requires { class ≤ classes_in plan.now }
    ensures { (locals : List val.Val) →
        stepped plan.now class (ends plan.now class result) store.now locals
        ≡ read_spot (static_spot number) (with_locals plan.now class store.now locals) }
{
    let found = static_field(plan, class, number);
    read(store, plan, class, found)
}

/// What is read of a field of an object: null traps.
#[inline(always)]
pub fn read_field(
    store: &Store,
    plan: &Plan,
    class: usize,
    object: Word,
    number: usize,
) -> Result<Word, Stop>
    requires { class ≤ classes_in plan.now }
    ensures { (locals : List val.Val) →
        stepped plan.now class (ends plan.now class result) store.now locals
        ≡ then_do (field_spot (seen plan.now class object) number (with_locals plan.now class store.now locals))
        (λ spot s1. read_spot spot s1) }
{
    let found = field(plan, class, object, number);
    read(store, plan, class, found)
}

/// The bytes of the Str or Buf at a place that was sought.
pub fn bytes<'a>(
    store: &'a Store,
    plan: &Plan,
    class: usize,
    found: Result<(Base, usize), Stop>,
) -> Result<&'a [u8], Stop>
    requires { class ≤ classes_in plan.now }
    ensures read { (locals : List val.Val) (r : Result val.Spot AnyStop) → IsFound plan.now class found r →
        stepped plan.now class (lent result) store.now locals
        ≡ then_do (answers r (with_locals plan.now class store.now locals)) (λ spot s1. read_bytes spot s1) }
    ensures few { IfOk result (λ bytes. length bytes.now ≤ 255) }
{
    match found {
        Ok((base, place)) => store.bytes(plan, class, base, place),
        Err(stop) => Err(stop),
    }
}

/// Stores a value in a place of a primitive type that was sought, and gives the stored value as a read
/// gives it.
#[inline(always)]
pub fn write(
    store: &mut Store,
    plan: &Plan,
    class: usize,
    found: Result<(Base, usize), Stop>,
    prim: Prim,
    word: Word,
) -> Result<Word, Stop>
    requires { class ≤ classes_in plan.now }
    ensures end { (locals : List val.Val) (r : Result val.Spot AnyStop) → IsFound plan.now class found r →
        stepped plan.now class (ends plan.now class result) store.new locals
        ≡ then_do (answers r (with_locals plan.now class store.old locals))
        (λ spot s1. write_spot prim spot (seen plan.now class word) s1) }
    ensures turns { store.new.turns ≡ store.old.turns }
{
    match found {
        Ok((base, place)) => store.write(plan, class, base, place, prim, word),
        Err(stop) => Err(stop),
    }
}

/// Stores a value in a field of a primitive type of an object, and gives the stored value as a read gives
/// it: null traps.
#[inline(always)]
pub fn write_field(
    store: &mut Store,
    plan: &Plan,
    class: usize,
    object: Word,
    number: usize,
    prim: Prim,
    word: Word,
) -> Result<Word, Stop>
    requires { class ≤ classes_in plan.now }
    ensures end { (locals : List val.Val) →
        stepped plan.now class (ends plan.now class result) store.new locals
        ≡ then_do (field_spot (seen plan.now class object) number (with_locals plan.now class store.old locals))
        (λ spot s1. write_spot prim spot (seen plan.now class word) s1) }
    ensures turns { store.new.turns ≡ store.old.turns }
{
    let found = field(plan, class, object, number);
    write(store, plan, class, found, prim, word)
}

/// The inline object or Str in a static field.
pub fn static_part(
    store: &Store,
    plan: &Plan,
    class: usize,
    kind: Kind,
    number: usize,
) -> Result<Word, Stop>
    requires { class < classes_in plan.now }
    ensures { (frames : ℕ) (locals : List val.Val) →
        stepped plan.now class (ends plan.now class result) store.now locals
        ≡ part_at (setting_of plan.now class frames) kind (static_spot number)
        (with_locals plan.now class store.now locals) }
{
    part_in(store, plan, class, kind, Base::Statics, 0, number)
}

/// The inline object or Str in a field of an object: null traps.
pub fn part(
    store: &Store,
    plan: &Plan,
    class: usize,
    kind: Kind,
    object: Word,
    number: usize,
) -> Result<Word, Stop>
    requires { class < classes_in plan.now }
    ensures { (frames : ℕ) (locals : List val.Val) →
        stepped plan.now class (ends plan.now class result) store.now locals
        ≡ then_do (field_spot (seen plan.now class object) number (with_locals plan.now class store.now locals))
        (λ spot s1. part_at (setting_of plan.now class frames) kind spot s1) }
{
    match place_of(object) {
        Ok((base, place)) => part_in(store, plan, class, kind, base, place, number),
        Err(stop) => Err(stop),
    }
}

// What stands at a step from a place, where it is an inline object or Str.
fn part_in(
    store: &Store,
    plan: &Plan,
    class: usize,
    kind: Kind,
    base: Base,
    place: usize,
    number: usize,
) -> Result<Word, Stop>
    requires { class < classes_in plan.now }
    ensures { (frames : ℕ) (locals : List val.Val) →
        stepped plan.now class (ends plan.now class result) store.now locals
        ≡ part_at (setting_of plan.now class frames) kind (inside (spot_seen plan.now class base place) number)
        (with_locals plan.now class store.now locals) }
{
    match kind {
        Kind::Text => text_in(store, plan, class, base, place, number),
        Kind::Object(_) => object_in(plan, class, base, place, number),
        _ => Err(Stop::Untyped),
    }
}

// A Str at a step from a place.
fn text_in(
    store: &Store,
    plan: &Plan,
    class: usize,
    base: Base,
    place: usize,
    number: usize,
) -> Result<Word, Stop>
    requires { class ≤ classes_in plan.now }
    ensures { (locals : List val.Val) →
        stepped plan.now class (ends plan.now class result) store.now locals
        ≡ then_do (read_bytes (inside (spot_seen plan.now class base place) number)
        (with_locals plan.now class store.now locals)) (λ _ s1.
        gives (val.At (inside (spot_seen plan.now class base place) number)) s1) }
{
    match step(plan, class, base, place, number) {
        Ok((base, place)) => text_at(store, plan, class, base, place),
        Err(stop) => Err(stop),
    }
}

// A Str at a place.
fn text_at(store: &Store, plan: &Plan, class: usize, base: Base, place: usize) -> Result<Word, Stop>
    requires { class ≤ classes_in plan.now }
    ensures { (locals : List val.Val) →
        stepped plan.now class (ends plan.now class result) store.now locals
        ≡ then_do (read_bytes (spot_seen plan.now class base place) (with_locals plan.now class store.now locals))
        (λ _ s1. gives (val.At (spot_seen plan.now class base place)) s1) }
{
    match store.bytes(plan, class, base, place) {
        Ok(_) => Ok(Word::At(base, place)),
        Err(stop) => Err(stop),
    }
}

// An object at a step from a place.
fn object_in(
    plan: &Plan,
    class: usize,
    base: Base,
    place: usize,
    number: usize,
) -> Result<Word, Stop>
    requires { class < classes_in plan.now }
    ensures { (frames : ℕ) → ends plan.now class result
        ≡ map_ok (λ _. val.At (inside (spot_seen plan.now class base place) number))
        (there (class_of (setting_of plan.now class frames) (inside (spot_seen plan.now class base place) number))) }
{
    match base {
        Base::Component => match object_at(plan, class, place, number) {
            Some(found) => Ok(Word::At(Base::Component, found)),
            None => Err(Stop::Untyped),
        },
        Base::Statics => match object_at(plan, plan.statics(), place, number) {
            Some(found) => Ok(Word::At(Base::Statics, found)),
            None => Err(Stop::Untyped),
        },
    }
}

// The place at a step from a place, if an object stands there.
fn object_at(plan: &Plan, top: usize, place: usize, number: usize) -> Option<usize>
    requires { top ≤ classes_in plan.now }
    ensures found { IfSome result (λ m. path_of plan.now top m ≡ path_of plan.now top place ++ number ∷ []) }
    ensures class { is_some result
        ≡ is_some (class_there plan.now.program top (path_of plan.now top place ++ number ∷ [])) }
{
    let found = plan.inside(top, place, number)?;
    let _class = plan.class_of(top, found)?;
    Some(found)
}

/// The method that is nearest at or above the class of the object at a place, by the name of this one.
pub fn method_for(
    plan: &Plan,
    class: usize,
    base: Base,
    place: usize,
    method: usize,
) -> Result<usize, Stop>
    requires { class < classes_in plan.now }
    ensures { (frames : ℕ) → as_it_is result
        ≡ method_of (setting_of plan.now class frames) (spot_seen plan.now class base place) method }
{
    let Some(found) = plan.class_of(top(plan, class, base), place) else {
        return Err(Stop::Untyped);
    };
    match plan.nearest(found.0, method) {
        Some(nearest) => Ok(nearest),
        None => Err(Stop::Untyped),
    }
}
