//! Classes of which it is known, from those whose objects stand in theirs, that no object would stand in itself.
//!
//! A class is settled once all classes are whose objects stand in its own: so what holds no object is settled first,
//! and then what holds such objects alone. Each class is gone into once, and each object in it looked at once, so that
//! a class has its turn behind those of the objects in it. What is then not settled holds, however deep, an object that
//! would stand in itself.
ghost use Rattle.std.specs.Prelude.{◌≡◌, ◌<◌, List, [], length, false, true, IfOk, IsTrue};
ghost use Rattle.std.specs.List.{list_all};
ghost use Rattle.sed_classes.specs.declared.kit_units.KitUnits.{KitUnits as TheUnits};
ghost use Rattle.sed_outline.specs.Rounds.{inline_in, item, row_of};
ghost use Rattle.sed_outline.specs.Settled.{Settles};

use crate::rows::{is_known, none_known};
use sed_value::{Items, Memory};
use std::alloc::Global;

fn are_known(known: &[bool], classes: &[usize]) -> bool
    ensures { result ≡ list_all (item false known.now) classes.now }
{
    classes.iter().all(|class| is_known(known, *class))
}

fn held_at(inside: &[Items<usize>], class: usize) -> &[usize]
    ensures { result.now ≡ item [] inside.now class }
{
    match inside.get(class) {
        Some(held) => held.as_slice(),
        None => &[],
    }
}

// Whether a class is not settled, and all are whose objects stand in its own.
fn is_ready(known: &[bool], inside: &[Items<usize>], class: usize) -> bool
    ensures within { IsTrue result → class < length known.now }
    ensures new { IsTrue result → item false known.now class ≡ false }
    ensures held { IsTrue result → list_all (item false known.now) (item [] inside.now class) ≡ true }
{
    if class >= known.len() || is_known(known, class) {
        return false;
    }
    are_known(known, held_at(inside, class))
}

// Settles a class, if it is ready.
fn settle(known: &mut [bool], inside: &[Items<usize>], class: usize)
    ensures { (units : List TheUnits) → inside.now ≡ row_of units (inline_in units) → Settles units known.old →
        Settles units known.new }
{
    if !is_ready(known, inside, class) {
        return;
    }
    known[class] = true;
}

// The next object in a class, by its own class, if there is one that was not looked at; it then was.
fn next_held(looked_at: &mut [usize], held: &[usize], class: usize) -> Option<usize> {
    if class >= looked_at.len() {
        return None;
    }
    let next = looked_at[class];
    match held.get(next) {
        Some(inner) => {
            looked_at[class] = next + 1;
            Some(*inner)
        }
        None => None,
    }
}

// Whether an object in a class was looked at.
fn is_begun(looked_at: &[usize], class: usize) -> bool {
    match looked_at.get(class) {
        Some(count) => *count > 0,
        None => false,
    }
}

// Goes from a class into that of the next object in it, and comes back; or settles it, if all of them were looked at.
fn go_on(
    known: &mut [bool],
    inside: &[Items<usize>],
    looked_at: &mut [usize],
    open: &mut Vec<usize>,
    class: usize,
) -> Result<(), Memory>
    ensures { (units : List TheUnits) → inside.now ≡ row_of units (inline_in units) → Settles units known.old →
        Settles units known.new }
{
    match next_held(looked_at, held_at(inside, class), class) {
        Some(inner) => open_both(open, class, inner, is_begun(looked_at, inner)),
        None => {
            settle(known, inside, class);
            Ok(())
        }
    }
}

// Leaves a class open, and before it another one that was not begun.
fn open_both(
    open: &mut Vec<usize>,
    class: usize,
    inner: usize,
    is_begun: bool,
) -> Result<(), Memory> {
    open.push(class)?;
    if !is_begun {
        open.push(inner)?;
    }
    Ok(())
}

// All places below a number.
fn places_below(alloc: Global, count: usize) -> Result<Vec<usize>, Memory> {
    let mut all = Vec::new(alloc);
    for place in 0..count {
        all.push(place)?;
    }
    Ok(all)
}

// How many steps there are at most: one to come to the end of each class, and for each object in it one to look at it
// and one to come back.
fn most_steps(inside: &[Items<usize>]) -> usize {
    let mut most = inside.len();
    for held in inside {
        most = most.saturating_add(held.len()).saturating_add(held.len());
    }
    most
}

/// The classes that are settled, where these are the classes of the objects that stand in those of each.
///
/// Want of memory is the only refusal.
pub fn settled(alloc: Global, inside: &[Items<usize>]) -> Result<Vec<bool>, Memory>
    ensures { (units : List TheUnits) → inside.now ≡ row_of units (inline_in units) →
        IfOk result (λ v. Settles units v.items) }
{
    let mut known = none_known(alloc, inside.len())?;
    let mut looked_at = vec![in alloc; 0; inside.len()]?;
    let mut open = places_below(alloc, inside.len())?;
    'steps: for _ in 0..most_steps(inside) {
        match open.pop() {
            Some(class) => go_on(
                known.as_mut_slice(),
                inside,
                looked_at.as_mut_slice(),
                &mut open,
                class,
            )?,
            None => return Ok(known),
        }
    }
    Ok(known)
}
