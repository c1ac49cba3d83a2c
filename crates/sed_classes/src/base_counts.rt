//! How many bases each class has, where they come to an end.
//!
//! A class has one base more than its base has. So one goes from each class along its bases, up to a class that was
//! begun before or that has none, and numbers them on the way back: each class is gone into once. Where bases lead into
//! a circle, none of those that lead there gets a number.
ghost use Rattle.std.specs.Prelude.{◌≡◌, ◌<◌, ◌-◌, ℕ, true, length, IfOk, IfSome};
ghost use Rattle.std.specs.Prelude.{Option, None};
ghost use Rattle.sed_classes.specs.Ends.{AreCounts, ends_after, item_at};

use sed_value::Memory;
use std::alloc::Global;

/// What a row has at a place; none behind its end.
pub fn item_at(row: &[Option<usize>], place: usize) -> Option<usize>
    ensures { result ≡ item_at row.now place }
{
    match row.get(place) {
        Some(item) => *item,
        None => None,
    }
}

// One more, if that is less than this number.
fn one_more(count: Option<usize>, most: usize) -> Option<usize>
    ensures within { IfSome result (λ n. n < most) }
    ensures more { IfSome result (λ n. (0 < n) × (count ≡ Some (n - 1))) }
{
    match count {
        Some(count) if count < most && most - count > 1 => Some(count + 1),
        _ => None,
    }
}

// How many bases a class has, if that is known of its base, or it has none.
fn count_at(bases: &[Option<usize>], counts: &[Option<usize>], class: usize) -> Option<usize>
    ensures within { IfSome result (λ n. n < length bases.now) }
    ensures ends { AreCounts (item_at bases.now) (length bases.now) counts.now →
        IfSome result (λ n. ends_after (item_at bases.now) n (item_at bases.now class) ≡ true) }
{
    if class >= bases.len() {
        return None;
    }
    match item_at(bases, class) {
        Some(base) => one_more(item_at(counts, base), bases.len()),
        None => Some(0),
    }
}

// Numbers a class, if its base is numbered.
fn count(bases: &[Option<usize>], counts: &mut [Option<usize>], class: usize)
    ensures { AreCounts (item_at bases.now) (length bases.now) counts.old →
        AreCounts (item_at bases.now) (length bases.now) counts.new }
{
    if class >= counts.len() {
        return;
    }
    let found = count_at(bases, counts, class);
    counts[class] = found;
}

// Whether a class was not begun; it then was.
fn begin(begun: &mut [bool], class: usize) -> bool {
    if class >= begun.len() || begun[class] {
        return false;
    }
    begun[class] = true;
    true
}

// Opens a class, its base, the base of that, and so on, up to one that was begun before.
fn open_bases(
    bases: &[Option<usize>],
    begun: &mut [bool],
    open: &mut Vec<usize>,
    class: usize,
) -> Result<(), Memory> {
    let mut next = Some(class);
    'bases: for _ in 0..bases.len() {
        let Some(at) = next else {
            return Ok(());
        };
        if !begin(begun, at) {
            return Ok(());
        }
        open.push(at)?;
        next = item_at(bases, at);
    }
    Ok(())
}

// Numbers those that are open, the last first, and closes them.
fn count_open(bases: &[Option<usize>], counts: &mut [Option<usize>], open: &mut Vec<usize>)
    ensures { AreCounts (item_at bases.now) (length bases.now) counts.old →
        AreCounts (item_at bases.now) (length bases.now) counts.new }
{
    'open: while let Some(class) = open.pop() {
        count(bases, counts, class);
    }
}

// So many classes that are not numbered.
fn no_counts(alloc: Global, most: usize) -> Result<Vec<Option<usize>>, Memory>
    ensures { IfOk result (λ v. (place : ℕ) → item_at v.items place ≡ None) }
{
    let mut all = Vec::with_capacity(alloc, most)?;
    'places: for _ in 0..most {
        all.push(None)?;
    }
    Ok(all)
}

/// How many bases each class has, from the base of each. Those whose bases lead into a circle have no number.
///
/// Want of memory is the only refusal.
pub fn counts_of(alloc: Global, bases: &[Option<usize>]) -> Result<Vec<Option<usize>>, Memory>
    ensures { IfOk result (λ v. AreCounts (item_at bases.now) (length bases.now) v.items) }
{
    let mut counts = no_counts(alloc, bases.len())?;
    let mut begun = vec![in alloc; false; bases.len()]?;
    let mut open = Vec::new(alloc);
    'classes: for class in 0..bases.len() {
        open_bases(bases, begun.as_mut_slice(), &mut open, class)?;
        count_open(bases, counts.as_mut_slice(), &mut open);
    }
    Ok(counts)
}
