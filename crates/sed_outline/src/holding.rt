//! Which classes' objects would stand in themselves.
ghost use Rattle.std.specs.Prelude.{◌≡◌, IfOk, length, replicate, false};
ghost use Rattle.std.specs.List.{list_any};
ghost use Rattle.sed_classes.specs.Objects as objects;
ghost use Rattle.sed_outline.specs.Rounds.{inline_in, is_or_has, next_holding, row_of, rounds};
ghost use Rattle.sed_outline.specs.Settled.{Settles};

use crate::fields::push_inline;
use crate::rows::{are_same_known, is_known, none_known};
use crate::settled::settled;
use sed_classes::Based;
use sed_value::{Items, Memory};
use std::alloc::Global;

// The classes of the inline objects that stand in an object of a class.
fn inline_in(alloc: Global, based: &Based<'_>, class: usize) -> Result<Vec<usize>, Memory>
    ensures { IfOk result (λ v. v.items ≡ inline_in based.now class) }
{
    let lineage = based.lineage(alloc, class)?;
    let classes = based.classes();
    let mut all = Vec::new(alloc);
    for number in 0..lineage.len() {
        let above = lineage[number];
        push_inline(
            &mut all,
            classes,
            classes.kit_of(above),
            classes.members(above),
        )?;
    }
    Ok(all)
}

// Those of each class.
fn inline_row(alloc: Global, based: &Based<'_>) -> Result<Vec<Items<usize>>, Memory>
    ensures { IfOk result (λ v. v.items ≡ row_of based.now (inline_in based.now)) }
{
    let mut all = Vec::new(alloc);
    for class in 0..based.classes().len() {
        let inside = inline_in(alloc, based, class)?;
        all.push(Items::new(inside))?;
    }
    Ok(all)
}

fn is_or_has(inner: usize, known: &[bool], class: usize) -> bool
    ensures { result ≡ is_or_has inner known.now class }
{
    class == inner || is_known(known, class)
}

fn any_is_or_has(inner: usize, known: &[bool], inside: &[usize]) -> bool
    ensures { result ≡ list_any (is_or_has inner known.now) inside.now }
{
    inside.iter().any(|class| is_or_has(inner, known, *class))
}

fn next_holding(
    alloc: Global,
    inside: &[Items<usize>],
    inner: usize,
    known: &[bool],
) -> Result<Vec<bool>, Memory>
    ensures { IfOk result (λ v. v.items ≡ next_holding inside.now inner known.now) }
{
    let mut all = Vec::new(alloc);
    for held in inside {
        all.push(any_is_or_has(inner, known, held.as_slice()))?;
    }
    Ok(all)
}

// For each class whether one of its objects would have one of this class inside, where these are the classes of the
// objects that stand in each.
fn holding(alloc: Global, inside: &[Items<usize>], inner: usize) -> Result<Vec<bool>, Memory>
    ensures { IfOk result (λ v.
        v.items ≡ rounds (next_holding inside.now inner) (length inside.now) (replicate (length inside.now) false)) }
{
    let mut left = inside.len();
    let mut known = none_known(alloc, left)?;
    'rounds: while left > 0 {
        let next = next_holding(alloc, inside, inner, known.as_slice())?;
        if are_same_known(next.as_slice(), known.as_slice()) {
            return Ok(known);
        }
        known = next;
        left -= 1;
    }
    Ok(known)
}

// Whether an object of a class would stand in itself.
fn holds_itself(
    alloc: Global,
    based: &Based<'_>,
    inside: &[Items<usize>],
    settled: &[bool],
    class: usize,
) -> Result<bool, Memory>
    requires inside { inside.now ≡ row_of based.now (inline_in based.now) }
    requires settled { Settles based.now settled.now }
    ensures { IfOk result (λ b. b ≡ objects.holds_itself based.now class) }
{
    if is_known(settled, class) {
        return Ok(false);
    }
    let held = holding(alloc, inside, class)?;
    Ok(is_known(held.as_slice(), class))
}

/// For each class whether one of its objects would stand in itself.
///
/// Want of memory is the only refusal.
pub fn holding_classes(alloc: Global, based: &Based<'_>) -> Result<Vec<bool>, Memory>
    ensures { IfOk result (λ v. v.items ≡ row_of based.now (objects.holds_itself based.now)) }
{
    let inside = inline_row(alloc, based)?;
    let settled = settled(alloc, inside.as_slice())?;
    let mut all = Vec::new(alloc);
    for class in 0..based.classes().len() {
        let holds = holds_itself(alloc, based, inside.as_slice(), settled.as_slice(), class)?;
        all.push(holds)?;
    }
    Ok(all)
}
