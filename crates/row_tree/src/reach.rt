//! What is reached from the first place.
ghost use Rattle.std.specs.Prelude.{◌≡◌, true, false, replicate, IfOk, OnOk, Ok, slice_get};
ghost use Rattle.std.specs.List.{list_all};
ghost use Rattle.row_tree.specs.Reached.{AllReached, LacksOne, StayWithin};
ghost use Rattle.row_tree.specs.Tree.{list_at};
ghost use Rattle.row_tree.specs.Visits.{IsMet, IsVisited, meet as met_by, meet_each as met_by_each};

use sed_value::Items;
use std::alloc::{AllocError, Global};

// Whether each place is reached from the first, by the list of places behind each.
pub(crate) fn reach(alloc: Global, lists: &[Items<usize>]) -> Result<bool, AllocError>
    requires { StayWithin lists.now }
    ensures all { result ≡ Ok true → AllReached lists.now }
    ensures lacks { result ≡ Ok false → LacksOne lists.now }
{
    let mut met = none_met(alloc, lists.len())?;
    let mut order = Vec::new(alloc);
    meet(&mut met, &mut order, 0)?;
    visit(lists, &mut met, &mut order)?;
    Ok(are_all(&met))
}

// Meets what stands behind each place that was met, and so on.
fn visit(
    lists: &[Items<usize>],
    met: &mut Vec<bool>,
    order: &mut Vec<usize>,
) -> Result<(), AllocError>
    requires stay { StayWithin lists.now }
    requires begun { IsMet lists.now 0 (met.old.items, order.old.items) }
    ensures { OnOk result (IsVisited lists.now (met.new.items, order.new.items)) }
{
    for next in 0..lists.len() {
        let Some(place) = place_at(order, next) else {
            return Ok(());
        };
        meet_each(met, order, list_of(lists, place))?;
    }
    Ok(())
}

fn none_met(alloc: Global, count: usize) -> Result<Vec<bool>, AllocError>
    ensures { IfOk result (λ met. met.items ≡ replicate count false) }
{
    vec![in alloc; false; count]
}

// The place that was met as the n-th.
fn place_at(order: &[usize], n: usize) -> Option<usize>
    ensures { result ≡ slice_get order.now n }
{
    order.get(n).copied()
}

// The places behind a place.
fn list_of(lists: &[Items<usize>], place: usize) -> &[usize]
    ensures { result.now ≡ list_at lists.now place }
{
    match lists.get(place) {
        Some(list) => list.as_slice(),
        None => &[],
    }
}

// Meets a place.
fn meet(met: &mut Vec<bool>, order: &mut Vec<usize>, place: usize) -> Result<(), AllocError>
    ensures { OnOk result ((met.new.items, order.new.items) ≡ met_by (met.old.items, order.old.items) place) }
{
    if place < met.len() && !met[place] {
        order.push(place)?;
        met[place] = true;
    }
    Ok(())
}

// Meets several places, one after another.
fn meet_each(
    met: &mut Vec<bool>,
    order: &mut Vec<usize>,
    places: &[usize],
) -> Result<(), AllocError>
    ensures { OnOk result ((met.new.items, order.new.items) ≡ met_by_each (met.old.items, order.old.items) places.now) }
{
    for place in places {
        meet(met, order, *place)?;
    }
    Ok(())
}

fn are_all(met: &[bool]) -> bool
    ensures { result ≡ list_all (λ b. b) met.now }
{
    met.iter().all(|is| *is)
}
