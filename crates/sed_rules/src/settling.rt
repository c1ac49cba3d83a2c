//! Finds for all defines, each gone into once, what they come to.
//!
//! It goes from a define to the one that it names, and back once that is settled. The order of this is a matter of time
//! alone: each step keeps what is known, and a count bounds their number. What stands on a circle of defines, or leads
//! into one, stays unsettled.
ghost use Rattle.std.specs.Prelude.{◌≡◌, slice_get, IfOk, OnOk, Some};
ghost use Rattle.sed_classes.specs.Members as members;
ghost use Rattle.sed_classes.specs.Values as values;
ghost use Rattle.sed_rules.specs.Settled.{AreSettled, named_at};

use crate::define_places::{MemberPlace, all_places, member_at, next_place};
use crate::defines::value_of;
use crate::settled::{Settled, index_of, no_items, put, settled_after, settled_at};
use sed_classes::{Based, Classes, is_define};
use sed_units::Member;
use sed_value::Memory;
use std::alloc::Global;

// Settles the member at a place, whose value names this define, if that one is settled.
fn settle(
    classes: &Classes<'_>,
    most: usize,
    place: MemberPlace,
    member: &Member,
    next: Option<MemberPlace>,
    starts: &[usize],
    row: &mut [Option<Settled>],
)
    requires most { most ≡ values.member_count classes.now }
    requires there { slice_get (members.members_of classes.now place.class) place.number ≡ Some member.now }
    requires next { named_at classes.now next
        ≡ values.next_define classes.now place.class (members.form_value member.now.form) }
    requires settled { AreSettled classes.now row.old }
    ensures { AreSettled classes.now row.new }
{
    let Some(settled) = settled_after(classes, most, place, member, next, starts, row) else {
        return;
    };
    put(starts, row, settled);
}

// The define that has to be settled before one that names it, if there is one.
fn unsettled(
    starts: &[usize],
    row: &[Option<Settled>],
    next: Option<MemberPlace>,
) -> Option<MemberPlace> {
    match next {
        Some(inner) => match settled_at(starts, row, inner) {
            Some(_) => None,
            None => Some(inner),
        },
        None => None,
    }
}

// In which order members are come to: those that are open, the last one first, and which were left open before, by
// their indices in the row.
#[derive(Drop)]
struct Order {
    open: Vec<MemberPlace>,
    begun: Vec<bool>,
}

// Whether an index is come to for the first time; from then on it is not.
fn is_new(begun: &mut [bool], index: usize) -> bool {
    if index >= begun.len() || begun[index] {
        return false;
    }
    begun[index] = true;
    true
}

// Leaves a place open, and before it the one that is to be settled first, if it is come to for the first time.
fn open_both(
    order: &mut Order,
    index: usize,
    place: MemberPlace,
    inner: MemberPlace,
) -> Result<(), Memory> {
    if is_new(&mut order.begun, index) {
        order.open.push(place)?;
        order.open.push(inner)?;
    }
    Ok(())
}

// Settles a member, or leaves it open behind the define that is to be settled first.
fn go_on(
    alloc: Global,
    based: &Based<'_>,
    most: usize,
    place: MemberPlace,
    member: &Member,
    starts: &[usize],
    row: &mut [Option<Settled>],
    order: &mut Order,
) -> Result<(), Memory>
    requires most { most ≡ values.member_count based.now }
    requires there { slice_get (members.members_of based.now place.class) place.number ≡ Some member.now }
    requires settled { AreSettled based.now row.old }
    ensures { AreSettled based.now row.new }
{
    let next = next_place(alloc, based, place.class, value_of(member))?;
    match unsettled(starts, row, next) {
        Some(inner) => open_both(order, index_of(starts, place), place, inner),
        None => {
            settle(based.classes(), most, place, member, next, starts, row);
            Ok(())
        }
    }
}

// Goes on with what stands at a place, if it is a define and not settled.
fn turn(
    alloc: Global,
    based: &Based<'_>,
    most: usize,
    place: MemberPlace,
    starts: &[usize],
    row: &mut [Option<Settled>],
    order: &mut Order,
) -> Result<(), Memory>
    requires most { most ≡ values.member_count based.now }
    requires settled { AreSettled based.now row.old }
    ensures { AreSettled based.now row.new }
{
    let Some(member) = member_at(based.classes(), place) else {
        return Ok(());
    };
    if !is_define(member) || settled_at(starts, row, place).is_some() {
        return Ok(());
    }
    go_on(alloc, based, most, place, member, starts, row, order)
}

fn begin(alloc: Global, classes: &Classes<'_>, most: usize) -> Result<Order, Memory> {
    let open = all_places(alloc, classes)?;
    let begun = vec![in alloc; false; most]?;
    Ok(Order { open, begun })
}

/// All defines that lead into no circle, settled, where there are so many members in all.
///
/// Want of memory is the only refusal.
pub fn settled_defines(
    alloc: Global,
    based: &Based<'_>,
    most: usize,
    starts: &[usize],
) -> Result<Vec<Option<Settled>>, Memory>
    requires { most ≡ values.member_count based.now }
    ensures { IfOk result (λ v. AreSettled based.now v.items) }
{
    let mut row = no_items(alloc, most)?;
    let mut order = begin(alloc, based.classes(), most)?;
    // one turn for each place, and two more for one that is left open
    'turns: for _ in 0..most.saturating_mul(3) {
        let Some(place) = order.open.pop() else {
            return Ok(row);
        };
        turn(
            alloc,
            based,
            most,
            place,
            starts,
            row.as_mut_slice(),
            &mut order,
        )?;
    }
    Ok(row)
}
