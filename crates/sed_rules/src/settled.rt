//! Defines of which it is known what they come to.
//!
//! An item says of itself which define it is of. So nothing follows from where it stands in its row, and a row is read
//! at the index where it was written.
ghost use Rattle.std.specs.Prelude.{◌≡◌, List, replicate, slice_get, IfOk, IfSome, None, Some};
ghost use Rattle.sed_classes.specs.declared.kit_units.KitUnits.{KitUnits as TheUnits};
ghost use Rattle.sed_classes.specs.Members as members;
ghost use Rattle.sed_classes.specs.Values as values;
ghost use Rattle.sed_rules.specs.Plains.{as_constant};
ghost use Rattle.sed_rules.specs.Reading.{plain_value};
ghost use Rattle.sed_rules.specs.Settled.{AreSettled, ComesTo, IsSettled, named_at};

use crate::constants::read_value;
use crate::define_places::{MemberPlace, is_same};
use crate::defines::{plain_value, value_of};
use crate::plain::Plain;
use sed_classes::Classes;
use sed_units::Member;
use sed_value::Memory;
use std::alloc::Global;

/// The define at a place: what a name reads of it, and how many defines there are from it on, each naming the next,
/// itself counted.
#[derive(Clone, Copy)]
pub struct Settled {
    pub place: MemberPlace,
    pub steps: usize,
    pub value: Plain,
}

/// For each class, by its place, how many members those before it declare: where its items begin in a row.
///
/// Want of memory is the only refusal.
pub fn starts_of(alloc: Global, classes: &Classes<'_>) -> Result<Vec<usize>, Memory> {
    let mut starts = Vec::new(alloc);
    let mut end: usize = 0;
    for class in 0..classes.len() {
        starts.push(end)?;
        end = end.saturating_add(classes.members(class).len());
    }
    Ok(starts)
}

/// The index of a place in a row; behind each end for one of no class.
pub fn index_of(starts: &[usize], place: MemberPlace) -> usize {
    match starts.get(place.class) {
        Some(start) => start.saturating_add(place.number),
        None => usize::MAX,
    }
}

/// So many items of which nothing is known.
///
/// Want of memory is the only refusal.
pub fn no_items(alloc: Global, count: usize) -> Result<Vec<Option<Settled>>, Memory>
    ensures { IfOk result (λ v. v.items ≡ replicate count None) }
{
    Ok(vec![in alloc; None; count]?)
}

// The item at an index.
fn item_at(row: &[Option<Settled>], index: usize) -> Option<Settled>
    ensures { IfSome result (λ s. slice_get row.now index ≡ Some (Some s)) }
{
    match row.get(index) {
        Some(item) => *item,
        None => None,
    }
}

/// What is known of the define at a place.
pub fn settled_at(starts: &[usize], row: &[Option<Settled>], place: MemberPlace) -> Option<Settled>
    ensures place { IfSome result (λ s. s.place ≡ place) }
    ensures known { (units : List TheUnits) → AreSettled units row.now → IfSome result (IsSettled units) }
{
    match item_at(row, index_of(starts, place)) {
        Some(found) => {
            if is_same(found.place, place) {
                Some(found)
            } else {
                None
            }
        }
        None => None,
    }
}

// The define at a place, where what its value comes to is known.
fn settled_with(
    classes: &Classes<'_>,
    most: usize,
    place: MemberPlace,
    member: &Member,
    steps: usize,
    value: Plain,
) -> Option<Settled>
    requires most { most ≡ values.member_count classes.now }
    requires there { slice_get (members.members_of classes.now place.class) place.number ≡ Some member.now }
    requires comes { ComesTo classes.now
        (values.next_define classes.now place.class (members.form_value member.now.form))
        (plain_value (members.form_value member.now.form)) steps (as_constant value) }
    ensures { IfSome result (IsSettled classes.now) }
{
    if steps >= most {
        return None;
    }
    let kind = classes.type_of(classes.kit_of(place.class), &member.kind);
    Some(Settled {
        place,
        steps: steps + 1,
        value: read_value(kind, value),
    })
}

/// The define at a place, where the one that it names, if it names any, is settled; its value names this one.
///
/// None where it is not, and where there are more defines than members, which never comes.
pub fn settled_after(
    classes: &Classes<'_>,
    most: usize,
    place: MemberPlace,
    member: &Member,
    next: Option<MemberPlace>,
    starts: &[usize],
    row: &[Option<Settled>],
) -> Option<Settled>
    requires most { most ≡ values.member_count classes.now }
    requires there { slice_get (members.members_of classes.now place.class) place.number ≡ Some member.now }
    requires next { named_at classes.now next
        ≡ values.next_define classes.now place.class (members.form_value member.now.form) }
    requires settled { AreSettled classes.now row.now }
    ensures { IfSome result (IsSettled classes.now) }
{
    match next {
        Some(inner) => match settled_at(starts, row, inner) {
            Some(known) => { settled_with(classes, most, place, member, known.steps, known.value) }
            None => None,
        },
        None => settled_with(
            classes,
            most,
            place,
            member,
            0,
            plain_value(value_of(member)),
        ),
    }
}

/// Puts an item at its index, if there is one.
pub fn put(starts: &[usize], row: &mut [Option<Settled>], settled: Settled)
    ensures { (units : List TheUnits) → IsSettled units settled → AreSettled units row.old → AreSettled units row.new }
{
    let index = index_of(starts, settled.place);
    if index >= row.len() {
        return;
    }
    row[index] = Some(settled);
}
