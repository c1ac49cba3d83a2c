//! The place that each name has among those members of a class that have numbers of a part.
//!
//! A class may declare several members of one name, of which the first of a part is meant. So the place is kept where
//! the first member of the name stands in the class, which is found by a look-up.
ghost use Rattle.std.specs.Prelude.{◌≡◌, ◌+◌, ◌≤◌, [], replicate, slice_set, IfOk};
ghost use Rattle.std.specs.Option.{option_map_or};
ghost use Rattle.sed_classes.specs.Members.{members_of};
ghost use Rattle.sed_outline.specs.Rounds.{item};
ghost use Rattle.sed_program.specs.Parts as parts;
ghost use Rattle.sed_program.specs.Places.{IsPlaced, IsPlacedIn, noted, with_member};

use crate::parts::{Part, count_of, is_of};
use sed_classes::Classes;
use sed_units::Member;
use sed_value::{Items, Memory};
use std::alloc::Global;

// A place for each of so many members.
fn no_places(alloc: Global, count: usize) -> Result<Vec<usize>, Memory>
    ensures { IfOk result (λ v. v.items ≡ replicate count 0) }
{
    Ok(vec![in alloc; 0; count]?)
}

fn put(places: &mut [usize], at: usize, place: usize)
    ensures { places.new ≡ slice_set places.old at place }
{
    if at < places.len() {
        places[at] = place;
    }
}

// Keeps the place of a name where the first member of the name stands.
fn note(places: &mut [usize], at: Option<usize>, place: usize)
    ensures { places.new ≡ noted places.old at place }
{
    match at {
        Some(at) => put(places, at, place),
        None => {}
    }
}

// Keeps the place of a member's name, if the member is of the part, where so many are that do not stand behind it.
// Gives how many stand before it.
fn note_member(
    classes: &Classes<'_>,
    class: usize,
    part: Part,
    member: &Member,
    places: &mut [usize],
    count: usize,
) -> usize
    requires { parts.one_if (parts.is_of part member.now) ≤ count }
    ensures before { result + parts.one_if (parts.is_of part member.now) ≡ count }
    ensures places { places.new ≡ with_member (parts.is_of part) (members_of classes.now class) places.old member.now
        result }
{
    if !is_of(part, member) {
        return count;
    }
    let at = classes.place_of_member(member.name.bytes.as_slice(), class);
    note(places, at, count - 1);
    count - 1
}

// The place that each name has, where the first member of the name stands in the class.
fn places_in(
    alloc: Global,
    classes: &Classes<'_>,
    class: usize,
    part: Part,
) -> Result<Vec<usize>, Memory>
    ensures { IfOk result (λ v. IsPlacedIn part (members_of classes.now class) v.items) }
{
    let members = classes.members(class);
    let mut places = no_places(alloc, members.len())?;
    let mut before = count_of(part, members);
    let mut left = members.len();
    'backwards: while left > 0 {
        left -= 1;
        let member = &members[left];
        before = note_member(classes, class, part, member, places.as_mut_slice(), before);
    }
    Ok(places)
}

/// The place that each name has among the members of a part, class by class.
///
/// Want of memory is the only refusal.
pub fn places_of(
    alloc: Global,
    classes: &Classes<'_>,
    part: Part,
) -> Result<Vec<Items<usize>>, Memory>
    ensures { IfOk result (λ v. IsPlaced part classes.now v.items) }
{
    let mut all = Vec::new(alloc);
    for class in 0..classes.len() {
        let places = places_in(alloc, classes, class, part)?;
        all.push(Items::new(places))?;
    }
    Ok(all)
}

/// What a row of rows has for a class at a place, if there is one; else 0.
pub fn place_at(rows: &[Items<usize>], class: usize, at: Option<usize>) -> usize
    ensures { result ≡ option_map_or (λ k. item 0 (item [] rows.now class) k) at 0 }
{
    match at {
        Some(at) => number_at(row_of(rows, class), at),
        None => 0,
    }
}

fn row_of(rows: &[Items<usize>], class: usize) -> &[usize]
    ensures { result.now ≡ item [] rows.now class }
{
    match rows.get(class) {
        Some(row) => row.as_slice(),
        None => &[],
    }
}

fn number_at(row: &[usize], at: usize) -> usize
    ensures { result ≡ item 0 row.now at }
{
    match row.get(at) {
        Some(number) => *number,
        None => 0,
    }
}
