//! Members of classes by the places where they stand in texts.
//!
//! Each member of a text stands at a place of its own, and so it is found by that place. A class of which that cannot
//! be seen is not taken for one.
ghost use Rattle.std.specs.Prelude.{◌≡◌, slice_get, IfOk, IfSome, IsTrue, Some, true};
ghost use Rattle.std.specs.Option.{option_map};
ghost use Rattle.sed_classes.specs.Members as members;
ghost use Rattle.sed_rules.specs.Settled.{AreApart, AreApartIn};

use sed_classes::Classes;
use sed_units::Member;
use sed_value::Memory;
use std::alloc::Global;

// Whether each of these members stands behind the ones before it.
fn are_apart(members: &[Member]) -> bool
    ensures { IsTrue result → AreApart members.now }
{
    let mut end: usize = 0;
    for member in members {
        if member.at < end {
            return false;
        }
        match member.at.checked_add(1) {
            Some(behind) => end = behind,
            None => return false,
        }
    }
    true
}

/// For each class, by its place, whether the members that it itself declares are seen to stand apart.
///
/// Want of memory is the only refusal.
pub fn classes_apart(alloc: Global, classes: &Classes<'_>) -> Result<Vec<bool>, Memory>
    ensures { IfOk result (λ v. AreApartIn classes.now v.items) }
{
    let mut all = Vec::new(alloc);
    for class in 0..classes.len() {
        all.push(are_apart(classes.members(class)))?;
    }
    Ok(all)
}

/// Whether a row says so of the class at a place; behind its end it does not.
pub fn is_apart(row: &[bool], class: usize) -> bool
    ensures { IsTrue result → slice_get row.now class ≡ Some true }
{
    match row.get(class) {
        Some(apart) => *apart,
        None => false,
    }
}

fn stands_at(members: &[Member], number: usize) -> Option<usize>
    ensures { result ≡ option_map (λ m. m.at) (slice_get members.now number) }
{
    match members.get(number) {
        Some(member) => Some(member.at),
        None => None,
    }
}

/// The number of a member that stands at this place; one is found if each stands behind the ones before it.
pub fn number_at(members: &[Member], at: usize) -> Option<usize>
    ensures { IfSome result (λ n. option_map (λ m. m.at) (slice_get members.now n) ≡ Some at) }
{
    let mut low = 0;
    let mut high = members.len();
    'halves: while low < high {
        let middle = low + (high - low) / 2;
        let Some(there) = stands_at(members, middle) else {
            return None;
        };
        if there == at {
            return Some(middle);
        }
        if there < at {
            low = middle + 1;
        } else {
            high = middle;
        }
    }
    None
}
