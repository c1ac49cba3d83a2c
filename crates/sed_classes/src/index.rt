//! Names in groups, each found by one look-up.
ghost use Rattle.std.specs.Prelude.{◌≡◌, ◌+◌, ◌<◌, ℕ, List, length, OnOk, None, slice_get};
ghost use Rattle.std.specs.Option.{option_copied};
ghost use Rattle.sed_classes.specs.Indexed.{place_of, place_in, IsPut, IsPutIn, IsSame};

use sed_value::Memory;
use std::alloc::Global;
use std::collections::BTreeMap;

/// Names, each with a place.
pub type Places<'a> = BTreeMap<&'a [u8], usize>;

/// No names.
pub fn no_places<'a>(alloc: Global) -> Places<'a>
    ensures { (q : List ℕ) → place_of result q ≡ None }
{
    BTreeMap::new(alloc)
}

/// Gives a name a place, in place of the one that it had.
///
/// Want of memory is the only refusal.
pub fn put<'a>(places: &mut Places<'a>, name: &'a [u8], place: usize) -> Result<(), Memory>
    ensures { OnOk result (IsPut places.old places.new name.now place) }
{
    places.insert(name, place)?;
    Ok(())
}

fn place_of(places: &Places<'_>, name: &[u8]) -> Option<usize>
    ensures { result ≡ place_of places.now name.now }
{
    places.get(name).copied()
}

fn group_at<'a, 'b>(groups: &'b [Places<'a>], group: usize) -> Option<&'b Places<'a>>
    ensures { option_copied result ≡ slice_get groups.now group }
{
    groups.get(group)
}

/// The place that a name has in a group.
pub fn place_in(groups: &[Places<'_>], group: usize, name: &[u8]) -> Option<usize>
    ensures { result ≡ place_in groups.now group name.now }
{
    match group_at(groups, group) {
        Some(places) => place_of(places, name),
        None => None,
    }
}

// One more group, which has no names.
fn push_group<'a>(alloc: Global, groups: &mut Vec<Places<'a>>) -> Result<(), Memory>
    ensures len { OnOk result (length groups.new.items ≡ length groups.old.items + 1) }
    ensures same { OnOk result (IsSame groups.old.items groups.new.items) }
{
    groups.push(no_places(alloc))?;
    Ok(())
}

// As many groups, at least, as this one is reached by.
fn reach<'a>(alloc: Global, groups: &mut Vec<Places<'a>>, group: usize) -> Result<(), Memory>
    ensures len { OnOk result (group < length groups.new.items) }
    ensures same { OnOk result (IsSame groups.old.items groups.new.items) }
{
    'grow: while groups.len() <= group {
        push_group(alloc, groups)?;
    }
    Ok(())
}

// Gives a name a place in a group that is there.
fn put_there<'a>(
    groups: &mut [Places<'a>],
    group: usize,
    name: &'a [u8],
    place: usize,
) -> Result<(), Memory>
    requires { group < length groups.old }
    ensures { OnOk result (IsPutIn groups.old groups.new group name.now place) }
{
    put(&mut groups[group], name, place)?;
    Ok(())
}

/// Gives a name a place in a group, in place of the one that it had there.
///
/// Want of memory is the only refusal.
pub fn put_in<'a>(
    alloc: Global,
    groups: &mut Vec<Places<'a>>,
    group: usize,
    name: &'a [u8],
    place: usize,
) -> Result<(), Memory>
    ensures { OnOk result (IsPutIn groups.old.items groups.new.items group name.now place) }
{
    reach(alloc, groups, group)?;
    put_there(groups.as_mut_slice(), group, name, place)
}
