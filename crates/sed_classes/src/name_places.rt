//! The first place of each name: among the classes of each kit, and among the members of each class.
ghost use Rattle.std.specs.Prelude.{◌≡◌, ℕ, List, position, IfOk, OnOk};
ghost use Rattle.sed_classes.specs.Entries.{declarations};
ghost use Rattle.sed_classes.specs.Indexed.{IsPutIn, members_at, place_of, place_in};
ghost use Rattle.sed_classes.specs.Members.{has_name};
ghost use Rattle.sed_classes.specs.Names.{is_named};

use crate::entry::Entry;
use crate::index::{Places, no_places, put, put_in};
use sed_units::Member;
use sed_value::Memory;
use std::alloc::Global;

// Gives the name of a class its place in its kit.
fn put_class<'a>(
    alloc: Global,
    names: &mut Vec<Places<'a>>,
    entry: &Entry<'a>,
    place: usize,
) -> Result<(), Memory>
    ensures { OnOk result (IsPutIn names.old.items names.new.items entry.now.kit entry.now.class.now.name.bytes place) }
{
    let class = entry.class;
    put_in(alloc, names, entry.kit, class.name.bytes.as_slice(), place)?;
    Ok(())
}

/// The first place of each name among the classes of each kit.
///
/// Want of memory is the only refusal.
pub fn class_names<'a>(alloc: Global, all: &[Entry<'a>]) -> Result<Vec<Places<'a>>, Memory>
    ensures { IfOk result (λ v. (kit : ℕ) (name : List ℕ) →
        place_in v.items kit name ≡ position (is_named name kit) (declarations all.now)) }
{
    let mut names = Vec::new(alloc);
    let mut left = all.len();
    'backwards: while left > 0 {
        left -= 1;
        put_class(alloc, &mut names, &all[left], left)?;
    }
    Ok(names)
}

// The first place of each name among some members.
fn names_among<'a>(alloc: Global, members: &'a [Member]) -> Result<Places<'a>, Memory>
    ensures { IfOk result (λ m. (name : List ℕ) → place_of m name ≡ position (has_name name) members.now) }
{
    let mut names = no_places(alloc);
    let mut left = members.len();
    'backwards: while left > 0 {
        left -= 1;
        put(&mut names, members[left].name.bytes.as_slice(), left)?;
    }
    Ok(names)
}

/// The first place of each name among the members of each class.
///
/// Want of memory is the only refusal.
pub fn member_names<'a>(alloc: Global, all: &[Entry<'a>]) -> Result<Vec<Places<'a>>, Memory>
    ensures { IfOk result (λ v. (class : ℕ) (name : List ℕ) →
        place_in v.items class name ≡ position (has_name name) (members_at (declarations all.now) class)) }
{
    let mut names = Vec::new(alloc);
    for class in 0..all.len() {
        let declared = all[class].class;
        names.push(names_among(alloc, declared.members.as_slice())?)?;
    }
    Ok(names)
}
