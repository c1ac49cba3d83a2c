//! What a class has of its own and inherits.
ghost use Rattle.std.specs.Prelude.{◌≡◌, drop, find, slice_get, take};
ghost use Rattle.std.specs.Option.{option_copied, option_map};
ghost use Rattle.std.specs.List.{list_any};
ghost use Rattle.sed_classes.specs.Members as members;
ghost use Rattle.sed_classes.specs.FoundMembers.{owned_of};

use crate::members::has_name;
use crate::table::{Classes, is_before};
use sed_units::Member;

impl<'a> Classes<'a> {
    /// The members that a class itself declares.
    pub fn members(&self, class: usize) -> &[Member]
        ensures { result.now ≡ members.members_of self.now class }
    {
        match self.entry_at(class) {
            Some(entry) => entry.class.members.as_slice(),
            None => &[],
        }
    }

    /// The number of the kit of the class at a place; of a place without a class, 0.
    pub fn kit_of(&self, class: usize) -> usize
        ensures { result ≡ members.kit_of self.now class }
    {
        match self.entry_at(class) {
            Some(entry) => entry.kit,
            None => 0,
        }
    }

    /// Whether a class itself declares a member of a name.
    pub fn declares(&self, name: &[u8], class: usize) -> bool
        ensures { result ≡ members.declares self.now name.now class }
    {
        self.place_of_member(name, class).is_some()
    }

    /// Whether a class itself declares a member of a name before its member of this number.
    pub fn declares_before(&self, name: &[u8], class: usize, number: usize) -> bool
        ensures { result ≡ list_any (members.has_name name.now) (take number (members.members_of self.now class)) }
    {
        is_before(self.place_of_member(name, class), number)
    }

    /// Whether one of some classes declares a member of a name.
    pub fn any_declares(&self, classes: &[usize], name: &[u8]) -> bool
        ensures { result ≡ list_any (members.declares self.now name.now) classes.now }
    {
        classes.iter().any(|class| self.declares(name, *class))
    }
}

/// A member, with the class that declares it and the kit of that class.
#[derive(Drop)]
pub struct Found<'a> {
    pub class: usize,
    pub kit: usize,
    pub member: &'a Member,
}

impl<'a> Classes<'a> {
    fn own_member(&self, name: &[u8], class: usize) -> Option<&Member>
        ensures { option_copied result ≡ find (members.has_name name.now) (members.members_of self.now class) }
    {
        match self.place_of_member(name, class) {
            Some(at) => member_at(self.members(class), at),
            None => None,
        }
    }

    /// The first member of a name that a class itself declares.
    pub fn own_named(&self, name: &[u8], class: usize) -> Option<Found<'_>>
        ensures { option_map owned_of result ≡ members.own_named self.now name.now class }
    {
        match self.own_member(name, class) {
            Some(member) => Some(Found {
                class,
                kit: self.kit_of(class),
                member,
            }),
            None => None,
        }
    }

    /// The first member of a name in the first of some classes that declares one; over a lineage the one that the name
    /// stands for.
    pub fn nearest_among(&self, name: &[u8], classes: &[usize]) -> Option<Found<'_>>
        ensures { option_map owned_of result ≡ members.nearest_among self.now name.now classes.now }
    {
        for class in classes {
            let found = self.own_named(name, *class);
            if found.is_some() {
                return found;
            }
        }
        None
    }
}

fn member_at(all: &[Member], at: usize) -> Option<&Member>
    ensures { option_copied result ≡ slice_get all.now at }
{
    all.get(at)
}

/// Whether a member of a name is among these.
pub fn is_declared(all: &[Member], name: &[u8]) -> bool
    ensures { result ≡ list_any (members.has_name name.now) all.now }
{
    all.iter().any(|member| has_name(member, name))
}

/// What stands behind the first one: of a lineage, the bases.
pub fn behind_first(places: &[usize]) -> &[usize]
    ensures { result.now ≡ drop 1 places.now }
{
    match places.split_first() {
        Some((_, others)) => others,
        None => places,
    }
}
