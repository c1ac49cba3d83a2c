//! Defines by the places of their classes and by their numbers there.
ghost use Rattle.std.specs.Prelude.{◌≡◌, position, slice_get, IfOk, IsTrue};
ghost use Rattle.std.specs.Option.{option_copied, option_map};
ghost use Rattle.sed_classes.specs.Members as members;
ghost use Rattle.sed_classes.specs.Values as values;
ghost use Rattle.sed_rules.specs.Settled.{named_at, placed};

use crate::defines::define_named;
use sed_classes::{Based, Classes};
use sed_units::{Init, InitValue, Member};
use sed_value::Memory;
use std::alloc::Global;

/// A member by the place of its class and by its number among those that the class itself declares.
#[derive(Clone, Copy)]
pub struct MemberPlace {
    pub class: usize,
    pub number: usize,
}

/// Whether two places are the same.
pub fn is_same(a: MemberPlace, b: MemberPlace) -> bool
    ensures { IsTrue result → a ≡ b }
{
    a.class == b.class && a.number == b.number
}

/// The member at a place.
pub fn member_at<'a>(classes: &'a Classes<'_>, place: MemberPlace) -> Option<&'a Member>
    ensures { option_copied result ≡ slice_get (members.members_of classes.now place.class) place.number }
{
    classes.members(place.class).get(place.number)
}

// The first member of a name that a class itself declares.
fn first_named(classes: &Classes<'_>, class: usize, name: &[u8]) -> Option<MemberPlace>
    ensures { result ≡ option_map (placed class) (position (members.has_name name.now)
        (members.members_of classes.now class)) }
{
    match classes.place_of_member(name, class) {
        Some(number) => Some(MemberPlace { class, number }),
        None => None,
    }
}

// The define that a name stands for in a class.
fn place_named(
    alloc: Global,
    based: &Based<'_>,
    class: usize,
    name: &[u8],
) -> Result<Option<MemberPlace>, Memory>
    ensures { IfOk result (λ p. named_at based.now p ≡ values.define_named based.now class name.now) }
{
    match define_named(alloc, based, class, name)? {
        Some(found) => Ok(first_named(based.classes(), found.class, name)),
        None => Ok(None),
    }
}

/// The define that an initial value in a class names.
///
/// Want of memory is the only refusal.
pub fn next_place(
    alloc: Global,
    based: &Based<'_>,
    class: usize,
    value: Option<&Init>,
) -> Result<Option<MemberPlace>, Memory>
    ensures { IfOk result (λ p. named_at based.now p
        ≡ values.next_define based.now class (option_copied value.entry)) }
{
    match value {
        Some(init) => match &init.value {
            InitValue::Name(id) => place_named(alloc, based, class, id.bytes.as_slice()),
            InitValue::Literal(_) => Ok(None),
            InitValue::Minus(_) => Ok(None),
        },
        None => Ok(None),
    }
}

/// All members that classes declare, by their places.
///
/// Want of memory is the only refusal.
pub fn all_places(alloc: Global, classes: &Classes<'_>) -> Result<Vec<MemberPlace>, Memory> {
    let mut all = Vec::new(alloc);
    for class in 0..classes.len() {
        push_places(&mut all, class, classes.members(class).len())?;
    }
    Ok(all)
}

fn push_places(all: &mut Vec<MemberPlace>, class: usize, count: usize) -> Result<(), Memory> {
    for number in 0..count {
        all.push(MemberPlace { class, number })?;
    }
    Ok(())
}
