//! All defines with what they come to at hand.
ghost use Rattle.std.specs.Prelude.{◌≡◌, ℕ, List, false, slice_get, IfOk, IfSome, IsTrue, Some};
ghost use Rattle.std.specs.Option.{option_map};
ghost use Rattle.sed_classes.specs.declared.kit_units.KitUnits.{KitUnits as TheUnits};
ghost use Rattle.sed_classes.specs.Members as members;
ghost use Rattle.sed_classes.specs.Values as values;
ghost use Rattle.sed_rules.specs.Plains.{as_constant};
ghost use Rattle.sed_rules.specs.Settled.{AreApartIn, AreSettled, IsSettled, named_at};

use crate::apart::{classes_apart, is_apart, number_at};
use crate::define_places::{MemberPlace, next_place};
use crate::defines::{constant_of, leads_back, member_count, plain_value, value_of};
use crate::plain::Plain;
use crate::settled::{Settled, settled_at, starts_of};
use crate::settling::settled_defines;
use sed_classes::{Based, Classes};
use sed_units::{Init, Member};
use sed_value::Memory;
use std::alloc::Global;
use std::marker::Model;

/// All classes with what their defines come to, found once for each. Contracts see the kits.
///
/// Of a define that stands on a circle of defines, or leads into one, nothing is at hand: it is followed whenever it is
/// asked for.
#[derive(Drop)]
pub struct Defines<'a, 'b> {
    based: &'a Based<'b>,
    starts: Vec<usize>,
    settled: Vec<Option<Settled>>,
    apart: Vec<bool>,
}

impl<'a, 'b> Model for Defines<'a, 'b> {
    ghost use Rattle.std.specs.Prelude.{List};
    ghost use Rattle.std.specs.Coded.{coded_list};
    ghost use Rattle.sed_classes.specs.declared.kit_units.KitUnits.{KitUnits};
    ghost use Rattle.sed_classes.specs.contracts.kit_units.KitUnits as k;
    ghost use Rattle.sed_rules.specs.Settled.{AreAtHand};

    ghost Value = { List KitUnits };

    ghost coded = { coded_list k.the_row.coded };

    ghost view = { λ t. t.based.now };

    ghost invariant = { λ t. AreAtHand t.based.now t.settled.items t.apart.items };
}

// What an initial value in a class comes to, with what is settled.
fn constant_with(
    alloc: Global,
    based: &Based<'_>,
    starts: &[usize],
    row: &[Option<Settled>],
    class: usize,
    init: &Init,
) -> Result<Plain, Memory>
    requires { AreSettled based.now row.now }
    ensures { IfOk result (λ p. as_constant p ≡ values.constant_of based.now class init.now) }
{
    let Some(place) = next_place(alloc, based, class, Some(init))? else {
        return Ok(plain_value(Some(init)));
    };
    match settled_at(starts, row, place) {
        Some(settled) => Ok(settled.value),
        None => constant_of(alloc, based, class, init),
    }
}

// The member of a class that stands at this place of its text, if it is settled and found.
fn settled_standing(
    classes: &Classes<'_>,
    starts: &[usize],
    row: &[Option<Settled>],
    class: usize,
    at: usize,
) -> Option<Settled>
    ensures class { IfSome result (λ s. s.place.class ≡ class) }
    ensures stands { IfSome result (λ s.
        option_map (λ m. m.at) (slice_get (members.members_of classes.now class) s.place.number) ≡ Some at) }
    ensures known { (units : List TheUnits) → AreSettled units row.now → IfSome result (IsSettled units) }
{
    match number_at(classes.members(class), at) {
        Some(number) => settled_at(starts, row, MemberPlace { class, number }),
        None => None,
    }
}

// Whether it is known that no member of a class that stands at this place is come to from a define on: from the member
// on there are more defines than from that one on.
fn passes_by(
    classes: &Classes<'_>,
    starts: &[usize],
    row: &[Option<Settled>],
    apart: &[bool],
    next: Option<MemberPlace>,
    class: usize,
    at: usize,
) -> bool
    requires settled { AreSettled classes.now row.now }
    requires apart { AreApartIn classes.now apart.now }
    ensures { IsTrue result → (most : ℕ) →
        values.comes_to_member classes.now class at most (named_at classes.now next) ≡ false }
{
    let Some(first) = next else {
        return true;
    };
    if !is_apart(apart, class) {
        return false;
    }
    let Some(left) = settled_at(starts, row, first) else {
        return false;
    };
    let Some(own) = settled_standing(classes, starts, row, class, at) else {
        return false;
    };
    left.steps < own.steps
}

// Whether the value of a member of a class leads back to the member, with what is settled.
fn leads_back_with(
    alloc: Global,
    based: &Based<'_>,
    starts: &[usize],
    row: &[Option<Settled>],
    apart: &[bool],
    class: usize,
    member: &Member,
) -> Result<bool, Memory>
    requires settled { AreSettled based.now row.now }
    requires apart { AreApartIn based.now apart.now }
    ensures { IfOk result (λ b. b ≡ values.define_leads_back based.now class member.now) }
{
    let next = next_place(alloc, based, class, value_of(member))?;
    if passes_by(based.classes(), starts, row, apart, next, class, member.at) {
        return Ok(false);
    }
    leads_back(alloc, based, class, member)
}

impl<'a, 'b> Defines<'a, 'b> {
    /// These classes, with what their defines come to.
    ///
    /// Want of memory is the only refusal.
    pub fn new(alloc: Global, based: &'a Based<'b>) -> Result<Defines<'a, 'b>, Memory>
        ensures { IfOk result (λ t. t ≡ based.now) }
    {
        let Some(most) = member_count(based.classes()) else {
            return Err(Memory);
        };
        let starts = starts_of(alloc, based.classes())?;
        let settled = settled_defines(alloc, based, most, starts.as_slice())?;
        let apart = classes_apart(alloc, based.classes())?;
        Ok(Defines {
            based,
            starts,
            settled,
            apart,
        })
    }

    /// The classes with their bases.
    pub fn based(&self) -> &'a Based<'b>
        ensures { result.now ≡ self.now }
    {
        self.based
    }

    /// What an initial value in a class comes to.
    ///
    /// Want of memory is the only refusal.
    pub fn constant_of(&self, alloc: Global, class: usize, init: &Init) -> Result<Plain, Memory>
        ensures { IfOk result (λ p. as_constant p ≡ values.constant_of self.now class init.now) }
    {
        constant_with(alloc, self.based, &self.starts, &self.settled, class, init)
    }

    /// Whether the value of a member of a class leads, from define to define, back to the member.
    ///
    /// Want of memory is the only refusal.
    pub fn leads_back(&self, alloc: Global, class: usize, member: &Member) -> Result<bool, Memory>
        ensures { IfOk result (λ b. b ≡ values.define_leads_back self.now class member.now) }
    {
        leads_back_with(
            alloc,
            self.based,
            &self.starts,
            &self.settled,
            &self.apart,
            class,
            member,
        )
    }
}
