//! Sums over members, and the member with which a sum passes a bound.
ghost use Rattle.std.specs.Prelude.{◌≡◌, ◌+◌, ◌<◌, ◌-◌, ◌^◌, sum_by};
ghost use Rattle.sed_faults.specs.Faults.{least, said_from};
ghost use Rattle.sed_classes.specs.LimitRules as rules;
ghost use Rattle.sed_outline.specs.Rounds.{capped};
ghost use Rattle.sed_first_fault.specs.Counts.{count_as, passing};

use crate::counted::{Counted, count_of};
use sed_faults::{Fault, broken_if, joined};
use sed_outline::Measured;
use sed_units::Member;

/// A sum that stands still at the end of its type.
pub fn add(sum: u64, more: u64) -> u64
    ensures { result ≡ capped (sum + more) }
{
    sum.saturating_add(more)
}

// Whether a sum that was within a bound passes it with more.
fn passes(most: u64, before: u64, more: u64) -> bool
    ensures { result ≡ rules.passes most before more }
{
    before <= most && more > most - before
}

/// What these members of a class of a kit come to.
pub fn members_sum(measured: &Measured<'_>, counted: Counted, kit: usize, members: &[Member]) -> u64
    ensures { result ≡ capped (sum_by (count_as counted measured.now kit) members.now) }
{
    let mut sum = 0;
    for member in members {
        sum = add(sum, count_of(measured, counted, kit, member));
    }
    sum
}

fn own_sum(measured: &Measured<'_>, counted: Counted, class: usize) -> u64
    ensures { result ≡ capped (rules.own_sum (count_as counted measured.now) measured.now class) }
{
    let classes = measured.based().classes();
    members_sum(
        measured,
        counted,
        classes.kit_of(class),
        classes.members(class),
    )
}

/// What the members that these classes themselves declare come to.
pub fn classes_sum(measured: &Measured<'_>, counted: Counted, all: &[usize]) -> u64
    ensures { result ≡ capped (sum_by (rules.own_sum (count_as counted measured.now) measured.now) all.now) }
{
    let mut sum = 0;
    for number in 0..all.len() {
        sum = add(sum, own_sum(measured, counted, all[number]));
    }
    sum
}

/// Where the sum over these members of a class of a kit passes a bound, begun with what came before.
pub fn passed_fault(
    measured: &Measured<'_>,
    counted: Counted,
    most: u64,
    start: u64,
    kit: usize,
    members: &[Member],
) -> Option<Fault>
    requires { most < 2 ^ 64 - 1 }
    ensures { result ≡ least (said_from (passing most (count_as counted measured.now kit) start members.now)
        0 members.now) }
{
    let mut first = None;
    let mut before = start;
    for number in 0..members.len() {
        let member = &members[number];
        let more = count_of(measured, counted, kit, member);
        first = joined(first, broken_if(passes(most, before, more), 22, member.at));
        before = add(before, more);
    }
    first
}
