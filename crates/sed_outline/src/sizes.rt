//! How many bytes an object of each class takes.
ghost use Rattle.std.specs.Prelude.{◌≡◌, if◌then◌else◌, IfOk, sum_by, false};
ghost use Rattle.sed_classes.specs.Bases as ancestry;
ghost use Rattle.sed_classes.specs.Objects as objects;
ghost use Rattle.sed_outline.specs.Rounds.{capped, item, next_sizes, row_of};

use crate::fields::data_of;
use crate::rows::{add, are_same_sizes, is_known, no_sizes, size_at};
use sed_classes::{Based, Classes};
use sed_units::Member;
use sed_value::Memory;
use std::alloc::Global;

fn members_size(classes: &Classes<'_>, sizes: &[u64], kit: usize, members: &[Member]) -> u64
    ensures { result ≡ capped (sum_by (objects.data_of classes.now (item 0 sizes.now) kit) members.now) }
{
    let mut sum = 0;
    for member in members {
        sum = add(sum, data_of(classes, sizes, kit, member));
    }
    sum
}

fn own_size(classes: &Classes<'_>, sizes: &[u64], class: usize) -> u64
    ensures { result ≡ capped (objects.own_size classes.now (item 0 sizes.now) class) }
{
    members_size(
        classes,
        sizes,
        classes.kit_of(class),
        classes.members(class),
    )
}

// For each class what the members that it itself declares take.
fn own_sizes(alloc: Global, classes: &Classes<'_>, sizes: &[u64]) -> Result<Vec<u64>, Memory>
    ensures { IfOk result (λ v.
        v.items ≡ row_of classes.now (λ class. capped (objects.own_size classes.now (item 0 sizes.now) class))) }
{
    let mut all = Vec::new(alloc);
    for class in 0..classes.len() {
        all.push(own_size(classes, sizes, class))?;
    }
    Ok(all)
}

fn lineage_size(own: &[u64], lineage: &[usize]) -> u64
    ensures { result ≡ capped (sum_by (item 0 own.now) lineage.now) }
{
    let mut sum = 0;
    for number in 0..lineage.len() {
        sum = add(sum, size_at(own, lineage[number]));
    }
    sum
}

// The size of an object of a class, where its class and those above it take so much of their own.
fn class_size(
    alloc: Global,
    based: &Based<'_>,
    holding: &[bool],
    own: &[u64],
    class: usize,
) -> Result<u64, Memory>
    ensures { IfOk result (λ n.
        n ≡ (if item false holding.now class then 0
        else capped (sum_by (item 0 own.now) (ancestry.lineage based.now class)))) }
{
    if is_known(holding, class) {
        return Ok(0);
    }
    let lineage = based.lineage(alloc, class)?;
    Ok(lineage_size(own, lineage.as_slice()))
}

fn next_sizes(
    alloc: Global,
    based: &Based<'_>,
    holding: &[bool],
    sizes: &[u64],
) -> Result<Vec<u64>, Memory>
    requires { holding.now ≡ row_of based.now (objects.holds_itself based.now) }
    ensures { IfOk result (λ v. v.items ≡ next_sizes based.now sizes.now) }
{
    let own = own_sizes(alloc, based.classes(), sizes)?;
    let mut all = Vec::new(alloc);
    for class in 0..based.classes().len() {
        let size = class_size(alloc, based, holding, own.as_slice(), class)?;
        all.push(size)?;
    }
    Ok(all)
}

/// The data size of each class, where these are those whose objects would stand in themselves.
///
/// Want of memory is the only refusal.
pub fn data_sizes(alloc: Global, based: &Based<'_>, holding: &[bool]) -> Result<Vec<u64>, Memory>
    requires { holding.now ≡ row_of based.now (objects.holds_itself based.now) }
    ensures { IfOk result (λ v. v.items ≡ row_of based.now (λ class. capped (objects.data_size based.now class))) }
{
    let mut left = based.classes().len();
    let mut sizes = no_sizes(alloc, left)?;
    'rounds: while left > 0 {
        let next = next_sizes(alloc, based, holding, sizes.as_slice())?;
        if are_same_sizes(next.as_slice(), sizes.as_slice()) {
            return Ok(sizes);
        }
        sizes = next;
        left -= 1;
    }
    Ok(sizes)
}
