//! Links in order: where one has its place, and those at a component.
ghost use Rattle.std.specs.Prelude.{◌≡◌, ◌==◌, ◌&&◌, ◌++◌, ◌≤◌, nat_lt, nat_le, not, length, take, drop, filter, find};
ghost use Rattle.std.specs.Prelude.{slice_get};
ghost use Rattle.std.specs.List.{list_any};
ghost use Rattle.std.specs.List.Sorted.{IsNonDecreasingBy};
ghost use Rattle.sub_table.specs.Ends.{id_at};
ghost use Rattle.sub_table.specs.Links.{AreInOrder, is_before, is_same_link, links_at};
ghost use Rattle.sub_table.specs.LinkRows.{AreBySource, comes_first, is_from};
ghost use Rattle.sub_table.specs.declared.end.End.TheVariants.{Source};

use crate::end::{End, id_at};
use crate::link::LinkRec;
use sed_value::Id;

// Whether the target of one comes before that of another.
fn is_before(k: &LinkRec, l: &LinkRec) -> bool
    ensures { result ≡ is_before k.now l.now }
{
    k.to.0 < l.to.0 || (k.to.0 == l.to.0 && k.to_slot < l.to_slot)
}

// Whether one comes before another by their sources.
fn comes_first(k: &LinkRec, l: &LinkRec) -> bool
    ensures { result ≡ comes_first k.now l.now }
{
    k.from.0 < l.from.0 || (k.from.0 == l.from.0 && is_before(k, l))
}

// Whether two are the same.
fn is_same_link(k: &LinkRec, l: &LinkRec) -> bool
    ensures { result ≡ is_same_link k.now l.now }
{
    k.from.0 == l.from.0 && k.from_slot == l.from_slot && k.to.0 == l.to.0 && k.to_slot == l.to_slot
}

/// The place of a link in the order of the targets.
pub fn place_by_target(links: &[LinkRec], l: &LinkRec) -> usize
    requires { AreInOrder links.now }
    ensures within { result ≤ length links.now }
    ensures before { take result links.now ≡ filter (λ k. is_before k l.now) links.now }
    ensures after { drop result links.now ≡ filter (λ k. not (is_before k l.now)) links.now }
{
    links.partition_point(|k| is_before(k, l))
}

/// The place of a link in the order of the sources.
pub fn place_by_source(links: &[LinkRec], l: &LinkRec) -> usize
    requires { AreBySource links.now }
    ensures within { result ≤ length links.now }
    ensures before { take result links.now ≡ filter (λ k. comes_first k l.now) links.now }
    ensures after { drop result links.now ≡ filter (λ k. not (comes_first k l.now)) links.now }
{
    links.partition_point(|k| comes_first(k, l))
}

// The links that have a component below this one at an end, and the others.
fn split_below<'a>(links: &'a [LinkRec], end: End, id: Id) -> (&'a [LinkRec], &'a [LinkRec])
    requires { IsNonDecreasingBy (id_at end) links.now }
    ensures below { result.0.now ≡ filter (λ l. nat_lt (id_at end l) id.0) links.now }
    ensures others { result.1.now ≡ filter (λ l. not (nat_lt (id_at end l) id.0)) links.now }
{
    let place = links.partition_point(|l| id_at(l, end) < id.0);
    links.split_at(place)
}

// The links that have this component or one below it at an end, and those above.
fn split_above<'a>(links: &'a [LinkRec], end: End, id: Id) -> (&'a [LinkRec], &'a [LinkRec])
    requires { IsNonDecreasingBy (id_at end) links.now }
    ensures others { result.0.now ≡ filter (λ l. nat_le (id_at end l) id.0) links.now }
    ensures above { result.1.now ≡ filter (λ l. not (nat_le (id_at end l) id.0)) links.now }
{
    let place = links.partition_point(|l| id_at(l, end) <= id.0);
    links.split_at(place)
}

/// The links that have this component at an end.
pub fn links_of<'a>(links: &'a [LinkRec], end: End, id: Id) -> &'a [LinkRec]
    requires { IsNonDecreasingBy (id_at end) links.now }
    ensures { result.now ≡ filter (λ l. id_at end l == id.0) links.now }
{
    let (rest, _above) = split_above(links, end, id);
    let (_below, here) = split_below(rest, end, id);
    here
}

/// Whether a link is among these.
pub fn has_link(links: &[LinkRec], l: &LinkRec) -> bool
    ensures { result ≡ list_any (is_same_link l.now) links.now }
{
    links.iter().any(|k| is_same_link(l, k))
}

/// The first of these links into a slot of this number.
pub fn first_into(links: &[LinkRec], slot: u8) -> Option<LinkRec>
    ensures { result ≡ find (λ l. l.to_slot == slot) links.now }
{
    links.iter().find(|l| l.to_slot == slot).copied()
}

/// The links at a component, in the order of their targets: those from it that lead to components below
/// it, those into it, and those from it that lead to components above it.
#[derive(Clone, Copy)]
pub struct LinksAt<'a> {
    pub below: &'a [LinkRec],
    pub into: &'a [LinkRec],
    pub above: &'a [LinkRec],
}

/// The links at a component, of the links by their targets and by their sources.
pub fn links_at<'a>(by_target: &'a [LinkRec], by_source: &'a [LinkRec], id: Id) -> LinksAt<'a>
    requires targets { AreInOrder by_target.now }
    requires sources { AreBySource by_source.now }
    requires same { filter (is_from id.0) by_source.now ≡ filter (is_from id.0) by_target.now }
    ensures { result.below.now ++ (result.into.now ++ result.above.now) ≡ links_at id.0 by_target.now }
{
    let from = links_of(by_source, End::Source, id);
    let (below, _others) = split_below(from, End::Target, id);
    let (_others, above) = split_above(from, End::Target, id);
    LinksAt {
        below,
        into: links_of(by_target, End::Target, id),
        above,
    }
}

/// The n-th of the links at a component.
pub fn nth_of(all: &LinksAt, n: usize) -> Option<LinkRec>
    ensures { result ≡ slice_get (all.now.below.now ++ (all.now.into.now ++ all.now.above.now)) n }
{
    if n < all.below.len() {
        return all.below.get(n).copied();
    }
    let n = n - all.below.len();
    if n < all.into.len() {
        return all.into.get(n).copied();
    }
    all.above.get(n - all.into.len()).copied()
}
