//! The order of kits.
ghost use Rattle.std.specs.Prelude.{◌≡◌, ◌≢◌, ℕ, ◌<◌, ◌↔◌, Contains, codes, length, IfErr, IfOk, IsOk, IsTrue};
ghost use Rattle.std.specs.Prelude.{MatchOption, MatchResult, OnOk};
ghost use Rattle.kit_manifest.specs.Fault.{IsOfList, RefusesWhere};
ghost use Rattle.kit_manifest.specs.Links.{AreLinksOf};
ghost use Rattle.kit_manifest.specs.Order.{name_of, DependsOn, IsUnknown, HasUnknown, IsRepeated, IsNowhere, IsFirst};
ghost use Rattle.kit_manifest.specs.Order.{IsOrder, IsPermutationOf, StandsBefore, UnknownAt, CycleAt, RepeatedAt};
ghost use Rattle.kit_manifest.specs.Order.{IsOrderly, IsOrderOf, IsListRefusal};

use crate::fault::ManifestFault;
use crate::links::{Ordered, order_of};
use crate::manifest::Manifest;
use sed_value::KitName;
use std::alloc::{AllocError, Global};

/// The places of the kits in their order: the first kit of the list whose dependences are taken is taken, again and
/// again; the built-in kit `sys` is there before all. Each place of the list stands in it once, behind those of the
/// kits that its kit depends on.
///
/// The first of these refusals that holds is given, at the first place of the list at which it holds, and each exactly
/// there; `Memory` may come in its place, as in that of an order.
/// - `UnknownKit`: a dependence is not among the kits and not `sys`.
/// - `Cycle`: dependences lead back to the kit.
/// - `RepeatedKit`: another kit has the kit's name, or the kit is named `sys`.
///
/// Its work is at most quadratic in the number of the kits and their dependences.
pub fn order_kits(alloc: Global, list: &[Manifest]) -> Result<Vec<usize>, ManifestFault>
    ensures order { IfOk result (λ order. IsOrder (length list.now) (DependsOn list.now) order.items) }
    ensures permutation { IfOk result (λ order. IsPermutationOf (length list.now) order.items) }
    ensures behind { IfOk result (λ order. (i j : ℕ) → i < length list.now
        → DependsOn list.now i j → StandsBefore order.items j i) }

    ensures orderly { OnOk result (IsOrderly list.now) }
    ensures comes { IsOrderly list.now → result ≢ Err ManifestFault.Memory → IsOk result }

    ensures unknown_kit { (at : ℕ) → RefusesWhere result (ManifestFault.UnknownKit at) (UnknownAt list.now at) }
    ensures cycle { (at : ℕ) → RefusesWhere result (ManifestFault.Cycle at) (CycleAt list.now at) }
    ensures repeated_kit { (at : ℕ) → RefusesWhere result (ManifestFault.RepeatedKit at) (RepeatedAt list.now at) }
    ensures refusals { IfErr result IsOfList }
{
    order_or_refusal(alloc, list)
}

// The order, or the refusal that comes first.
fn order_or_refusal(alloc: Global, list: &[Manifest]) -> Result<Vec<usize>, ManifestFault>
    ensures { MatchResult result (λ order. IsOrderOf list.now order.items) (IsListRefusal list.now) }
{
    if let Some(at) = first_unknown(list) {
        return Err(ManifestFault::UnknownKit { at });
    }
    let links = link_kits(alloc, list)?;
    let order = match order_of(alloc, &links)? {
        Ordered::Cycle { at } => return Err(ManifestFault::Cycle { at }),
        Ordered::Order(order) => order,
    };
    if let Some(at) = first_repeated(list) {
        return Err(ManifestFault::RepeatedKit { at });
    }
    Ok(order)
}

// Whether the two names have the same bytes.
fn same_name(one: &KitName, other: &KitName) -> bool
    ensures { IsTrue result ↔ (one.now ≡ other.now) }
{
    one.as_bytes() == other.as_bytes()
}

// Whether it is the name of the built-in kit.
fn is_sys(name: &KitName) -> bool
    ensures { IsTrue result ↔ (name.now ≡ codes "sys") }
{
    name.as_bytes() == b"sys".as_slice()
}

// Whether the name is among these.
fn is_among(name: &KitName, names: &[KitName]) -> bool
    ensures { IsTrue result ↔ Contains names.now name.now }
{
    for other in names {
        if same_name(other, name) {
            return true;
        }
    }
    false
}

// Whether a kit of the list has that name.
fn is_kit(list: &[Manifest], name: &KitName) -> bool
    ensures { IsTrue result ↔ ((j : ℕ) × (j < length list.now) × (name_of list.now j ≡ name.now)) }
{
    for kit in list {
        if same_name(&kit.name, name) {
            return true;
        }
    }
    false
}

// Whether the name is that of no kit of the list, and not that of the built-in kit.
fn is_unknown(list: &[Manifest], name: &KitName) -> bool
    ensures { IsTrue result ↔ IsUnknown list.now name.now }
{
    !is_sys(name) && !is_kit(list, name)
}

// Whether a dependence of the kit is unknown.
fn has_unknown(list: &[Manifest], place: usize) -> bool
    requires { place < length list.now }
    ensures { IsTrue result ↔ HasUnknown list.now place }
{
    for name in list[place].depends.as_slice() {
        if is_unknown(list, name) {
            return true;
        }
    }
    false
}

// The first kit of which a dependence is unknown.
fn first_unknown(list: &[Manifest]) -> Option<usize>
    ensures { MatchOption result (IsNowhere (length list.now) (HasUnknown list.now))
        (IsFirst (length list.now) (HasUnknown list.now)) }
{
    for place in 0..list.len() {
        if has_unknown(list, place) {
            return Some(place);
        }
    }
    None
}

// Whether another kit has the kit's name, or it is that of the built-in kit.
fn is_repeated(list: &[Manifest], place: usize) -> bool
    requires { place < length list.now }
    ensures { IsTrue result ↔ IsRepeated list.now place }
{
    let name = &list[place].name;
    if is_sys(name) {
        return true;
    }
    for (other, kit) in list.iter().enumerate() {
        if other != place && same_name(&kit.name, name) {
            return true;
        }
    }
    false
}

// The first kit that is repeated.
fn first_repeated(list: &[Manifest]) -> Option<usize>
    ensures { MatchOption result (IsNowhere (length list.now) (IsRepeated list.now))
        (IsFirst (length list.now) (IsRepeated list.now)) }
{
    for place in 0..list.len() {
        if is_repeated(list, place) {
            return Some(place);
        }
    }
    None
}

// Whether the one kit depends on the other.
fn depends_on(list: &[Manifest], place: usize, other: usize) -> bool
    requires place { place < length list.now }
    requires other { other < length list.now }
    ensures { IsTrue result ↔ DependsOn list.now place other }
{
    is_among(&list[other].name, list[place].depends.as_slice())
}

// The places of the kits that the kit depends on.
fn needs_of(alloc: Global, list: &[Manifest], place: usize) -> Result<Vec<usize>, AllocError>
    requires { place < length list.now }
    ensures { IfOk result (λ needs. (j : ℕ) → Contains needs.items j ↔ DependsOn list.now place j) }
{
    let mut needs = Vec::new(alloc);
    for other in 0..list.len() {
        if depends_on(list, place, other) {
            needs.push(other)?;
        }
    }
    Ok(needs)
}

// The dependences of all kits, as links between their places.
fn link_kits(alloc: Global, list: &[Manifest]) -> Result<Vec<Vec<usize>>, AllocError>
    ensures { IfOk result (λ links. AreLinksOf list.now links.items) }
{
    let mut links = Vec::new(alloc);
    for place in 0..list.len() {
        links.push(needs_of(alloc, list, place)?)?;
    }
    Ok(links)
}
