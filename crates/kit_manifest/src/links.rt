//! Links between the places of a list: their order, and the first place to which they lead back.
ghost use Rattle.std.specs.Prelude.{◌≡◌, ◌≢◌, ℕ, ◌<◌, ◌↔◌, [], ◌∷◌, All, Contains, false, true, length, replicate};
ghost use Rattle.std.specs.Prelude.{IfOk, IsTrue, MatchOption, OnOk};
ghost use Rattle.kit_manifest.specs.Links.{links_at, IsLink, StaysBelow, is_marked, AreMarked, IsReady, IsStalled};
ghost use Rattle.kit_manifest.specs.Links.{Reaches, IsOrdered};
ghost use Rattle.kit_manifest.specs.Order.{IsFirst};
ghost use Rattle.kit_manifest.specs.Walk.{Walk};

use std::alloc::{AllocError, Global};

/// What the links of a list's places give: the places in an order in which each stands behind those that it has links
/// to, or the first place to which links lead back.
#[derive(Drop)]
pub enum Ordered {
    Order(Vec<usize>),
    Cycle { at: usize },
}

/// The order of the places: the first that is left and has links to such alone as were taken is taken, again and
/// again. Where some are left at the end, links lead back to one of them.
///
/// It looks at each link once for each place that is taken, and once for each place from which it seeks a way back.
pub fn order_of(alloc: Global, links: &[Vec<usize>]) -> Result<Ordered, AllocError>
    requires { StaysBelow (length links.now) links.now }
    ensures { IfOk result (IsOrdered links.now) }
{
    let mut order = Vec::new(alloc);
    let mut taken = unmarked(alloc, links.len())?;
    while let Some(next) = first_ready(links, &taken) {
        order.push(next)?;
        taken[next] = true;
    }
    let Some(left) = first_left(&taken) else {
        return Ok(Ordered::Order(order));
    };
    let some = place_on_cycle(alloc, links, &taken, left)?;
    let at = first_on_cycle(alloc, links, some)?;
    Ok(Ordered::Cycle { at })
}

// The places that a place has links to.
fn links_of(links: &[Vec<usize>], place: usize) -> &[usize]
    requires { place < length links.now }
    ensures { result.now ≡ links_at links.now place }
{
    &links[place]
}

// The first of these places that is not marked.
fn first_unmarked(places: &[usize], marks: &[bool]) -> Option<usize>
    requires { All (λ i. i < length marks.now) places.now }
    ensures { MatchOption result (AreMarked marks.now places.now) (λ i. Contains places.now i
        × (is_marked marks.now i ≡ false)) }
{
    for place in places {
        if !marks[*place] {
            return Some(*place);
        }
    }
    None
}

// Whether the place is not taken, and all that it has links to are.
fn is_ready(links: &[Vec<usize>], taken: &[bool], place: usize) -> bool
    requires stays { StaysBelow (length links.now) links.now }
    requires marks { length taken.now ≡ length links.now }
    requires within { place < length links.now }
    ensures { IsTrue result ↔ IsReady links.now taken.now place }
{
    !taken[place] && first_unmarked(links_of(links, place), taken).is_none()
}

// The first place that can be taken.
fn first_ready(links: &[Vec<usize>], taken: &[bool]) -> Option<usize>
    requires stays { StaysBelow (length links.now) links.now }
    requires marks { length taken.now ≡ length links.now }
    ensures { MatchOption result (IsStalled links.now taken.now)
        (IsFirst (length links.now) (IsReady links.now taken.now)) }
{
    for place in 0..links.len() {
        if is_ready(links, taken, place) {
            return Some(place);
        }
    }
    None
}

// The first place that is not taken.
fn first_left(taken: &[bool]) -> Option<usize>
    ensures { MatchOption result ((i : ℕ) → i < length taken.now → is_marked taken.now i ≡ true)
        (λ i. (i < length taken.now) × (is_marked taken.now i ≡ false)) }
{
    for (place, mark) in taken.iter().enumerate() {
        if !*mark {
            return Some(place);
        }
    }
    None
}

// A place that is not taken, and that this one has a link to.
fn next_left(links: &[Vec<usize>], taken: &[bool], place: usize) -> usize
    requires stays { StaysBelow (length links.now) links.now }
    requires marks { length taken.now ≡ length links.now }
    requires within { place < length links.now }
    requires left { is_marked taken.now place ≡ false }
    requires stalled { IsStalled links.now taken.now }
    ensures link { IsLink links.now place result }
    ensures within { result < length links.now }
    ensures left { is_marked taken.now result ≡ false }
{
    // There is one, since the place can't be taken.
    first_unmarked(links_of(links, place), taken).unwrap_or(place)
}

// A place to which links lead back, where some are left and none can be taken: from each that is left a link leads to
// another that is left, so going on from `start` comes back to a place that was seen.
fn place_on_cycle(
    alloc: Global,
    links: &[Vec<usize>],
    taken: &[bool],
    start: usize,
) -> Result<usize, AllocError>
    requires stays { StaysBelow (length links.now) links.now }
    requires marks { length taken.now ≡ length links.now }
    requires within { start < length links.now }
    requires left { is_marked taken.now start ≡ false }
    requires stalled { IsStalled links.now taken.now }
    ensures { IfOk result (λ place. (place < length links.now) × Walk (IsLink links.now) place place) }
{
    let mut seen = unmarked(alloc, links.len())?;
    let mut place = start;
    while !seen[place] {
        seen[place] = true;
        place = next_left(links, taken, place);
    }
    Ok(place)
}

// The first place to which links lead back, given one.
fn first_on_cycle(alloc: Global, links: &[Vec<usize>], some: usize) -> Result<usize, AllocError>
    requires stays { StaysBelow (length links.now) links.now }
    requires within { some < length links.now }
    requires cycle { Walk (IsLink links.now) some some }
    ensures { IfOk result (IsFirst (length links.now) (λ i. Walk (IsLink links.now) i i)) }
{
    for place in 0..some {
        if leads_back(alloc, links, place)? {
            return Ok(place);
        }
    }
    Ok(some)
}

// Whether links lead from the place back to it.
fn leads_back(alloc: Global, links: &[Vec<usize>], from: usize) -> Result<bool, AllocError>
    requires stays { StaysBelow (length links.now) links.now }
    requires within { from < length links.now }
    ensures { IfOk result (λ back. IsTrue back ↔ Walk (IsLink links.now) from from) }
{
    let mut reached = unmarked(alloc, links.len())?;
    let mut waiting = Vec::new(alloc);
    reach(links_of(links, from), &mut reached, &mut waiting)?;
    while let Some(place) = waiting.pop() {
        reach(links_of(links, place), &mut reached, &mut waiting)?;
    }
    Ok(reached[from])
}

// Marks these places, and lets those that were not marked wait.
fn reach(
    places: &[usize],
    reached: &mut Vec<bool>,
    waiting: &mut Vec<usize>,
) -> Result<(), AllocError>
    requires { All (λ i. i < length reached.old.items) places.now }
    ensures { OnOk result (Reaches places.now reached.old.items reached.new.items waiting.old.items waiting.new.items) }
{
    for place in places {
        reach_one(*place, reached, waiting)?;
    }
    Ok(())
}

// Marks this place, and lets it wait if it was not marked.
fn reach_one(
    place: usize,
    reached: &mut Vec<bool>,
    waiting: &mut Vec<usize>,
) -> Result<(), AllocError>
    requires { place < length reached.old.items }
    ensures { OnOk result (Reaches (place ∷ []) reached.old.items reached.new.items
        waiting.old.items waiting.new.items) }
{
    if reached[place] {
        return Ok(());
    }
    waiting.push(place)?;
    reached[place] = true;
    Ok(())
}

// Marks for so many places, none of them set.
fn unmarked(alloc: Global, count: usize) -> Result<Vec<bool>, AllocError>
    ensures { IfOk result (λ marks. marks.items ≡ replicate count false) }
{
    vec![in alloc; false; count]
}
