//! The table.
ghost use Rattle.std.specs.Prelude.{◌≡◌, ◌==◌, ◌<◌, ◌≤◌, ◌/◌, ◌%◌, ℕ, None, IfOk, IsSome, MatchOption, true, false};
ghost use Rattle.std.specs.Prelude.{if◌then◌else◌, is_some, unwrap_or, length};
ghost use Rattle.std.specs.Int.{bit_at};
ghost use Rattle.std.specs.Option.{option_copied};
ghost use Rattle.sub_table.specs.declared.part.Part.{Part as PartOf};
ghost use Rattle.sub_table.specs.Parts.{is_in, one_of, width_of};
ghost use Rattle.sub_table.specs.Marked.{most_ids};
ghost use Rattle.sub_table.specs.Events.{Changes, kept_at, posted, subscribed, unsubscribed};
ghost use Rattle.sub_table.specs.Table.{at, most_bytes, end_of, is_any, is_subscribed, kept_of, number_of, IsNextId};
ghost use Rattle.sub_table.specs.Table.{IsNextNumber, nothing_subscribed};
ghost use Rattle.sub_table.specs.Table.{with_subscribed, without_subscribed, without_id, without_place, with_event};

use crate::events::Events;
use crate::part::{Part, Widths};
use crate::word::next_bit;
use sed_value::limits::{MOST_COMPONENTS, MOST_SESSIONS};
use sed_value::{Id, Memory};
use std::alloc::Global;

/// How many session places there are.
pub const PLACES: u8 = MOST_SESSIONS as u8;

/// How many ids there are; each is below it.
pub const IDS: u16 = MOST_COMPONENTS as u16;

// A mask of all parts.
const ALL: u8 = 15;

/// Who has subscribed which part of which id at which session place, and the bytes of the last event of each. Contracts
/// see it by `at`, and how many bytes an event may have by `most_bytes`, which no call changes.
///
/// All memory is taken by `new`, and no other call takes any: for each part 65,536 times a bit, the number of a row and
/// room for a row, which is the width, a length and the number that holds it. `new` touches the bits and the numbers of
/// rows, 136 KB a part; room is touched row by row. So what is resident follows the most subscriptions of a part that
/// there were at once, however many there were in all.
#[derive(Drop)]
pub struct SubTable {
    tree: Events,
    config: Events,
    runtime: Events,
    links: Events,
}

impl SubTable {
    /// Nothing is subscribed. An event of a part may have as many bytes as the widths say.
    pub fn new(alloc: Global, widths: Widths) -> Result<SubTable, Memory>
        ensures none { IfOk result (λ table. (p i : ℕ) (part : PartOf)
            → at table p i part ≡ nothing_subscribed p i part) }
        ensures widths { IfOk result (λ table. (part : PartOf) → most_bytes table part ≡ width_of widths part) }
    {
        let tree = Events::new(alloc, widths.tree)?;
        let config = Events::new(alloc, widths.config)?;
        let runtime = Events::new(alloc, widths.runtime)?;
        let links = Events::new(alloc, widths.links)?;
        Ok(SubTable {
            tree,
            config,
            runtime,
            links,
        })
    }

    /// How many bytes an event of a part may have.
    pub fn most_bytes(&self, part: Part) -> u16
        ensures { result ≡ most_bytes self.now part }
    {
        match part {
            Part::Tree => self.tree.width(),
            Part::Config => self.config.width(),
            Part::Runtime => self.runtime.width(),
            Part::Links => self.links.width(),
        }
    }

    /// The parts of a mask are subscribed at a place. One that was already stays as it is.
    pub fn subscribe(&mut self, place: u8, id: Id, mask: u8)
        requires place { place < 16 }
        requires id { id.0 < most_ids }
        requires mask { mask < 16 }
        ensures after { (p i : ℕ) (part : PartOf) → at self.new p i part
            ≡ with_subscribed place id.0 mask (at self.old) p i part }
        ensures widths { (part : PartOf) → most_bytes self.new part ≡ most_bytes self.old part }
    {
        let number = number_of(place, id);
        subscribe_if(&mut self.tree, number, Part::Tree.is_in(mask));
        subscribe_if(&mut self.config, number, Part::Config.is_in(mask));
        subscribe_if(&mut self.runtime, number, Part::Runtime.is_in(mask));
        subscribe_if(&mut self.links, number, Part::Links.is_in(mask));
    }

    /// The parts of a mask are not subscribed any more at a place, and their last events are forgotten.
    pub fn unsubscribe(&mut self, place: u8, id: Id, mask: u8)
        requires place { place < 16 }
        requires id { id.0 < most_ids }
        requires mask { mask < 16 }
        ensures after { (p i : ℕ) (part : PartOf) → at self.new p i part
            ≡ without_subscribed place id.0 mask (at self.old) p i part }
        ensures widths { (part : PartOf) → most_bytes self.new part ≡ most_bytes self.old part }
    {
        let number = number_of(place, id);
        unsubscribe_if(&mut self.tree, number, Part::Tree.is_in(mask));
        unsubscribe_if(&mut self.config, number, Part::Config.is_in(mask));
        unsubscribe_if(&mut self.runtime, number, Part::Runtime.is_in(mask));
        unsubscribe_if(&mut self.links, number, Part::Links.is_in(mask));
    }

    /// Nothing of an id is subscribed any more, at any place.
    pub fn drop_id(&mut self, id: Id)
        requires { id.0 < most_ids }
        ensures after { (p i : ℕ) (part : PartOf) → at self.new p i part ≡ without_id id.0 (at self.old) p i part }
        ensures widths { (part : PartOf) → most_bytes self.new part ≡ most_bytes self.old part }
    {
        for place in 0..PLACES {
            self.unsubscribe(place, id, ALL);
        }
    }

    /// Nothing is subscribed any more at a place.
    pub fn drop_session(&mut self, place: u8)
        requires { place < 16 }
        ensures after { (p i : ℕ) (part : PartOf) → at self.new p i part ≡ without_place place (at self.old) p i part }
        ensures widths { (part : PartOf) → most_bytes self.new part ≡ most_bytes self.old part }
    {
        for id in 0..IDS {
            self.unsubscribe(place, Id(id), ALL);
        }
    }

    /// The parts of an id that are subscribed at a place, as a mask.
    pub fn mask(&self, place: u8, id: Id) -> u8
        requires place { place < 16 }
        requires id { id.0 < most_ids }
        ensures parts { (part : PartOf) → is_in result part ≡ is_some (at self.now place id.0 part) }
        ensures bound { result < 16 }
    {
        let number = number_of(place, id);
        mask_of(
            self.tree.contains(number),
            self.config.contains(number),
            self.runtime.contains(number),
            self.links.contains(number),
        )
    }

    /// The bytes of the last event that was posted of a part: none where none was since it was subscribed, or where it
    /// isn't.
    pub fn last(&self, place: u8, id: Id, part: Part) -> Option<&[u8]>
        requires place { place < 16 }
        requires id { id.0 < most_ids }
        ensures { option_copied result ≡ unwrap_or (at self.now place id.0 part) None }
    {
        self.events_of(part).last(number_of(place, id))
    }

    /// An event of these bytes is posted of a part that is subscribed. They are no more than its width.
    pub fn post(&mut self, place: u8, id: Id, part: Part, event: &[u8])
        requires place { place < 16 }
        requires id { id.0 < most_ids }
        requires subscribed { IsSome (at self.old place id.0 part) }
        requires short { length event.now ≤ most_bytes self.old part }
        ensures after { (p i : ℕ) (other : PartOf) → at self.new p i other
            ≡ with_event place id.0 part event.now (at self.old) p i other }
        ensures widths { (other : PartOf) → most_bytes self.new other ≡ most_bytes self.old other }
    {
        let number = number_of(place, id);
        post_if(&mut self.tree, number, part.is(Part::Tree), event);
        post_if(&mut self.config, number, part.is(Part::Config), event);
        post_if(&mut self.runtime, number, part.is(Part::Runtime), event);
        post_if(&mut self.links, number, part.is(Part::Links), event);
    }

    /// The least id from this one on of which some part is subscribed at a place. Words without a bit are passed 64 ids
    /// at a time.
    pub fn next_id(&self, place: u8, from: Id) -> Option<Id>
        requires { place < 16 }
        ensures { MatchOption result ((id : ℕ) → from.0 ≤ id → is_subscribed (at self.now) place id ≡ false)
            (λ id. IsNextId (at self.now) place from.0 id.0) }
    {
        let first = usize::from(place) * MOST_COMPONENTS;
        match self.next_number(first + usize::from(from.0), first + MOST_COMPONENTS) {
            Some(number) => Some(Id((number - first) as u16)),
            None => None,
        }
    }

    // The least number from this one on, below an end of a whole word, that has subscribed some part.
    fn next_number(&self, from: usize, end: usize) -> Option<usize>
        requires whole { end % 64 ≡ 0 }
        requires bound { end ≤ 65536 }
        ensures { MatchOption result ((number : ℕ) → from ≤ number → number < end
            → is_any self.now number ≡ false) (λ next. IsNextNumber self.now from next × (next < end)) }
    {
        let mut number = from;
        while number < end {
            let found = self.next_in_word(number);
            if found.is_some() {
                return found;
            }
            number = word_end(number);
        }
        None
    }

    // The least number from this one on, within its word, that has subscribed some part.
    fn next_in_word(&self, number: usize) -> Option<usize>
        requires { number < 65536 }
        ensures { MatchOption result ((other : ℕ) → number ≤ other → other < end_of number
            → is_any self.now other ≡ false) (λ next. IsNextNumber self.now number next × (next < end_of number)) }
    {
        match next_bit(self.word(number / 64), number % 64) {
            Some(bit) => Some(number / 64 * 64 + bit),
            None => None,
        }
    }

    // What is kept of a part.
    fn events_of(&self, part: Part) -> &Events
        ensures { result.now ≡ kept_of self.now part }
    {
        match part {
            Part::Tree => &self.tree,
            Part::Config => &self.config,
            Part::Runtime => &self.runtime,
            Part::Links => &self.links,
        }
    }

    // The bits of 64 numbers from this many times 64 on, each set where it has subscribed some part.
    fn word(&self, at: usize) -> u64
        requires { at < 1024 }
        ensures { (number : ℕ) → number / 64 ≡ at → (bit_at result (number % 64) == 1) ≡ is_any self.now number }
    {
        self.tree.word(at) | self.config.word(at) | self.runtime.word(at) | self.links.word(at)
    }
}

// The number of a subscriber.
fn number_of(place: u8, id: Id) -> usize
    requires place { place < 16 }
    requires id { id.0 < most_ids }
    ensures same { result ≡ number_of place id.0 }
    ensures bound { result < 65536 }
{
    usize::from(place) * MOST_COMPONENTS + usize::from(id.0)
}

// Subscribes, where the part is meant.
fn subscribe_if(events: &mut Events, number: usize, named: bool)
    requires { number < 65536 }
    ensures after { Changes subscribed number named events.old events.new }
    ensures width { events.new.width ≡ events.old.width }
{
    if named {
        events.subscribe(number);
    }
}

// Unsubscribes, where the part is meant.
fn unsubscribe_if(events: &mut Events, number: usize, named: bool)
    requires { number < 65536 }
    ensures after { Changes unsubscribed number named events.old events.new }
    ensures width { events.new.width ≡ events.old.width }
{
    if named {
        events.unsubscribe(number);
    }
}

// Posts an event, where the part is meant.
fn post_if(events: &mut Events, number: usize, named: bool, event: &[u8])
    requires few { number < 65536 }
    requires subscribed { named ≡ true → IsSome (kept_at events.old number) }
    requires short { named ≡ true → length event.now ≤ events.old.width }
    ensures after { Changes (posted event.now) number named events.old events.new }
    ensures width { events.new.width ≡ events.old.width }
{
    if named {
        events.post(number, event);
    }
}

// The first number behind the word of a number.
fn word_end(number: usize) -> usize
    requires { number < 65536 }
    ensures same { result ≡ end_of number }
    ensures more { number < result }
{
    number / 64 * 64 + 64
}

// A mask of the parts that are meant.
fn mask_of(tree: bool, config: bool, runtime: bool, links: bool) -> u8
    ensures parts { (part : PartOf) → is_in result part ≡ one_of tree config runtime links part }
    ensures bound { result < 16 }
{
    bit(tree, 1) + bit(config, 2) + bit(runtime, 4) + bit(links, 8)
}

// A bit, where it is set.
fn bit(set: bool, value: u8) -> u8
    ensures { result ≡ (if set then value else 0) }
{
    if set { value } else { 0 }
}
