//! Who is told what.
ghost use Rattle.std.specs.Prelude.{◌≡◌, ◌&&◌, ◌==◌, ◌<◌, ◌↔◌, ℕ, None, IfOk, true, nat_le, not, if◌then◌else◌};
ghost use Rattle.sub_table.specs.declared.part.Part.{Part as PartOf};
ghost use Rattle.sub_table.specs.Parts.{width_of};
ghost use Rattle.sub_table.specs.Table.{at, most_bytes, nothing_subscribed, with_subscribed, without_subscribed};
ghost use Rattle.sub_table.specs.Table.{without_place};
ghost use Rattle.sox_events.specs.Due.{HasRoom, comparisons, lives, longest, of_the_live, room_for, subscriptions};

use crate::next::letter_of;
use app_parts::longest_part;
use link_prop::App;
use sed_engine::Engine;
use sed_typed::Schema;
use sed_value::{Id, Memory};
use std::alloc::Global;
use sub_table::{IDS, Part, SubTable, Widths};

/// Who has subscribed which part of which component at which session place, 0 to 15, and the bytes of the last event
/// that was posted of each. Contracts see it by `subscriptions`: of a place, an id and a part none where it is not
/// subscribed, and else the last event, if there is one.
///
/// All memory is taken by `new`, as much as the components of a schema may need: about 107 MB at the limits, some
/// 55 MB where classes are small. No other call takes any. It is reserved, and what is resident follows the most
/// subscriptions that there were at once.
#[derive(Drop)]
pub struct Subs {
    pub(crate) table: SubTable,
    // How many parts were compared with their last events.
    pub(crate) compared: u64,
}

impl Subs {
    /// Nothing is subscribed, and nothing was compared. There is room for an event of every part of every component of
    /// an application over the schema, at every place.
    pub fn new(alloc: Global, schema: &Schema) -> Result<Subs, Memory>
        ensures none { IfOk result (λ subs. (p i : ℕ) (part : PartOf)
            → subscriptions subs p i part ≡ nothing_subscribed p i part) }
        ensures compared { IfOk result (λ subs. comparisons subs ≡ 0) }
        ensures room { IfOk result (λ subs. (part : PartOf) → room_for subs part ≡ longest schema.now part) }
    {
        let table = SubTable::new(alloc, widths_of(schema))?;
        Ok(Subs { table, compared: 0 })
    }

    /// Whether there is room for an event of every part of every component of an application over a schema, as there is
    /// for that of `new`.
    pub fn has_room(&self, schema: &Schema) -> bool
        ensures { (result ≡ true) ↔ HasRoom schema.now self.now }
    {
        let tree = fits(&self.table, Part::Tree, schema);
        let config = fits(&self.table, Part::Config, schema);
        let runtime = fits(&self.table, Part::Runtime, schema);
        let links = fits(&self.table, Part::Links, schema);
        are_all(tree, config, runtime, links)
    }

    /// The parts of a mask are subscribed at a place: a bit each for `t`, `c`, `r` and `l`, 1, 2, 4 and 8. One that
    /// was already stays as it is, with its last event.
    pub fn subscribe(&mut self, place: u8, id: Id, mask: u8)
        requires place { place < 16 }
        requires id { id.0 < 4096 }
        requires mask { mask < 16 }
        ensures after { (p i : ℕ) (part : PartOf) → subscriptions self.new p i part
            ≡ with_subscribed place id.0 mask (subscriptions self.old) p i part }
        ensures compared { comparisons self.new ≡ comparisons self.old }
        ensures room { (part : PartOf) → room_for self.new part ≡ room_for self.old part }
    {
        self.table.subscribe(place, id, mask);
    }

    /// The parts of a mask are not subscribed any more at a place, and their last events are forgotten.
    pub fn unsubscribe(&mut self, place: u8, id: Id, mask: u8)
        requires place { place < 16 }
        requires id { id.0 < 4096 }
        requires mask { mask < 16 }
        ensures after { (p i : ℕ) (part : PartOf) → subscriptions self.new p i part
            ≡ without_subscribed place id.0 mask (subscriptions self.old) p i part }
        ensures compared { comparisons self.new ≡ comparisons self.old }
        ensures room { (part : PartOf) → room_for self.new part ≡ room_for self.old part }
    {
        self.table.unsubscribe(place, id, mask);
    }

    /// Nothing is subscribed any more at a place.
    pub fn drop_session(&mut self, place: u8)
        requires { place < 16 }
        ensures after { (p i : ℕ) (part : PartOf) → subscriptions self.new p i part
            ≡ without_place place (subscriptions self.old) p i part }
        ensures compared { comparisons self.new ≡ comparisons self.old }
        ensures room { (part : PartOf) → room_for self.new part ≡ room_for self.old part }
    {
        self.table.drop_session(place);
    }

    /// Nothing of a component that is gone is subscribed any more, at any place; what is of those that live stays.
    pub fn drop_dead<E: Engine>(&mut self, app: &App<E>)
        ensures after { (p i : ℕ) (part : PartOf) → subscriptions self.new p i part
            ≡ of_the_live E.Engine app.now (subscriptions self.old) p i part }
        ensures compared { comparisons self.new ≡ comparisons self.old }
        ensures room { (part : PartOf) → room_for self.new part ≡ room_for self.old part }
    {
        drop_all_dead(&mut self.table, app);
    }

    /// How many times a part was compared with its last event, since this was made.
    pub fn compared(&self) -> u64
        ensures { result ≡ comparisons self.now }
    {
        self.compared
    }
}

// How many bytes an event of each part has at most.
fn widths_of(schema: &Schema) -> Widths
    ensures { (part : PartOf) → width_of result part ≡ longest schema.now part }
{
    Widths {
        tree: longest_part(schema, b't'),
        config: longest_part(schema, b'c'),
        runtime: longest_part(schema, b'r'),
        links: longest_part(schema, b'l'),
    }
}

fn are_all(tree: bool, config: bool, runtime: bool, links: bool) -> bool
    ensures { result ≡ (((tree && config) && runtime) && links) }
{
    tree && config && runtime && links
}

// Whether there is room for an event of a part.
fn fits(table: &SubTable, part: Part, schema: &Schema) -> bool
    ensures { result ≡ nat_le (longest schema.now part) (most_bytes table.now part) }
{
    longest_part(schema, letter_of(part)) <= table.most_bytes(part)
}

// Nothing of an id that is not live is subscribed any more.
fn drop_all_dead<E: Engine>(table: &mut SubTable, app: &App<E>)
    ensures after { (p i : ℕ) (part : PartOf) → at table.new p i part
        ≡ of_the_live E.Engine app.now (at table.old) p i part }
    ensures widths { (part : PartOf) → most_bytes table.new part ≡ most_bytes table.old part }
{
    for id in 0..IDS {
        let dead = is_dead(app, Id(id));
        drop_if(table, Id(id), dead);
    }
}

// Nothing of an id is subscribed any more, where it is dead.
fn drop_if(table: &mut SubTable, id: Id, dead: bool)
    requires { id.0 < 4096 }
    ensures after { (p i : ℕ) (part : PartOf) → at table.new p i part
        ≡ (if dead && (i == id.0) then None else at table.old p i part) }
    ensures widths { (part : PartOf) → most_bytes table.new part ≡ most_bytes table.old part }
{
    if dead {
        table.drop_id(id);
    }
}

// Whether no component has an id.
pub(crate) fn is_dead<E: Engine>(app: &App<E>, id: Id) -> bool
    ensures { result ≡ not (lives E.Engine app.now id.0) }
{
    app.tree().find(id).is_none()
}
