//! The next event.
ghost use Rattle.std.specs.Prelude.{◌≡◌, ◌==◌, ◌&&◌, ◌<◌, ◌≤◌, ℕ, MatchOption, IsSome, IsTrue, true, false, nat_lt};
ghost use Rattle.std.specs.Prelude.{length, take};
ghost use Rattle.std.specs.FinMap as map;
ghost use Rattle.comp_tree.specs.Held.{components_of};
ghost use Rattle.sox_msg.specs.Reply.{Puts, event_bytes, is_told};
ghost use Rattle.sub_table.specs.declared.part.Part.{Part as PartOf};
ghost use Rattle.sub_table.specs.Table.{at, most_bytes, with_event};
ghost use Rattle.link_prop.specs.Linked.{one_if};
ghost use Rattle.sox_events.specs.Compared.{Counts, how_many, risen, was_compared};
ghost use Rattle.sox_events.specs.Due.{comparisons, Gives, HasRoom, Passes, before_it, all_of_them, bit_of, bytes_of};
ghost use Rattle.sox_events.specs.Due.{has_event, is_last, letter_of, longest, marked, may_be_due, none_of_them, only};
ghost use Rattle.sox_events.specs.Due.{rank, room_for, subscriptions};

use crate::subs::{Subs, is_dead};
use app_parts::write_part;
use link_prop::App;
use sed_engine::Engine;
use sed_value::Id;
use sed_value::limits::LONGEST_PART;
use sox_msg::{Event, write_event};
use sub_table::{Part, SubTable};

impl Subs {
    /// The first event that is due at a place, 0 to 15, by ascending id and then in the order `t`, `c`, `r`, `l`: its
    /// text is put in front of `into`, with its length as the answer, and what stood behind it stays. None exactly
    /// where none is due.
    ///
    /// The part that is given is settled for that place, and each subscribed part of a live component before it; where
    /// there is none, each of all. Those of them that are marked and have a last event are compared with it and
    /// counted, and no others are. No other mark, nothing else of the application and no other subscription changes.
    pub fn next_event<E: Engine>(
        &mut self,
        place: u8,
        app: &mut App<E>,
        into: &mut [u8; 498],
    ) -> Option<usize>
        requires place { place < 16 }
        requires room { HasRoom (E.meaning app.old.tree.engine).schema self.old }
        ensures event { MatchOption result
            (Passes E.Engine app.old app.new (subscriptions self.old) place all_of_them
            × (subscriptions self.new ≡ subscriptions self.old) × (into.new ≡ into.old))
            (λ count. (id : ℕ) × (part : PartOf)
            × Gives E.Engine app.old app.new (subscriptions self.old) (subscriptions self.new)
            place (before_it id part) id part count into.old into.new) }
        ensures compared { comparisons self.new
            ≡ risen (comparisons self.old) (how_many (was_compared app.old app.new (subscriptions self.old) place)) }
        ensures room { (part : PartOf) → room_for self.new part ≡ room_for self.old part }
    {
        next_of(&mut self.table, place, app, into, &mut self.compared)
    }
}

// The first event that is due at a place.
fn next_of<E: Engine>(
    table: &mut SubTable,
    place: u8,
    app: &mut App<E>,
    into: &mut [u8; 498],
    compared: &mut u64,
) -> Option<usize>
    requires place { place < 16 }
    requires room { (part : PartOf) → longest (E.meaning app.old.tree.engine).schema part ≤ most_bytes table.old part }
    ensures event { MatchOption result
        (Passes E.Engine app.old app.new (at table.old) place all_of_them
        × (at table.new ≡ at table.old) × (into.new ≡ into.old))
        (λ count. (id : ℕ) × (part : PartOf)
        × Gives E.Engine app.old app.new (at table.old) (at table.new)
        place (before_it id part) id part count into.old into.new) }
    ensures compared { Counts app.old app.new (at table.old) place compared.old compared.new }
    ensures room { (part : PartOf) → most_bytes table.new part ≡ most_bytes table.old part }
{
    let mut from = 0;
    'ids: while let Some(id) = table.next_id(place, Id(from)) {
        let given = event_of(table, place, id, app, into, compared);
        if given.is_some() {
            return given;
        }
        from = id.0 + 1;
    }
    None
}

// The first event that is due of one component.
fn event_of<E: Engine>(
    table: &mut SubTable,
    place: u8,
    id: Id,
    app: &mut App<E>,
    into: &mut [u8; 498],
    compared: &mut u64,
) -> Option<usize>
    requires place { place < 16 }
    requires bound { id.0 < 4096 }
    requires room { (part : PartOf) → longest (E.meaning app.old.tree.engine).schema part ≤ most_bytes table.old part }
    ensures event { MatchOption result
        (Passes E.Engine app.old app.new (at table.old) place (λ i q. i == id.0)
        × (table.new ≡ table.old) × (into.new ≡ into.old))
        (λ count. (part : PartOf) × Gives E.Engine app.old app.new (at table.old)
        (at table.new) place (λ i q. i == id.0 && nat_lt (rank q) (rank part)) id.0 part count into.old into.new) }
    ensures compared { Counts app.old app.new (at table.old) place compared.old compared.new }
    ensures room { (part : PartOf) → most_bytes table.new part ≡ most_bytes table.old part }
    ensures meaning { E.meaning app.new.tree.engine ≡ E.meaning app.old.tree.engine }
{
    if is_dead(app, id) {
        return None;
    }
    let tree = event_of_part(table, place, id, Part::Tree, app, into, compared);
    if tree.is_some() {
        return tree;
    }
    let config = event_of_part(table, place, id, Part::Config, app, into, compared);
    if config.is_some() {
        return config;
    }
    let runtime = event_of_part(table, place, id, Part::Runtime, app, into, compared);
    if runtime.is_some() {
        return runtime;
    }
    event_of_part(table, place, id, Part::Links, app, into, compared)
}

// The event of one part of a live component, where it is due. It is settled where it is subscribed.
fn event_of_part<E: Engine>(
    table: &mut SubTable,
    place: u8,
    id: Id,
    part: Part,
    app: &mut App<E>,
    into: &mut [u8; 498],
    compared: &mut u64,
) -> Option<usize>
    requires place { place < 16 }
    requires bound { id.0 < 4096 }
    requires live { IsSome (map.get (components_of E.Engine app.old.tree).by_id id.0) }
    requires room { longest (E.meaning app.old.tree.engine).schema part ≤ most_bytes table.old part }
    ensures event { MatchOption result
        (Passes E.Engine app.old app.new (at table.old) place (only id.0 part)
        × (table.new ≡ table.old) × (into.new ≡ into.old))
        (λ count. Gives E.Engine app.old app.new (at table.old) (at table.new)
        place none_of_them id.0 part count into.old into.new) }
    ensures compared { Counts app.old app.new (at table.old) place compared.old compared.new }
    ensures room { (other : PartOf) → most_bytes table.new other ≡ most_bytes table.old other }
    ensures meaning { E.meaning app.new.tree.engine ≡ E.meaning app.old.tree.engine }
{
    if !may_be_due(table, app, place, id, part) {
        return None;
    }
    let mut bytes = [0; LONGEST_PART];
    let count = put_part(app, id, part, &mut bytes);
    app.settle(id, place, bit_of(part));
    event_of_bytes(table, place, id, part, &bytes[..count], into, compared)
}

// Whether a part of a live component is subscribed, and has no event yet or is marked.
fn may_be_due<E: Engine>(table: &SubTable, app: &App<E>, place: u8, id: Id, part: Part) -> bool
    requires place { place < 16 }
    requires bound { id.0 < 4096 }
    requires live { IsSome (map.get (components_of E.Engine app.now.tree).by_id id.0) }
    ensures { result ≡ may_be_due (at table.now place id.0 part) (marked app.now place id.0 part) }
{
    let subscribed = part.is_in(table.mask(place, id));
    let fresh = table.last(place, id, part).is_none();
    let may_differ = part.is_in(app.touched(id, place));
    subscribed && (fresh || may_differ)
}

// Puts the bytes of a part of a live component in front of `bytes`, and says how many they are.
fn put_part<E: Engine>(app: &App<E>, id: Id, part: Part, bytes: &mut [u8; LONGEST_PART]) -> usize
    requires { IsSome (map.get (components_of E.Engine app.now.tree).by_id id.0) }
    ensures front { take result bytes.new ≡ bytes_of E.Engine app.now id.0 part }
    ensures few { result ≤ LONGEST_PART }
    ensures fits { result ≤ longest (E.meaning app.now.tree.engine).schema part }
{
    write_part(app, id, letter_of(part), bytes)
}

// The event of a part that is subscribed and has these bytes, where they are not those of its last event.
fn event_of_bytes(
    table: &mut SubTable,
    place: u8,
    id: Id,
    part: Part,
    bytes: &[u8],
    into: &mut [u8; 498],
    compared: &mut u64,
) -> Option<usize>
    requires place { place < 16 }
    requires bound { id.0 < 4096 }
    requires subscribed { IsSome (at table.old place id.0 part) }
    requires short { length bytes.now ≤ LONGEST_PART }
    requires room { length bytes.now ≤ most_bytes table.old part }
    ensures event { MatchOption result
        ((is_last bytes.now (at table.old place id.0 part) ≡ true) × (table.new ≡ table.old) × (into.new ≡ into.old))
        (λ count. (is_last bytes.now (at table.old place id.0 part) ≡ false)
        × ((p i : ℕ) (other : PartOf) → at table.new p i other
        ≡ with_event place id.0 part bytes.now (at table.old) p i other)
        × Puts (event_bytes id.0 (letter_of part) bytes.now) count into.old into.new) }
    ensures compared { compared.new ≡ risen compared.old (one_if (has_event (at table.old place id.0 part))) }
    ensures room { (other : PartOf) → most_bytes table.new other ≡ most_bytes table.old other }
{
    if is_last(table, place, id, part, bytes, compared) {
        return None;
    }
    table.post(place, id, part, bytes);
    Some(put_event(id, part, bytes, into))
}

// Puts the text of an event.
fn put_event(id: Id, part: Part, bytes: &[u8], into: &mut [u8; 498]) -> usize
    requires short { length bytes.now ≤ LONGEST_PART }
    ensures { Puts (event_bytes id.0 (letter_of part) bytes.now) result into.old into.new }
{
    let event = Event {
        id,
        part: letter_of(part),
        bytes,
    };
    write_event(&event, into)
}

// Whether bytes are those of the last event of a part; where there is one, that is one comparison more.
fn is_last(
    table: &SubTable,
    place: u8,
    id: Id,
    part: Part,
    bytes: &[u8],
    compared: &mut u64,
) -> bool
    requires place { place < 16 }
    requires bound { id.0 < 4096 }
    ensures same { result ≡ is_last bytes.now (at table.now place id.0 part) }
    ensures compared { compared.new ≡ risen compared.old (one_if (has_event (at table.now place id.0 part))) }
{
    match table.last(place, id, part) {
        Some(last) => {
            *compared = compared.saturating_add(1);
            last == bytes
        }
        None => false,
    }
}

/// The letter of a part.
pub(crate) fn letter_of(part: Part) -> u8
    ensures same { result ≡ letter_of part }
    ensures told { IsTrue (is_told result) }
{
    match part {
        Part::Tree => b't',
        Part::Config => b'c',
        Part::Runtime => b'r',
        Part::Links => b'l',
    }
}

// The bit of a part.
fn bit_of(part: Part) -> u8
    ensures { result ≡ bit_of part }
{
    match part {
        Part::Tree => 1,
        Part::Config => 2,
        Part::Runtime => 4,
        Part::Links => 8,
    }
}
