//! The components, the links and the ticks of a generated record.
ghost use Rattle.std.specs.Prelude.{◌≡◌, ◌≤◌, ◌<◌, ◌+◌, ◌%◌, ◌++◌, ◌∷◌, ◌^◌, [], ℕ, length, map, slice_index_or};
ghost use Rattle.std.specs.Prelude.{IsTrue, IfOk, OnOk};
ghost use Rattle.sox_msg.specs.Command.{body_of, letter_of};
ghost use Rattle.replay_log.specs.Draw.{draw, next_draw};
ghost use Rattle.replay_log.specs.Generated as generated;
ghost use Rattle.replay_log.specs.Generated.{MayGenerate, draws_below, folder_type, link_count};
ghost use Rattle.replay_log.specs.Making.{AddsAll, AddsOne, Does, EditsAll, EditsOnce, LinksAll};
ghost use Rattle.replay_log.specs.Session.{in_turn};
ghost use Rattle.replay_log.specs.Step.{asks};

use crate::body::{Label, add_body, link_body, rename_body, write_body};
use crate::gen_spec::{GenSpec, GenType};
use crate::making::Making;
use crate::places::Place;
use crate::session::Session;
use sed_value::Memory;
use std::alloc::Global;

/// All components are added. Gives the places that links may lead to.
pub(crate) fn add_components(making: &mut Making, spec: &GenSpec) -> Result<Vec<Place>, Memory>
    requires may { MayGenerate spec.now }
    requires seed { making.old.last ≡ spec.now.seed }
    ensures { IfOk result (λ places. AddsAll spec.now spec.now.components making.old making.new places.items) }
{
    let mut places = Vec::new(*making.text.allocator());
    for i in 0..spec.components {
        add_component(making, spec, &mut places, i)?;
    }
    Ok(places)
}

// The i-th component is added.
fn add_component(
    making: &mut Making,
    spec: &GenSpec,
    places: &mut Vec<Place>,
    i: u32,
) -> Result<(), Memory>
    requires may { MayGenerate spec.now }
    requires below { i < spec.now.components }
    requires drawn { making.old.last ≡ draw spec.now.seed (draws_below i) }
    ensures { OnOk result (AddsOne spec.now i making.old making.new places.old.items places.new.items) }
{
    if i % 100 == 0 {
        add_folder(making, i)?;
        return Ok(());
    }
    let kind = draw_type(making, spec);
    add_drawn(making, kind, i)?;
    push_places(places, (i + 1) as u16, kind.ints.as_slice())?;
    Ok(())
}

// A folder is added under the App.
fn add_folder(making: &mut Making, i: u32) -> Result<(), Memory>
    ensures does { OnOk result (Does (asks (in_turn i) (generated.folder_add i) ∷ []) making.old making.new) }
    ensures last { making.new.last ≡ making.old.last }
{
    let label = Label {
        letter: b'f',
        number: i / 100,
    };
    let body = add_body(*making.text.allocator(), 0, 0, 4, label, &[0, 0, 0, 0])?;
    making.ask(Session::in_turn(i), b'a', &body)
}

// The type that is drawn.
fn draw_type<'a>(making: &mut Making, spec: &'a GenSpec) -> &'a GenType
    requires { MayGenerate spec.now }
    ensures drawn { result.now
        ≡ slice_index_or spec.now.types (next_draw making.old.last % length spec.now.types) folder_type }
    ensures small { length result.now.config ≤ 400 }
    ensures others { making.new ≡ record making.old { last = next_draw making.old.last } }
{
    let types = spec.types.as_slice();
    let place = making.draw() as usize % types.len();
    &types[place]
}

// A component of that type is added under the last folder.
fn add_drawn(making: &mut Making, kind: &GenType, i: u32) -> Result<(), Memory>
    requires few { i < 4000 }
    requires small { length kind.now.config ≤ 400 }
    ensures does { OnOk result (Does (asks (in_turn i) (generated.other_add kind.now i) ∷ []) making.old making.new) }
    ensures last { making.new.last ≡ making.old.last }
{
    let folder = (i / 100 * 100 + 1) as u16;
    let label = Label {
        letter: b'c',
        number: i,
    };
    let config = kind.config.as_slice();
    let body = add_body(
        *making.text.allocator(),
        folder,
        kind.kit,
        kind.number,
        label,
        config,
    )?;
    making.ask(Session::in_turn(i), b'a', &body)
}

// Puts the slots of a component behind the other places.
fn push_places(places: &mut Vec<Place>, id: u16, slots: &[u8]) -> Result<(), Memory>
    ensures { OnOk result (places.new.items ≡ places.old.items ++ map (generated.place id) slots.now) }
{
    for slot in slots {
        places.push(Place { id, slot: *slot })?;
    }
    Ok(())
}

/// All links are added.
pub(crate) fn add_links(making: &mut Making, spec: &GenSpec, places: &[Place]) -> Result<(), Memory>
    requires may { MayGenerate spec.now }
    requires drawn { making.old.last ≡ draw spec.now.seed (draws_below spec.now.components) }
    requires found { places.now ≡ generated.places spec.now }
    ensures { OnOk result (LinksAll spec.now (link_count spec.now) making.old making.new) }
{
    let count = places.len().min(spec.links as usize);
    for j in 0..count {
        add_link(making, places, j)?;
    }
    Ok(())
}

// The j-th link is added, from a place that is drawn.
fn add_link(making: &mut Making, places: &[Place], j: usize) -> Result<(), Memory>
    requires below { j < length places.now }
    requires small { j < 2 ^ 32 }
    ensures does { OnOk result (Does
        (asks (in_turn j) (generated.link_with places.now (next_draw making.old.last) j) ∷ [])
        making.old making.new) }
    ensures last { OnOk result (making.new.last ≡ next_draw making.old.last) }
{
    let from = place_in(places, making.draw() as usize % places.len());
    let to = place_in(places, j);
    let body = link_body(*making.text.allocator(), from, to)?;
    making.ask(Session::in_turn(j as u32), b'l', &body)?;
    Ok(())
}

// The n-th place.
fn place_in(places: &[Place], n: usize) -> Place
    requires { n < length places.now }
    ensures { result ≡ generated.place_in places.now n }
{
    places[n]
}

/// All ticks come, each with an edit.
pub(crate) fn edit_at_ticks(making: &mut Making, spec: &GenSpec) -> Result<(), Memory>
    requires may { MayGenerate spec.now }
    requires drawn { making.old.last ≡ draw spec.now.seed (draws_below spec.now.components + link_count spec.now) }
    ensures { OnOk result (EditsAll spec.now spec.now.ticks making.old making.new) }
{
    for n in 0..spec.ticks {
        edit_at_tick(making, spec.components, n + 1)?;
    }
    Ok(())
}

// The tick of this number comes, and then an edit.
fn edit_at_tick(making: &mut Making, components: u32, number: u32) -> Result<(), Memory>
    requires some { 1 ≤ components }
    requires few { components ≤ 4000 }
    requires soon { number ≤ 100000 }
    ensures { OnOk result (EditsOnce components number making.old making.new) }
{
    making.wait(u64::from(number) * 100_000_000)?;
    let id = (1 + making.draw() % components) as u16;
    let value = making.draw();
    let (letter, body) = edit_of(*making.text.allocator(), id, number, value)?;
    making.ask(Session::in_turn(number), letter, &body)?;
    Ok(())
}

// The letter and the body of an edit: every 25th is a rename, any other a write.
fn edit_of(alloc: Global, id: u16, number: u32, value: u32) -> Result<(u8, Vec<u8>), Memory>
    ensures letter { IfOk result (λ edit. edit.0 ≡ letter_of (generated.edit id number value)) }
    ensures body { IfOk result (λ edit. edit.1.items ≡ body_of (generated.edit id number value)) }
    ensures short { IfOk result (λ edit. length edit.1.items ≤ 496) }
{
    if number % 25 == 0 {
        let label = Label {
            letter: b'r',
            number,
        };
        return Ok((b'n', rename_body(alloc, id, label)?));
    }
    Ok((b'w', write_body(alloc, id, value)?))
}
