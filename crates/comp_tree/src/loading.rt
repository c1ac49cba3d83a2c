//! Components that are loaded into an engine and a table of nodes.
ghost use Rattle.std.specs.Prelude.{◌≡◌, ◌<◌, ◌≤◌, ◌+◌, ◌↔◌, ℕ, All, OnOk, length, map as map_list, nat_eq, None, Err};
ghost use Rattle.std.specs.FinMap as map;
ghost use Rattle.std.specs.List.{IsDistinct};
ghost use Rattle.comp_tree.specs.Application.{data_size_of, most_children};
ghost use Rattle.comp_tree.specs.Held.{IsPlaced, by_id_of};
ghost use Rattle.comp_tree.specs.Marks.{all_parts, marks_in, parts_at};
ghost use Rattle.comp_tree.specs.Loads.{IsToLoad, loaded, loaded_component};
ghost use Rattle.comp_tree.specs.SameCode.{SameCode};

use crate::loaded::Loaded;
use node_table::{Children, Marks, Node, Nodes, store_values};
use sed_engine::{AddRefusal, Engine, Place};
use sed_value::Id;

/// Puts the component of each entry into an engine and a table of nodes that have none.
pub fn load_each<E: Engine>(
    engine: &mut E,
    nodes: &mut Nodes,
    entries: &[Loaded],
) -> Result<(), AddRefusal>
    requires no_objects { E.live engine.old ≡ map.empty }
    requires no_nodes { nodes.old ≡ map.empty }
    requires each { All (IsToLoad (E.meaning engine.old)) entries.now }
    requires once { IsDistinct nat_eq (map_list (λ (l : Loaded). l.id.0) entries.now) }
    ensures placed { OnOk result (IsPlaced (E.meaning engine.new) (E.live engine.new) nodes.new) }
    ensures marks { OnOk result ((id at : ℕ) → marks_in nodes.new id at ≡ all_parts) }
    ensures by_id { OnOk result (by_id_of (E.live engine.new) nodes.new ≡ loaded (E.meaning engine.old) entries.now) }
    ensures full { result ≡ Err AddRefusal.DataFull
        → E.limit engine.old < data_size_of (E.meaning engine.old) (loaded (E.meaning engine.old) entries.now) }
    ensures fits { OnOk result (data_size_of (E.meaning engine.old) (loaded (E.meaning engine.old) entries.now)
        ≤ E.limit engine.old) }
    ensures statics { OnOk result (E.statics engine.new ≡ E.statics engine.old) }
    ensures same { OnOk result (SameCode E.Engine engine.old engine.new) }
{
    for entry in entries {
        match load_one(engine, nodes, entry) {
            Ok(()) => {}
            Err(refusal) => return Err(refusal),
        }
    }
    Ok(())
}

// Puts the component of an entry there.
fn load_one<E: Engine>(engine: &mut E, nodes: &mut Nodes, entry: &Loaded) -> Result<(), AddRefusal>
    requires placed { IsPlaced (E.meaning engine.old) (E.live engine.old) nodes.old }
    requires entry { IsToLoad (E.meaning engine.old) entry.now }
    requires free { map.get nodes.old entry.now.id.0 ≡ None }
    requires few { map.len nodes.old < 4096 }
    ensures placed { OnOk result (IsPlaced (E.meaning engine.new) (E.live engine.new) nodes.new) }
    ensures marks { OnOk result (((id at : ℕ) → marks_in nodes.old id at ≡ all_parts)
        → (id at : ℕ) → marks_in nodes.new id at ≡ all_parts) }
    ensures by_id { OnOk result (by_id_of (E.live engine.new) nodes.new
        ≡ map.insert (by_id_of (E.live engine.old) nodes.old) entry.now.id.0
        (loaded_component (E.meaning engine.old) entry.now)) }
    ensures full { (result ≡ Err AddRefusal.DataFull) ↔ (E.limit engine.old
        < data_size_of (E.meaning engine.old) (by_id_of (E.live engine.old) nodes.old)
        + (E.meaning engine.old).data_size entry.now.kind.0) }
    ensures statics { OnOk result (E.statics engine.new ≡ E.statics engine.old) }
    ensures same { OnOk result (SameCode E.Engine engine.old engine.new) }
{
    let place = match engine.add(entry.kind) {
        Ok(place) => place,
        Err(refusal) => return Err(refusal),
    };
    store_values(engine, place, entry.kind, entry.config.as_slice());
    let node = loaded_node(entry, place);
    nodes.insert(entry.id, node);
    Ok(())
}

// The node of an entry.
fn loaded_node(entry: &Loaded, place: Place) -> Node
    requires { length entry.now.children ≤ most_children }
    ensures kind { result.kind ≡ entry.now.kind }
    ensures name { result.name ≡ entry.now.name }
    ensures parent { result.parent ≡ entry.now.parent }
    ensures children { result.children ≡ map_list (λ (id : Id). id.0) entry.now.children }
    ensures fault { result.fault ≡ 0 }
    ensures place { result.place ≡ place }
    ensures marks { (at : ℕ) → parts_at result.marks at ≡ all_parts }
{
    Node {
        kind: entry.kind,
        name: entry.name,
        parent: entry.parent,
        children: children_from(entry.children.as_slice()),
        fault: 0,
        place,
        marks: Marks::all(),
    }
}

// These ids as children.
fn children_from(ids: &[Id]) -> Children
    requires { length ids.now ≤ most_children }
    ensures { result ≡ map_list (λ (id : Id). id.0) ids.now }
{
    let mut children = Children::new();
    for id in ids {
        children.push(id.0);
    }
    children
}
