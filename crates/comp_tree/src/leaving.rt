//! Components that go: which they are, and how their nodes and objects are taken away.
ghost use Rattle.std.specs.Prelude.{◌≡◌, ◌==◌, ◌+◌, ◌++◌, ◌≤◌, not, filter, length, nat_eq, All, IsSome};
ghost use Rattle.std.specs.FinMap as map;
ghost use Rattle.std.specs.List.{IsDistinct};
ghost use Rattle.comp_tree.specs.Application.{most_children, most_components};
ghost use Rattle.comp_tree.specs.Edits.{without_all};
ghost use Rattle.comp_tree.specs.Held.{IsPlaced, IsTreeOf, by_id_of, children_in};
ghost use Rattle.comp_tree.specs.Order.{most_levels};
ghost use Rattle.comp_tree.specs.SameCode.{SameCode};
ghost use Rattle.comp_tree.specs.Shape.{down_by};

use arrayvec::ArrayVec;
use node_table::{Children, Nodes};
use sed_engine::Engine;
use sed_value::Id;

// How many levels a tree has at most, the App's among them.
const MOST_LEVELS: u8 = 17;

/// The ids of a node and of those below it, depth first.
pub fn at_and_below(nodes: &Nodes, id: Id) -> ArrayVec<u16, 4096>
    requires tree { IsTreeOf nodes.now }
    requires live { IsSome (map.get nodes.now id.0) }
    requires few { map.len nodes.now ≤ most_components }
    ensures { result.items ≡ down_by (children_in nodes.now) most_levels id.0 }
{
    let mut ids = ArrayVec::new();
    gather(nodes, id.0, MOST_LEVELS, &mut ids);
    ids
}

// Puts an id and those below it, down to so many levels, behind the others.
fn gather(nodes: &Nodes, id: u16, levels: u8, ids: &mut ArrayVec<u16, 4096>)
    requires { length ids.old.items + length (down_by (children_in nodes.now) levels id) ≤ most_components }
    ensures { ids.new.items ≡ ids.old.items ++ down_by (children_in nodes.now) levels id }
{
    if levels == 0 {
        return;
    }
    ids.push(id);
    let Some(node) = nodes.get(Id(id)) else {
        return;
    };
    let children = node.children.as_slice();
    for child in children {
        gather(nodes, *child, levels - 1, ids);
    }
}

/// The children but one, in their order.
pub fn children_without(children: &[u16], id: Id) -> Children
    requires { length children.now ≤ most_children }
    ensures { result ≡ filter (λ child. not (child == id.0)) children.now }
{
    let mut left = Children::new();
    for child in children {
        if *child != id.0 {
            left.push(*child);
        }
    }
    left
}

/// Takes these nodes and their objects away.
pub fn remove_each<E: Engine>(engine: &mut E, nodes: &mut Nodes, ids: &[u16])
    requires placed { IsPlaced (E.meaning engine.old) (E.live engine.old) nodes.old }
    requires there { All (λ id. IsSome (map.get nodes.old id)) ids.now }
    requires once { IsDistinct nat_eq ids.now }
    ensures placed { IsPlaced (E.meaning engine.new) (E.live engine.new) nodes.new }
    ensures nodes { nodes.new ≡ without_all ids.now nodes.old }
    ensures by_id { by_id_of (E.live engine.new) nodes.new
        ≡ without_all ids.now (by_id_of (E.live engine.old) nodes.old) }
    ensures statics { E.statics engine.new ≡ E.statics engine.old }
    ensures same { SameCode E.Engine engine.old engine.new }
{
    for id in ids {
        remove_one(engine, nodes, Id(*id));
    }
}

// Takes a node and its object away.
fn remove_one<E: Engine>(engine: &mut E, nodes: &mut Nodes, id: Id)
    requires placed { IsPlaced (E.meaning engine.old) (E.live engine.old) nodes.old }
    requires there { IsSome (map.get nodes.old id.0) }
    ensures placed { IsPlaced (E.meaning engine.new) (E.live engine.new) nodes.new }
    ensures nodes { nodes.new ≡ map.remove nodes.old id.0 }
    ensures by_id { by_id_of (E.live engine.new) nodes.new ≡ map.remove (by_id_of (E.live engine.old) nodes.old) id.0 }
    ensures statics { E.statics engine.new ≡ E.statics engine.old }
    ensures same { SameCode E.Engine engine.old engine.new }
{
    let Some(node) = nodes.remove(id) else {
        return;
    };
    engine.remove(node.place);
}
