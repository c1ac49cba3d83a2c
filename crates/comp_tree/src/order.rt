//! The order of a component's children.
ghost use Rattle.std.specs.Prelude.{◌≡◌, ◌==◌, ◌<◌, ℕ, List, count_by, length, IfSome, IsSome, IsTrue, MatchOption};
ghost use Rattle.std.specs.Prelude.{MatchResult, Some, None};
ghost use Rattle.std.specs.FinMap as map;
ghost use Rattle.std.specs.List.{list_all};
ghost use Rattle.sed_engine.specs.Code.{Places};
ghost use Rattle.comp_tree.specs.Application.{most_children};
ghost use Rattle.node_table.specs.Changed.{with_children};
ghost use Rattle.comp_tree.specs.Held.{by_id_of};
ghost use Rattle.comp_tree.specs.Refusals.{are_each_once as each_once, first_refusal, ids_of, refusals_of_reorder};

use node_table::{Children, Nodes, Parts};
use sed_value::limits::MOST_CHILDREN;
use sed_value::{Id, Refusal};
use sed_wire::Reader;

/// The order in which a component's children are to stand, or why they may not.
pub fn new_order(nodes: &Nodes, id: Id, bytes: &[u8]) -> Result<Children, Refusal>
    ensures same { MatchResult result (λ ids. ids_of bytes.now ≡ Some ids) (λ _. Unit) }
    ensures live { MatchResult result (λ _. IsSome (map.get nodes.now id.0)) (λ _. Unit) }
    ensures each { MatchResult result (λ ids.
        IfSome (map.get nodes.now id.0) (λ node. IsTrue (each_once node.children ids))) (λ _. Unit) }
    ensures first { (live : Places)
        → MatchResult result (λ _. first_refusal (refusals_of_reorder (by_id_of live nodes.now) id.0 bytes.now) ≡ None)
        (λ refusal. first_refusal (refusals_of_reorder (by_id_of live nodes.now) id.0 bytes.now) ≡ Some refusal) }
{
    let Some(node) = nodes.get(id) else {
        return Err(Refusal::NoComponent);
    };
    let children = node.children.as_slice();
    let Some(ids) = read_ids(bytes) else {
        return Err(Refusal::NotTheChildren);
    };
    if !are_each_once(children, ids.as_slice()) {
        return Err(Refusal::NotTheChildren);
    }
    Ok(ids)
}

/// Gives a node other children.
pub fn reorder_node(nodes: &mut Nodes, id: Id, children: Children)
    requires { IsSome (map.get nodes.old id.0) }
    ensures { IfSome (map.get nodes.old id.0) (λ node. nodes.new
        ≡ map.insert nodes.old id.0 (with_children children node)) }
{
    if let Some(mut node) = nodes.remove(id) {
        node.children = children;
        node.marks.touch(Parts::of_tree());
        nodes.insert(id, node);
    }
}

// The ids that these bytes are, where there are no more of them than a component has children.
fn read_ids(bytes: &[u8]) -> Option<Children>
    ensures { MatchOption result ((ids : List ℕ) → ids_of bytes.now ≡ Some ids
        → most_children < length ids) (λ ids. ids_of bytes.now ≡ Some ids) }
{
    let mut reader = Reader::new(bytes);
    let mut ids = Children::new();
    while !reader.is_empty() {
        if ids.len() == MOST_CHILDREN {
            return None;
        }
        let Ok(id) = reader.u2() else {
            return None;
        };
        ids.push(id);
    }
    Some(ids)
}

// Whether they are these children, each once.
fn are_each_once(children: &[u16], ids: &[u16]) -> bool
    ensures { result ≡ each_once children.now ids.now }
{
    ids.len() == children.len() && stand_once(children, ids)
}

// Whether each of the children stands among the ids once.
fn stand_once(children: &[u16], ids: &[u16]) -> bool
    ensures { result ≡ list_all (λ child. count_by (λ id. id == child) ids.now == 1) children.now }
{
    children.iter().all(|child| count(ids, *child) == 1)
}

// How often an id stands there.
fn count(ids: &[u16], id: u16) -> usize
    ensures { result ≡ count_by (λ other. other == id) ids.now }
{
    ids.iter().filter(|other| **other == id).count()
}
