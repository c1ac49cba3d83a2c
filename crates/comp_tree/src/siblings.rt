//! Names of siblings.
ghost use Rattle.std.specs.Prelude.{◌≡◌, ◌==◌, ◌&&◌, not, false, IfSome, IsSome, MatchResult, Some, None};
ghost use Rattle.std.specs.FinMap as map;
ghost use Rattle.std.specs.List.{list_any};
ghost use Rattle.std.specs.Option.{option_map_or};
ghost use Rattle.std.specs.Str.{bytes_eq};
ghost use Rattle.sed_engine.specs.Code.{Places};
ghost use Rattle.node_table.specs.Changed.{with_name};
ghost use Rattle.comp_tree.specs.Held.{by_id_of, children_in, name_in};
ghost use Rattle.comp_tree.specs.Refusals.{first_refusal, refusals_of_rename};

use node_table::{Nodes, Parts};
use sed_value::{Id, Name, Refusal};

/// The name that a component is to have, or why it may not.
pub fn new_name(nodes: &Nodes, id: Id, name: &[u8]) -> Result<Name, Refusal>
    ensures same { MatchResult result (λ new. new ≡ name.now) (λ _. Unit) }
    ensures live { MatchResult result (λ _. IsSome (map.get nodes.now id.0)) (λ _. Unit) }
    ensures first { (live : Places)
        → MatchResult result (λ _. first_refusal (refusals_of_rename (by_id_of live nodes.now) id.0 name.now) ≡ None)
        (λ refusal. first_refusal (refusals_of_rename (by_id_of live nodes.now) id.0 name.now) ≡ Some refusal) }
{
    let Some(node) = nodes.get(id) else {
        return Err(Refusal::NoComponent);
    };
    let Some(new) = Name::read(name) else {
        return Err(Refusal::BadName);
    };
    if has_sibling_named(nodes, node.parent, id, name) {
        return Err(Refusal::NameTaken);
    }
    if id.0 == 0 {
        return Err(Refusal::AppItself);
    }
    Ok(new)
}

/// Gives a node another name, and marks it.
pub fn rename_node(nodes: &mut Nodes, id: Id, name: Name)
    requires { IsSome (map.get nodes.old id.0) }
    ensures { IfSome (map.get nodes.old id.0) (λ node. nodes.new ≡ map.insert nodes.old id.0 (with_name name node)) }
{
    if let Some(mut node) = nodes.remove(id) {
        node.name = name;
        node.marks.touch(Parts::of_tree());
        nodes.insert(id, node);
    }
}

// Whether another child of the parent has the name.
fn has_sibling_named(nodes: &Nodes, parent: Option<Id>, id: Id, name: &[u8]) -> bool
    ensures { result ≡ option_map_or (λ parent.
        list_any (λ child. not (child == id.0) && bytes_eq (name_in nodes.now child) name.now)
        (children_in nodes.now parent.0)) parent false }
{
    match parent {
        Some(parent) => match nodes.get(parent) {
            Some(node) => is_other_named(nodes, node.children.as_slice(), id, name),
            None => false,
        },
        None => false,
    }
}

// Whether one of the children but this has the name.
fn is_other_named(nodes: &Nodes, children: &[u16], id: Id, name: &[u8]) -> bool
    ensures { result ≡ list_any (λ child. not (child == id.0) && bytes_eq (name_in nodes.now child) name.now)
        children.now }
{
    children.iter().any(|child| *child != id.0 && is_named(nodes, Id(*child), name))
}

/// Whether a node has the name.
pub fn is_named(nodes: &Nodes, id: Id, name: &[u8]) -> bool
    ensures { result ≡ bytes_eq (name_in nodes.now id.0) name.now }
{
    match nodes.get(id) {
        Some(node) => node.name.as_bytes() == name,
        None => name.is_empty(),
    }
}
