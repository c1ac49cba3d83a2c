//! Where a component may be added.
ghost use Rattle.std.specs.Prelude.{◌≡◌, ◌<◌, IsSome, MatchResult, length, Some, None};
ghost use Rattle.std.specs.FinMap as map;
ghost use Rattle.std.specs.List.{list_any};
ghost use Rattle.std.specs.Option.{option_map};
ghost use Rattle.std.specs.Str.{bytes_eq};
ghost use Rattle.sed_engine.specs.Code.{Meaning, Places};
ghost use Rattle.sed_typed.specs.Classes.{reached};
ghost use Rattle.comp_tree.specs.Allowed.{IsKindToAdd, IsNewChild, child_rows, kind_rows};
ghost use Rattle.comp_tree.specs.Held.{by_id_of, name_in, parent_in};
ghost use Rattle.comp_tree.specs.Order.{most_levels};
ghost use Rattle.comp_tree.specs.Refusals.{first_refusal};

use crate::siblings::is_named;
use node_table::Nodes;
use sed_typed::{Schema, TypeNo};
use sed_value::limits::{GREATEST_DEPTH, MOST_CHILDREN, MOST_COMPONENTS};
use sed_value::{Id, Name, Refusal};

/// The class of which a component is to be made, or why there may be none.
pub fn kind_to_add(schema: &Schema, kit: u8, number: u8) -> Result<TypeNo, Refusal>
    ensures { (m : Meaning) → m.schema ≡ schema.now
        → MatchResult result (λ kind. IsKindToAdd m kit number kind.0)
        (λ refusal. first_refusal (kind_rows m kit number) ≡ Some refusal) }
{
    let Some(kind) = schema.type_of(kit, number) else {
        return Err(Refusal::NoType);
    };
    if !schema.is_for_components(kind) {
        return Err(Refusal::NoType);
    }
    if schema.is_abstract(kind) {
        return Err(Refusal::AbstractType);
    }
    Ok(kind)
}

/// The name that a new child of a parent is to have, or why there may be none.
pub fn new_child(nodes: &Nodes, parent: Id, name: &[u8]) -> Result<Name, Refusal>
    requires { IsSome (map.get nodes.now parent.0) }
    ensures { (live : Places)
        → MatchResult result (λ new. IsNewChild (by_id_of live nodes.now) parent.0 name.now new)
        (λ refusal. first_refusal (child_rows (by_id_of live nodes.now) parent.0 name.now) ≡ Some refusal) }
{
    let Some(node) = nodes.get(parent) else {
        return Err(Refusal::NoComponent);
    };
    let Some(new) = Name::read(name) else {
        return Err(Refusal::BadName);
    };
    if has_child_named(nodes, node.children.as_slice(), name) {
        return Err(Refusal::NameTaken);
    }
    if node.children.len() == MOST_CHILDREN {
        return Err(Refusal::TooManyChildren);
    }
    if depth(nodes, parent) >= GREATEST_DEPTH {
        return Err(Refusal::TooDeep);
    }
    if nodes.len() >= MOST_COMPONENTS {
        return Err(Refusal::ComponentLimit);
    }
    Ok(new)
}

// Whether one of the children has the name.
fn has_child_named(nodes: &Nodes, children: &[u16], name: &[u8]) -> bool
    ensures { result ≡ list_any (λ child. bytes_eq (name_in nodes.now child) name.now) children.now }
{
    children
        .iter()
        .any(|child| is_named(nodes, Id(*child), name))
}

// How deep a node stands, the App at 0; no more than there may be levels.
fn depth(nodes: &Nodes, id: Id) -> usize
    ensures { result ≡ length (reached (parent_in nodes.now) most_levels (parent_in nodes.now id.0)) }
{
    let mut at = parent_of(nodes, id);
    for depth in 0..GREATEST_DEPTH + 1 {
        let Some(up) = at else {
            return depth;
        };
        at = parent_of(nodes, up);
    }
    GREATEST_DEPTH + 1
}

/// The parent of a node.
pub fn parent_of(nodes: &Nodes, id: Id) -> Option<Id>
    ensures { option_map (λ up. up.0) result ≡ parent_in nodes.now id.0 }
{
    match nodes.get(id) {
        Some(node) => node.parent,
        None => None,
    }
}
