//! The ids of an application, and how they stand among their siblings.
ghost use Rattle.std.specs.Prelude.{ℕ, ◌<◌, ◌≤◌, ◌≡◌, ◌==◌, false, IsTrue, length, slice_get};
ghost use Rattle.std.specs.Option.{option_map, option_map_or};
ghost use Rattle.comp_tree.specs.Application.{children_of, is_live, most_children, most_components};
ghost use Rattle.comp_tree.specs.Held.{components_of};
ghost use Rattle.app_file.specs.Rows.{behind, sibling_behind};

use comp_tree::Tree;
use sed_engine::Engine;
use sed_value::Id;

/// A number that is above each live id: at most 4,096.
pub fn end_of_ids<E: Engine>(tree: &Tree<E>) -> u16
    ensures few { result ≤ most_components }
    ensures above { (id : ℕ) → IsTrue (is_live (components_of E.Engine tree.now).by_id id) → id < result }
{
    let greatest = tree.greatest();
    match tree.find(greatest) {
        Some(_) => greatest.0 + 1,
        None => unreachable!(),
    }
}

/// The sibling behind a component that has this parent, where there is one. It is sought from the first child of the
/// parent on, of at most 200.
pub fn sibling_of<E: Engine>(tree: &Tree<E>, id: Id, parent: Option<Id>) -> Option<Id>
    ensures { option_map (λ (i : _). i.0) result
        ≡ sibling_behind (children_of (components_of E.Engine tree.now).by_id)
        id.0 (option_map (λ (i : _). i.0) parent) }
{
    match parent {
        Some(up) => next_child(tree, up, id),
        None => None,
    }
}

// The child of a component behind the one with this id, where there is one.
fn next_child<E: Engine>(tree: &Tree<E>, up: Id, id: Id) -> Option<Id>
    ensures { option_map (λ (i : _). i.0) result
        ≡ behind id.0 (children_of (components_of E.Engine tree.now).by_id up.0) }
{
    let count = child_count(tree, up);
    for n in 0..count {
        if is_child(tree, up, n, id) {
            return tree.child(up, n + 1);
        }
    }
    None
}

// How many children a component has: none where it is not live.
fn child_count<E: Engine>(tree: &Tree<E>, id: Id) -> u8
    ensures count { result ≡ length (children_of (components_of E.Engine tree.now).by_id id.0) }
    ensures few { result ≤ most_children }
{
    match tree.find(id) {
        Some(entry) => entry.children,
        None => 0,
    }
}

// Whether the n-th child of a component has this id.
fn is_child<E: Engine>(tree: &Tree<E>, up: Id, n: u8, id: Id) -> bool
    ensures { result ≡ option_map_or (λ child. child == id.0)
        (slice_get (children_of (components_of E.Engine tree.now).by_id up.0) n) false }
{
    match tree.child(up, n) {
        Some(child) => child.0 == id.0,
        None => false,
    }
}
