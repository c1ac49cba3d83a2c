//! Laws of trees and of whole applications. Each is the contract of a function that does nothing.
ghost use Rattle.std.specs.Prelude.{◌≡◌, ◌↔◌, ◌≤◌, ℕ, IsTrue, nat_eq, Some, None};
ghost use Rattle.std.specs.List.{Contains, IsDistinct};
ghost use Rattle.sed_engine.specs.Code.{Meaning};
ghost use Rattle.comp_tree.specs.Application.{Application, ById, children_of, is_live, parent_of};
ghost use Rattle.comp_tree.specs.Limits.{limit_passed};
ghost use Rattle.comp_tree.specs.Order.{depth, depth_first};
ghost use Rattle.comp_tree.specs.Shape.{IsTree, up_by};
ghost use Rattle.comp_tree.specs.Whole.{IsFormed, Whole};

/// In a tree the depth-first list has each id that is live, once, and nothing else.
pub fn trees_are_walked_once()
    ensures reached { (all : ById) → IsTree (is_live all) (parent_of all) (children_of all)
        → (id : ℕ) → IsTrue (is_live all id) ↔ Contains (depth_first all) id }
    ensures once { (all : ById) → IsTree (is_live all) (parent_of all) (children_of all)
        → IsDistinct nat_eq (depth_first all) }
{}

/// Where whatever stands among the children of a component names it as its parent, what the depth-first list has comes
/// up to the App in as many steps as it stands deep, which are at most 16.
pub fn walked_ids_are_shallow()
    ensures { (all : ById) → parent_of all 0 ≡ None
        → ((id up : ℕ) → Contains (children_of all up) id → parent_of all id ≡ Some up)
        → (id : ℕ) → Contains (depth_first all) id
        → (n : ℕ) × (n ≤ 16) × (up_by (parent_of all) n id ≡ Some 0) × (depth all id ≡ n) }
{}

/// An application that is formed and passes no limit is a tree of at most 16 levels below the App, and it is whole.
pub fn what_passes_no_limit_is_whole()
    ensures tree { (m : Meaning) (a : Application) → IsFormed m a → limit_passed m a ≡ None
        → IsTree (is_live a.components.by_id) (parent_of a.components.by_id) (children_of a.components.by_id) }
    ensures whole { (m : Meaning) (a : Application) → IsFormed m a → limit_passed m a ≡ None → 1 ≤ a.components.limit
        → a.components.limit ≤ 4194304 → Whole m a }
{}

/// An application that is whole passes no limit, and it is a tree: so its depth-first list has each live id once.
pub fn what_is_whole_passes_no_limit()
    ensures within { (m : Meaning) (a : Application) → Whole m a → limit_passed m a ≡ None }
    ensures tree { (m : Meaning) (a : Application) → Whole m a
        → IsTree (is_live a.components.by_id) (parent_of a.components.by_id) (children_of a.components.by_id) }
{}
