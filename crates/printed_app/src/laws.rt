//! Laws of printed applications. Each is the contract of a function that does nothing.
ghost use Rattle.std.specs.Prelude.{◌≡◌, ◌++◌, ◌<◌, ℕ, Some, codes};
ghost use Rattle.comp_tree.specs.Application.{ById, children_of, is_live, name_of, parent_of};
ghost use Rattle.comp_tree.specs.Shape.{IsTree};
ghost use Rattle.printed_app.specs.Application.{path_text};

/// In a tree the path of the App is `/`, that of a child of the App is `/` and its name, and that of any other
/// component is the path of its parent, `/` and its name.
pub fn paths_lead_down()
    ensures app { (all : ById) → path_text all 0 ≡ codes "/" }
    ensures child { (all : ById) → IsTree (is_live all) (parent_of all) (children_of all)
        → (id : ℕ) → parent_of all id ≡ Some 0 → path_text all id ≡ codes "/" ++ name_of all id }
    ensures below { (all : ById) → IsTree (is_live all) (parent_of all) (children_of all)
        → (id up : ℕ) → parent_of all id ≡ Some up → 0 < up
        → path_text all id ≡ path_text all up ++ (codes "/" ++ name_of all id) }
{}
