//! The ids of components, depth first: a parent before its children, and these in their order.
ghost use Rattle.std.specs.Prelude.{◌≡◌, ◌<◌, ◌≤◌, All, IsTrue, length};
ghost use Rattle.comp_tree.specs.Application.{is_live, most_components};
ghost use Rattle.comp_tree.specs.Order.{depth_first as all_of, subtree as subtree_of};

use crate::leaving::at_and_below;
use crate::tree::Tree;
use arrayvec::ArrayVec;
use sed_engine::Engine;
use sed_value::Id;

impl<E: Engine> Tree<E> {
    ghost use Rattle.comp_tree.specs.Held.{components_of};

    /// The ids of a component that is live and of those below it, depth first. They are live, and so below 4,096.
    pub fn subtree(&self, id: Id) -> ArrayVec<u16, 4096>
        requires { IsTrue (is_live (components_of E.Engine self.now).by_id id.0) }
        ensures ids { result.items ≡ subtree_of (components_of E.Engine self.now).by_id id.0 }
        ensures live { All (λ other. IsTrue (is_live (components_of E.Engine self.now).by_id other)) result.items }
        ensures bound { All (λ other. other < most_components) result.items }
        ensures few { length result.items ≤ most_components }
    {
        let _few = self.nodes.contains(id);
        at_and_below(&self.nodes, id)
    }

    /// The ids of all components, depth first.
    pub fn depth_first(&self) -> ArrayVec<u16, 4096>
        ensures ids { result.items ≡ all_of (components_of E.Engine self.now).by_id }
        ensures live { All (λ other. IsTrue (is_live (components_of E.Engine self.now).by_id other)) result.items }
        ensures few { length result.items ≤ most_components }
    {
        let _app = self.nodes.contains(Id(0));
        self.subtree(Id(0))
    }
}
