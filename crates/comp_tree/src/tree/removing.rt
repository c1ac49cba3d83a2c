//! Components that go.
ghost use Rattle.std.specs.Prelude.{◌≡◌, ◌≢◌, IsTrue, All, OnOk, OnErr, MatchResult, Some, None};
ghost use Rattle.comp_tree.specs.Application.{is_live, with_components};
ghost use Rattle.comp_tree.specs.Calls.{call_each};
ghost use Rattle.comp_tree.specs.Edits.{after_delete, removed};
ghost use Rattle.comp_tree.specs.Marks.{KeepsMarks, tree_above, values_of_all};
ghost use Rattle.comp_tree.specs.Order.{subtree as subtree_of};
ghost use Rattle.comp_tree.specs.Refusals.{first_refusal, refusals_of_delete};
ghost use Rattle.comp_tree.specs.SameCode.{SameCode};

use crate::joining::parent_of;
use crate::leaving::{at_and_below, children_without, remove_each};
use crate::order::reorder_node;
use crate::tree::Tree;
use crate::turns::Turns;
use sed_engine::{Callback, Engine};
use sed_value::{Id, Refusal};

impl<E: Engine> Tree<E> {
    ghost use Rattle.comp_tree.specs.Held.{components_of};

    /// Deletes a component and those below it. First the `stop` of each is called, depth first, with
    /// so many turns at a moment in nanoseconds; a trap of it is no refusal. Then they go: the
    /// parent has one child less, the others keep their order.
    ///
    /// The first refusal of its row comes exactly where one holds, and then the tree is as it was.
    pub fn delete(&mut self, id: Id, turns: Turns, ticks: i64) -> Result<(), Refusal>
        ensures done { OnOk result (components_of E.Engine self.new
            ≡ after_delete (E.meaning self.old.engine) (components_of E.Engine self.old) id.0 turns ticks) }
        ensures refused { MatchResult result (λ _.
            first_refusal (refusals_of_delete (components_of E.Engine self.old).by_id id.0) ≡ None)
            (λ refusal. first_refusal (refusals_of_delete (components_of E.Engine self.old).by_id id.0)
            ≡ Some refusal) }
        ensures marks { KeepsMarks E.Engine (tree_above (components_of E.Engine self.old).by_id id.0)
            self.old self.new }
        ensures stays { OnErr result (self.new ≡ self.old) }
        ensures same { SameCode E.Engine self.old.engine self.new.engine }
    {
        if !self.nodes.contains(id) {
            return Err(Refusal::NoComponent);
        }
        if id.0 == 0 {
            return Err(Refusal::AppItself);
        }
        let ids = at_and_below(&self.nodes, id);
        self.stop_each(ids.as_slice(), turns, ticks);
        self.cut(id, ids.as_slice());
        Ok(())
    }

    // Calls the `stop` of each of these.
    fn stop_each(&mut self, ids: &[u16], turns: Turns, ticks: i64)
        requires { All (λ id. IsTrue (is_live (components_of E.Engine self.old).by_id id)) ids.now }
        ensures left { components_of E.Engine self.new
            ≡ (call_each (E.meaning self.old.engine) Callback.Stop turns
            ticks (components_of E.Engine self.old) ids.now).left }
        ensures marks { KeepsMarks E.Engine (values_of_all ids.now) self.old self.new }
        ensures same { SameCode E.Engine self.old.engine self.new.engine }
    {
        for id in ids {
            let _end = self.callback(Id(*id), Callback::Stop, 0, turns, ticks);
        }
    }

    // Takes a component and those below it away, of which these are the ids.
    fn cut(&mut self, id: Id, ids: &[u16])
        requires live { IsTrue (is_live (components_of E.Engine self.old).by_id id.0) }
        requires below { id.0 ≢ 0 }
        requires all { ids.now ≡ subtree_of (components_of E.Engine self.old).by_id id.0 }
        ensures marks { KeepsMarks E.Engine (tree_above (components_of E.Engine self.old).by_id id.0)
            self.old self.new }
        ensures gone { components_of E.Engine self.new
            ≡ with_components (components_of E.Engine self.old) (removed (components_of E.Engine self.old).by_id id.0) }
        ensures same { SameCode E.Engine self.old.engine self.new.engine }
    {
        let Some(parent) = parent_of(&self.nodes, id) else {
            return;
        };
        let Some(above) = self.nodes.get(parent) else {
            return;
        };
        let left = children_without(above.children.as_slice(), id);
        reorder_node(&mut self.nodes, parent, left);
        remove_each(&mut self.engine, &mut self.nodes, ids);
    }
}
