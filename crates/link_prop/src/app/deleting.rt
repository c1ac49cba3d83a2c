//! Components that go, and the links at them.
ghost use Rattle.std.specs.Prelude.{◌≡◌, ◌<◌, All, OnOk, OnErr, MatchResult, Some, None};
ghost use Rattle.sub_table.specs.Links.{without_links_at};
ghost use Rattle.sub_table.specs.Marks.{AreMarked};
ghost use Rattle.comp_tree.specs.Application.{most_components};
ghost use Rattle.comp_tree.specs.Edits.{after_delete};
ghost use Rattle.comp_tree.specs.Order.{subtree as subtree_of};
ghost use Rattle.comp_tree.specs.Refusals.{first_refusal, refusals_of_delete};
ghost use Rattle.comp_tree.specs.SameCode.{SameCode};
ghost use Rattle.link_prop.specs.Marks.{KeepsAppMarks, links_with, tree_above};

use crate::app::App;
use crate::app::marking::mark_linked;
use crate::ends::is_live;
use comp_tree::Turns;
use sed_engine::Engine;
use sed_value::limits::MOST_COMPONENTS;
use sed_value::{Id, Refusal};
use sub_table::laws::links_taken_out_are_gone;

impl<E: Engine> App<E> {
    ghost use Rattle.comp_tree.specs.Held.{components_of};

    /// Deletes a component and those below it, and each link at one of them. First the `stop` of each is called, depth
    /// first, with so many turns at a moment in nanoseconds; a trap of it is no refusal. The first refusal of its row
    /// comes exactly where one holds, and then all is as it was. It never wants memory.
    pub fn delete(&mut self, id: Id, turns: Turns, ticks: i64) -> Result<(), Refusal>
        ensures done { OnOk result (components_of E.Engine self.new.tree
            ≡ after_delete (E.meaning self.old.tree.engine) (components_of E.Engine self.old.tree) id.0 turns ticks) }
        ensures links { OnOk result (self.new.links
            ≡ without_links_at (subtree_of (components_of E.Engine self.old.tree).by_id id.0) self.old.links) }
        ensures refused { MatchResult result (λ _.
            first_refusal (refusals_of_delete (components_of E.Engine self.old.tree).by_id id.0) ≡ None)
            (λ refusal. first_refusal (refusals_of_delete (components_of E.Engine self.old.tree).by_id id.0)
            ≡ Some refusal) }
        ensures stays { OnErr result (self.new ≡ self.old) }
        ensures marks { KeepsAppMarks E.Engine (tree_above (components_of E.Engine self.old.tree).by_id id.0)
            (links_with (subtree_of (components_of E.Engine self.old.tree).by_id id.0) self.old.links)
            self.old self.new }
        ensures same { SameCode E.Engine self.old.tree.engine self.new.tree.engine }
    {
        if !is_live(&self.tree, id) {
            return Err(Refusal::NoComponent);
        }
        let gone = self.tree.subtree(id);
        let leaving = marks_of(gone.as_slice());
        links_taken_out_are_gone();
        match self.tree.delete(id, turns, ticks) {
            Ok(()) => {
                mark_linked(&mut self.marks, &self.links, &leaving);
                self.links.remove_at(&leaving);
                Ok(())
            }
            Err(refusal) => Err(refusal),
        }
    }
}

// A mark for each id that there may be; these ids alone have theirs set.
fn marks_of(ids: &[u16]) -> [bool; MOST_COMPONENTS]
    requires { All (λ id. id < most_components) ids.now }
    ensures { AreMarked result ids.now }
{
    let mut marks = [false; MOST_COMPONENTS];
    for id in ids {
        marks[usize::from(*id)] = true;
    }
    marks
}
