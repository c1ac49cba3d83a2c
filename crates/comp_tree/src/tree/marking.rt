//! Marks: which parts of a component may have changed since they were settled.
ghost use Rattle.std.specs.Prelude.{◌≡◌, ◌==◌, ◌&&◌, ◌<◌, ℕ, IsSome, if◌then◌else◌};
ghost use Rattle.std.specs.FinMap as map;
ghost use Rattle.comp_tree.specs.Marks.{marks_at, mask_of, only, parts_in, with_parts, without_parts};
ghost use Rattle.comp_tree.specs.SameCode.{SameCode};

use crate::tree::Tree;
use node_table::Parts;
use sed_engine::Engine;
use sed_value::Id;

impl<E: Engine> Tree<E> {
    ghost use Rattle.comp_tree.specs.Held.{components_of};

    /// Which parts of a component may have changed since they were settled for a session place, 0 to
    /// 15: a bit each for `t`, `c` and `r`, 1, 2 and 4. A part whose bit is clear has the bytes that
    /// it had when it was last settled for that place.
    pub fn touched(&self, id: Id, place: u8) -> u8
        requires live { IsSome (map.get (components_of E.Engine self.now).by_id id.0) }
        requires place { place < 16 }
        ensures { result ≡ mask_of (marks_at self.now id.0 place) }
    {
        match self.nodes.get(id) {
            Some(node) => node.marks.at(place).mask(),
            None => Parts::all().mask(),
        }
    }

    /// Clears the bits of a mask for a session place, 0 to 15, and changes nothing else. Bits above 4
    /// say nothing here.
    pub fn settle(&mut self, id: Id, place: u8, mask: u8)
        requires live { IsSome (map.get (components_of E.Engine self.old).by_id id.0) }
        requires place { place < 16 }
        ensures marks { (other at : ℕ) → marks_at self.new other at
            ≡ (if (other == id.0) && (at == place) then without_parts (parts_in mask) (marks_at self.old other at)
            else marks_at self.old other at) }
        ensures stays { components_of E.Engine self.new ≡ components_of E.Engine self.old }
        ensures same { SameCode E.Engine self.old.engine self.new.engine }
    {
        let Some(node) = self.nodes.get(id) else {
            return;
        };
        let _marks = node.marks.at(place);
        self.nodes.settle(id, place, Parts::of_mask(mask));
    }

    // Marks these parts of a component for every place.
    pub(super) fn mark(&mut self, id: Id, parts: Parts)
        ensures marks { (other at : ℕ) → marks_at self.new other at
            ≡ with_parts (only id.0 parts other) (marks_at self.old other at) }
        ensures stays { components_of E.Engine self.new ≡ components_of E.Engine self.old }
        ensures same { SameCode E.Engine self.old.engine self.new.engine }
    {
        if self.nodes.contains(id) {
            self.nodes.touch(id, parts);
        }
    }
}
