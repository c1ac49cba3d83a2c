//! Values that are copied from property to property.
ghost use Rattle.std.specs.Prelude.{◌≡◌, IsTrue};
ghost use Rattle.sub_table.specs.Link.{Link};
ghost use Rattle.comp_tree.specs.Application.{type_at};
ghost use Rattle.comp_tree.specs.Marks.{KeepsMarks, values_at};
ghost use Rattle.comp_tree.specs.Links.{copy as copied, go_together_if_there, has_changed};
ghost use Rattle.comp_tree.specs.SameCode.{SameCode};

use crate::tree::Tree;
use sed_engine::Engine;
use sed_value::{Id, SlotBuf};

impl<E: Engine> Tree<E> {
    ghost use Rattle.comp_tree.specs.Held.{components_of};

    /// Stores the value of a property in another one, as an assignment does, and says whether what is kept there
    /// differs from before. Both are properties of live components whose types go together; nothing else changes.
    pub fn copy(&mut self, from: Id, from_slot: u8, to: Id, to_slot: u8) -> bool
        requires { IsTrue (go_together_if_there
            (type_at (E.meaning self.old.engine) (components_of E.Engine self.old).by_id from.0 from_slot)
            (type_at (E.meaning self.old.engine) (components_of E.Engine self.old).by_id to.0 to_slot)) }
        ensures copied { components_of E.Engine self.new
            ≡ copied (E.meaning self.old.engine) (components_of E.Engine self.old) (let l : Link =
            record { from = from.0; from_slot = from_slot; to = to.0; to_slot = to_slot } in l) }
        ensures changed { result ≡ has_changed (E.meaning self.old.engine)
            (components_of E.Engine self.old) (components_of E.Engine self.new) to.0 to_slot }
        ensures marks { KeepsMarks E.Engine (values_at to.0) self.old self.new }
        ensures same { SameCode E.Engine self.old.engine self.new.engine }
    {
        let mut value = SlotBuf::new();
        match self.get(from, from_slot, &mut value) {
            Ok(()) => {
                let _whole = self.engine.schema();
                self.assign(to, to_slot, &value)
            }
            Err(_) => false,
        }
    }
}
