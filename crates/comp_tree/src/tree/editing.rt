//! Names, order and values of components that are live.
ghost use Rattle.std.specs.Prelude.{◌≡◌, ℕ, not, IsTrue, IsSomeAnd, OnOk, OnErr, IfOk, MatchResult, Some, None};
ghost use Rattle.std.specs.FinMap as map;
ghost use Rattle.sed_engine.specs.Code.{may_call, may_store, slot_type};
ghost use Rattle.sed_wire.specs.Spelling.{can_be_held};
ghost use Rattle.comp_tree.specs.Edit.{is_save};
ghost use Rattle.comp_tree.specs.Edits.{after_invoke, after_rename, after_reorder, after_write, first_of};
ghost use Rattle.comp_tree.specs.Links.{has_changed, store as stored};
ghost use Rattle.comp_tree.specs.Marks.{KeepsMarks, marks_at, tree_at, values_at};
ghost use Rattle.comp_tree.specs.Refusals.{first_refusal, invoke_types, refusals_of_invoke, refusals_of_read};
ghost use Rattle.comp_tree.specs.Refusals.{refusals_of_rename, refusals_of_reorder, refusals_of_write, write_types};
ghost use Rattle.comp_tree.specs.SameCode.{SameCode};
ghost use Rattle.comp_tree.specs.Values.{taken};
ghost use Rattle.sed_engine.specs.declared.call.Root.TheVariants.{Action as ActionRoot};

use crate::order::{new_order, reorder_node};
use crate::siblings::{new_name, rename_node};
use crate::tree::Tree;
use crate::turns::Turns;
use node_table::{Parts, are_same, form_of, one_argument, one_value};
use sed_engine::{CallEnd, Callback, Engine, Root};
use sed_typed::{SlotForm, SlotNo};
use sed_value::{Id, Refusal, SlotBuf, SlotType, Value};

impl<E: Engine> Tree<E> {
    ghost use Rattle.comp_tree.specs.Held.{components_of};

    /// Gives a component another name. The first refusal of its row comes exactly where one holds,
    /// and then all is as it was.
    pub fn rename(&mut self, id: Id, name: &[u8]) -> Result<(), Refusal>
        ensures done { OnOk result (components_of E.Engine self.new
            ≡ after_rename (components_of E.Engine self.old) id.0 name.now) }
        ensures marks { KeepsMarks E.Engine (tree_at id.0) self.old self.new }
        ensures refused { MatchResult result (λ _.
            first_refusal (refusals_of_rename (components_of E.Engine self.old).by_id id.0 name.now) ≡ None)
            (λ refusal. first_refusal (refusals_of_rename (components_of E.Engine self.old).by_id id.0 name.now)
            ≡ Some refusal) }
        ensures stays { OnErr result (self.new ≡ self.old) }
        ensures same { SameCode E.Engine self.old.engine self.new.engine }
    {
        let new = match new_name(&self.nodes, id, name) {
            Ok(new) => new,
            Err(refusal) => return Err(refusal),
        };
        rename_node(&mut self.nodes, id, new);
        Ok(())
    }

    /// Puts a component's children in another order, their ids in two bytes each. The first refusal
    /// of its row comes exactly where one holds, and then all is as it was.
    pub fn reorder(&mut self, id: Id, children: &[u8]) -> Result<(), Refusal>
        ensures done { OnOk result (components_of E.Engine self.new
            ≡ after_reorder (components_of E.Engine self.old) id.0 children.now) }
        ensures marks { KeepsMarks E.Engine (tree_at id.0) self.old self.new }
        ensures refused { MatchResult result (λ _.
            first_refusal (refusals_of_reorder (components_of E.Engine self.old).by_id id.0 children.now) ≡ None)
            (λ refusal. first_refusal (refusals_of_reorder (components_of E.Engine self.old).by_id id.0 children.now)
            ≡ Some refusal) }
        ensures stays { OnErr result (self.new ≡ self.old) }
        ensures same { SameCode E.Engine self.old.engine self.new.engine }
    {
        let ids = match new_order(&self.nodes, id, children) {
            Ok(ids) => ids,
            Err(refusal) => return Err(refusal),
        };
        reorder_node(&mut self.nodes, id, ids);
        Ok(())
    }

    /// Writes a property, and calls `changed` where the stored value differs from the one before,
    /// with so many turns at a moment in nanoseconds. A trap of it is no refusal. The first refusal
    /// of its row comes exactly where one holds, and then all is as it was.
    pub fn write(
        &mut self,
        id: Id,
        slot: u8,
        value: &[u8],
        turns: Turns,
        ticks: i64,
    ) -> Result<(), Refusal>
        ensures done { OnOk result (components_of E.Engine self.new
            ≡ after_write (E.meaning self.old.engine) (components_of E.Engine self.old)
            id.0 slot value.now turns ticks) }
        ensures marks { KeepsMarks E.Engine (values_at id.0) self.old self.new }
        ensures refused { MatchResult result (λ _.
            first_refusal (refusals_of_write (E.meaning self.old.engine)
            (components_of E.Engine self.old).by_id id.0 slot value.now) ≡ None)
            (λ refusal. first_refusal (refusals_of_write (E.meaning self.old.engine)
            (components_of E.Engine self.old).by_id id.0 slot value.now) ≡ Some refusal) }
        ensures stays { OnErr result (self.new ≡ self.old) }
        ensures same { SameCode E.Engine self.old.engine self.new.engine }
    {
        let mut holder = SlotBuf::new();
        match self.value_to_write(id, slot, value) {
            Ok(value) => holder.put(value),
            Err(refusal) => return Err(refusal),
        }
        if self.assign(id, slot, &holder) {
            let _end = self.callback(id, Callback::Changed, slot, turns, ticks);
        }
        Ok(())
    }

    /// Runs an action with its argument, with so many turns at a moment in nanoseconds. A trap
    /// becomes the component's fault, and is no refusal. The first refusal of its row comes exactly
    /// where one holds, and then all is as it was. The App's `save` is not asked for here.
    pub fn invoke(
        &mut self,
        id: Id,
        slot: u8,
        arg: &[u8],
        turns: Turns,
        ticks: i64,
    ) -> Result<CallEnd, Refusal>
        requires { IsTrue (not (is_save id.0 slot)) }
        ensures done { OnOk result (components_of E.Engine self.new
            ≡ (after_invoke (E.meaning self.old.engine) (components_of E.Engine self.old)
            id.0 (record { 0 = slot }) arg.now turns ticks).left) }
        ensures end { IfOk result (λ end.
            end ≡ (after_invoke (E.meaning self.old.engine) (components_of E.Engine self.old)
            id.0 (record { 0 = slot }) arg.now turns ticks).end) }
        ensures marks { KeepsMarks E.Engine (values_at id.0) self.old self.new }
        ensures refused { MatchResult result (λ _.
            first_refusal (refusals_of_invoke (E.meaning self.old.engine)
            (components_of E.Engine self.old).by_id id.0 slot arg.now) ≡ None)
            (λ refusal. first_refusal (refusals_of_invoke (E.meaning self.old.engine)
            (components_of E.Engine self.old).by_id id.0 slot arg.now) ≡ Some refusal) }
        ensures stays { OnErr result (self.new ≡ self.old) }
        ensures same { SameCode E.Engine self.old.engine self.new.engine }
    {
        let mut holder = SlotBuf::new();
        match self.argument_for(id, slot, arg) {
            Ok(value) => holder.put(value),
            Err(refusal) => return Err(refusal),
        }
        Ok(self.call(id, Root::Action(SlotNo(slot)), &holder, turns, ticks))
    }

    /// Whether an action may be invoked with this argument: the first refusal of its row comes exactly where one holds.
    /// Of the App's `save` it may be asked too.
    pub fn check_invoke(&self, id: Id, slot: u8, arg: &[u8]) -> Result<(), Refusal>
        ensures { MatchResult result (λ _.
            first_refusal (refusals_of_invoke (E.meaning self.now.engine)
            (components_of E.Engine self.now).by_id id.0 slot arg.now) ≡ None)
            (λ refusal. first_refusal (refusals_of_invoke (E.meaning self.now.engine)
            (components_of E.Engine self.now).by_id id.0 slot arg.now) ≡ Some refusal) }
    {
        match self.argument_for(id, slot, arg) {
            Ok(_value) => Ok(()),
            Err(refusal) => Err(refusal),
        }
    }

    // The value that a write gives, or why it may not.
    fn value_to_write(&self, id: Id, slot: u8, bytes: &[u8]) -> Result<Value, Refusal>
        ensures taken { MatchResult result (λ value.
            first_of (taken (write_types (E.meaning self.now.engine) (components_of E.Engine self.now).by_id id.0 slot)
            bytes.now) ≡ value) (λ _. Unit) }
        ensures may { MatchResult result (λ value.
            IsSomeAnd (map.get (components_of E.Engine self.now).by_id id.0)
            (λ c. IsTrue (may_store (E.meaning self.now.engine) c.class slot value))) (λ _. Unit) }
        ensures refused { MatchResult result (λ _.
            first_refusal (refusals_of_write (E.meaning self.now.engine)
            (components_of E.Engine self.now).by_id id.0 slot bytes.now) ≡ None)
            (λ refusal. first_refusal (refusals_of_write (E.meaning self.now.engine)
            (components_of E.Engine self.now).by_id id.0 slot bytes.now) ≡ Some refusal) }
    {
        let kind = match self.type_of_property(id, slot) {
            Ok(kind) => kind,
            Err(refusal) => return Err(refusal),
        };
        one_value(kind, bytes)
    }

    // The type of a component's property.
    fn type_of_property(&self, id: Id, slot: u8) -> Result<SlotType, Refusal>
        ensures found { MatchResult result (λ kind.
            IsSomeAnd (map.get (components_of E.Engine self.now).by_id id.0)
            (λ c. slot_type (E.meaning self.now.engine) c.class slot ≡ Some kind)) (λ _. Unit) }
        ensures held { MatchResult result (λ kind. IsTrue (can_be_held kind)) (λ _. Unit) }
        ensures refused { MatchResult result (λ _.
            first_refusal (refusals_of_read (E.meaning self.now.engine) (components_of E.Engine self.now).by_id
            id.0 slot) ≡ None)
            (λ refusal. first_refusal (refusals_of_read (E.meaning self.now.engine)
            (components_of E.Engine self.now).by_id id.0 slot) ≡ Some refusal) }
    {
        let Some(node) = self.nodes.get(id) else {
            return Err(Refusal::NoComponent);
        };
        match form_of(self.engine.schema(), node.kind, slot) {
            Some(SlotForm::Prop(kind)) => Ok(kind),
            Some(SlotForm::Action(_)) => Err(Refusal::WrongKindOfSlot),
            None => Err(Refusal::NoSlot),
        }
    }

    // The argument that an invoke gives, or why it may not.
    fn argument_for(&self, id: Id, slot: u8, bytes: &[u8]) -> Result<Value, Refusal>
        ensures taken { MatchResult result (λ value.
            first_of (taken (invoke_types (E.meaning self.now.engine) (components_of E.Engine self.now).by_id id.0 slot)
            bytes.now) ≡ value) (λ _. Unit) }
        ensures may { MatchResult result (λ value.
            IsSomeAnd (map.get (components_of E.Engine self.now).by_id id.0)
            (λ c. IsTrue (may_call (E.meaning self.now.engine) c.class (ActionRoot (record { 0 = slot })) value)))
            (λ _. Unit) }
        ensures refused { MatchResult result (λ _.
            first_refusal (refusals_of_invoke (E.meaning self.now.engine)
            (components_of E.Engine self.now).by_id id.0 slot bytes.now) ≡ None)
            (λ refusal. first_refusal (refusals_of_invoke (E.meaning self.now.engine)
            (components_of E.Engine self.now).by_id id.0 slot bytes.now) ≡ Some refusal) }
    {
        let Some(node) = self.nodes.get(id) else {
            return Err(Refusal::NoComponent);
        };
        let arg = match form_of(self.engine.schema(), node.kind, slot) {
            Some(SlotForm::Action(arg)) => arg,
            Some(SlotForm::Prop(_)) => return Err(Refusal::WrongKindOfSlot),
            None => return Err(Refusal::NoSlot),
        };
        let value = match one_argument(arg, bytes) {
            Ok(value) => value,
            Err(refusal) => return Err(refusal),
        };
        if node.fault != 0 {
            return Err(Refusal::Faulted);
        }
        Ok(value)
    }

    // Stores a value in a property of a component, as an assignment does, and says whether what is
    // kept differs from before; the component's values are marked.
    pub(super) fn assign(&mut self, id: Id, slot: u8, value: &SlotBuf) -> bool
        requires { IsSomeAnd (map.get (components_of E.Engine self.old).by_id id.0)
            (λ c. IsTrue (may_store (E.meaning self.old.engine) c.class slot value.now)) }
        ensures stored { components_of E.Engine self.new
            ≡ stored (E.meaning self.old.engine) (components_of E.Engine self.old) id.0 slot value.now }
        ensures changed { result ≡ has_changed (E.meaning self.old.engine) (components_of E.Engine self.old)
            (stored (E.meaning self.old.engine) (components_of E.Engine self.old) id.0 slot value.now) id.0 slot }
        ensures marks { KeepsMarks E.Engine (values_at id.0) self.old self.new }
        ensures same { SameCode E.Engine self.old.engine self.new.engine }
    {
        let changed = self.store(id, slot, value);
        self.mark(id, Parts::of_values());
        changed
    }

    // The same, of which the marks say nothing yet.
    fn store(&mut self, id: Id, slot: u8, value: &SlotBuf) -> bool
        requires { IsSomeAnd (map.get (components_of E.Engine self.old).by_id id.0)
            (λ c. IsTrue (may_store (E.meaning self.old.engine) c.class slot value.now)) }
        ensures stored { components_of E.Engine self.new
            ≡ stored (E.meaning self.old.engine) (components_of E.Engine self.old) id.0 slot value.now }
        ensures changed { result ≡ has_changed (E.meaning self.old.engine) (components_of E.Engine self.old)
            (stored (E.meaning self.old.engine) (components_of E.Engine self.old) id.0 slot value.now) id.0 slot }
        ensures marks { (other at : ℕ) → marks_at self.new other at ≡ marks_at self.old other at }
        ensures same { SameCode E.Engine self.old.engine self.new.engine }
    {
        let Some(node) = self.nodes.get(id) else {
            return false;
        };
        let place = node.place;
        let mut before = SlotBuf::new();
        let mut after = SlotBuf::new();
        self.engine.get(place, SlotNo(slot), &mut before);
        self.engine.set(place, SlotNo(slot), value);
        self.engine.get(place, SlotNo(slot), &mut after);
        !are_same(before.value(), after.value())
    }
}
