//! Calls that are the tree's own. Each leaves the links as they were.
ghost use Rattle.std.specs.Prelude.{◌≡◌, ◌≢◌, ◌||◌, ℕ, not, true, false, IsTrue, IsSome, IfErr, IfOk, OnOk, OnErr};
ghost use Rattle.std.specs.Prelude.{MatchResult, Some, None, Err};
ghost use Rattle.std.specs.FinMap as map;
ghost use Rattle.comp_tree.specs.Adding.{after_new, refusals_of_new};
ghost use Rattle.comp_tree.specs.Application.{fault_of};
ghost use Rattle.comp_tree.specs.Calls.{Call, execute_at};
ghost use Rattle.sed_value.specs.declared.refusal.Refusal.TheVariants.{OutOfMemory};
ghost use Rattle.comp_tree.specs.Edit.{is_save};
ghost use Rattle.comp_tree.specs.Edits.{after_clear, after_invoke, after_rename, after_reorder, after_write};
ghost use Rattle.comp_tree.specs.Order.{least_free};
ghost use Rattle.comp_tree.specs.Refusals.{first_refusal, refusals_of_clear, refusals_of_invoke};
ghost use Rattle.comp_tree.specs.Refusals.{refusals_of_rename, refusals_of_reorder, refusals_of_write};
ghost use Rattle.comp_tree.specs.SameCode.{SameCode};
ghost use Rattle.link_prop.specs.Marks.{AppPart, KeepsAppMarks, added_at, has_mark, is_marked, links_of_new, no_links};
ghost use Rattle.link_prop.specs.Marks.{no_marks, tree_at, values_at};

use crate::app::App;
use comp_tree::{NewComponent, Turns};
use sed_engine::{CallEnd, Callback, Engine};
use sed_value::{Id, Refusal};
use sub_table::LinkMarks;

impl<E: Engine> App<E> {
    ghost use Rattle.comp_tree.specs.Held.{components_of};

    /// Adds a component that is asked for. It takes the least free id; then its `start` is called, with so many turns
    /// at a moment in nanoseconds. A trap of it is no refusal.
    ///
    /// The first refusal of its row comes exactly where one holds. `OutOfMemory` comes where none does, and only over
    /// an engine that is not fixed. An error changes no component.
    pub fn add(&mut self, asked: NewComponent<'_>, turns: Turns, ticks: i64) -> Result<Id, Refusal>
        ensures id { IfOk result (λ id. id.0 ≡ least_free (components_of E.Engine self.old.tree).by_id) }
        ensures fresh { IfOk result (λ id. map.get (components_of E.Engine self.old.tree).by_id id.0 ≡ None) }
        ensures done { OnOk result (components_of E.Engine self.new.tree ≡ (after_new
            (E.meaning self.old.tree.engine) (components_of E.Engine self.old.tree) asked.entry turns ticks).left) }
        ensures allowed { OnOk result (first_refusal (refusals_of_new
            (E.meaning self.old.tree.engine) (components_of E.Engine self.old.tree) asked.entry) ≡ None) }
        ensures refused { IfErr result (λ refusal. refusal ≢ OutOfMemory → first_refusal (refusals_of_new
            (E.meaning self.old.tree.engine) (components_of E.Engine self.old.tree) asked.entry) ≡ Some refusal) }
        ensures memory { result ≡ Err OutOfMemory → (E.fixed self.old.tree.engine ≡ false)
            × (first_refusal (refusals_of_new (E.meaning self.old.tree.engine)
            (components_of E.Engine self.old.tree) asked.entry) ≡ None) }
        ensures stays { OnErr result (components_of E.Engine self.new.tree ≡ components_of E.Engine self.old.tree) }
        ensures marks { MatchResult result (λ id.
            KeepsAppMarks E.Engine (added_at asked.entry.parent.0 id.0) (links_of_new id.0) self.old self.new)
            (λ _. KeepsAppMarks E.Engine no_marks no_links self.old self.new) }
        ensures set { IfOk result (λ id. (at : ℕ) (part : AppPart) → is_marked self.new id.0 at part ≡ true) }
        ensures links { self.new.links ≡ self.old.links }
        ensures same { SameCode E.Engine self.old.tree.engine self.new.tree.engine }
    {
        let added = self.tree.add(asked, turns, ticks);
        mark_added(&mut self.marks, added);
        added
    }

    /// Gives a component another name. The first refusal of its row comes exactly where one holds, and then all is as
    /// it was.
    pub fn rename(&mut self, id: Id, name: &[u8]) -> Result<(), Refusal>
        ensures done { OnOk result (components_of E.Engine self.new.tree
            ≡ after_rename (components_of E.Engine self.old.tree) id.0 name.now) }
        ensures refused { MatchResult result (λ _.
            first_refusal (refusals_of_rename (components_of E.Engine self.old.tree).by_id id.0 name.now) ≡ None)
            (λ refusal. first_refusal (refusals_of_rename (components_of E.Engine self.old.tree).by_id id.0 name.now)
            ≡ Some refusal) }
        ensures stays { OnErr result (self.new ≡ self.old) }
        ensures marks { KeepsAppMarks E.Engine (tree_at id.0) no_links self.old self.new }
        ensures links { self.new.links ≡ self.old.links }
        ensures same { SameCode E.Engine self.old.tree.engine self.new.tree.engine }
    {
        self.tree.rename(id, name)
    }

    /// Puts a component's children in another order, their ids in two bytes each. The first refusal of its row comes
    /// exactly where one holds, and then all is as it was.
    pub fn reorder(&mut self, id: Id, children: &[u8]) -> Result<(), Refusal>
        ensures done { OnOk result (components_of E.Engine self.new.tree
            ≡ after_reorder (components_of E.Engine self.old.tree) id.0 children.now) }
        ensures refused { MatchResult result (λ _.
            first_refusal (refusals_of_reorder (components_of E.Engine self.old.tree).by_id id.0 children.now) ≡ None)
            (λ refusal. first_refusal
            (refusals_of_reorder (components_of E.Engine self.old.tree).by_id id.0 children.now) ≡ Some refusal) }
        ensures stays { OnErr result (self.new ≡ self.old) }
        ensures marks { KeepsAppMarks E.Engine (tree_at id.0) no_links self.old self.new }
        ensures links { self.new.links ≡ self.old.links }
        ensures same { SameCode E.Engine self.old.tree.engine self.new.tree.engine }
    {
        self.tree.reorder(id, children)
    }

    /// Writes a property, and calls `changed` where the stored value differs from the one before, with so many turns at
    /// a moment in nanoseconds. A trap of it is no refusal. The first refusal of its row comes exactly where one holds,
    /// and then all is as it was.
    pub fn write(
        &mut self,
        id: Id,
        slot: u8,
        value: &[u8],
        turns: Turns,
        ticks: i64,
    ) -> Result<(), Refusal>
        ensures done { OnOk result (components_of E.Engine self.new.tree
            ≡ after_write (E.meaning self.old.tree.engine) (components_of E.Engine self.old.tree)
            id.0 slot value.now turns ticks) }
        ensures refused { MatchResult result (λ _.
            first_refusal (refusals_of_write (E.meaning self.old.tree.engine)
            (components_of E.Engine self.old.tree).by_id id.0 slot value.now) ≡ None)
            (λ refusal. first_refusal (refusals_of_write (E.meaning self.old.tree.engine)
            (components_of E.Engine self.old.tree).by_id id.0 slot value.now) ≡ Some refusal) }
        ensures stays { OnErr result (self.new ≡ self.old) }
        ensures marks { KeepsAppMarks E.Engine (values_at id.0) no_links self.old self.new }
        ensures links { self.new.links ≡ self.old.links }
        ensures same { SameCode E.Engine self.old.tree.engine self.new.tree.engine }
    {
        self.tree.write(id, slot, value, turns, ticks)
    }

    /// Runs an action with its argument, with so many turns at a moment in nanoseconds. A trap becomes the component's
    /// fault, and is no refusal. The first refusal of its row comes exactly where one holds, and then all is as it was.
    /// The App's `save` is not asked for here.
    pub fn invoke(
        &mut self,
        id: Id,
        slot: u8,
        arg: &[u8],
        turns: Turns,
        ticks: i64,
    ) -> Result<CallEnd, Refusal>
        requires { IsTrue (not (is_save id.0 slot)) }
        ensures done { OnOk result (components_of E.Engine self.new.tree
            ≡ (after_invoke (E.meaning self.old.tree.engine) (components_of E.Engine self.old.tree)
            id.0 (record { 0 = slot }) arg.now turns ticks).left) }
        ensures end { IfOk result (λ end.
            end ≡ (after_invoke (E.meaning self.old.tree.engine) (components_of E.Engine self.old.tree)
            id.0 (record { 0 = slot }) arg.now turns ticks).end) }
        ensures refused { MatchResult result (λ _.
            first_refusal (refusals_of_invoke (E.meaning self.old.tree.engine)
            (components_of E.Engine self.old.tree).by_id id.0 slot arg.now) ≡ None)
            (λ refusal. first_refusal (refusals_of_invoke (E.meaning self.old.tree.engine)
            (components_of E.Engine self.old.tree).by_id id.0 slot arg.now) ≡ Some refusal) }
        ensures stays { OnErr result (self.new ≡ self.old) }
        ensures marks { KeepsAppMarks E.Engine (values_at id.0) no_links self.old self.new }
        ensures links { self.new.links ≡ self.old.links }
        ensures same { SameCode E.Engine self.old.tree.engine self.new.tree.engine }
    {
        self.tree.invoke(id, slot, arg, turns, ticks)
    }

    /// Sets a component's fault to 0. The one refusal comes exactly where the id is not live, and then all is as it
    /// was.
    pub fn clear(&mut self, id: Id) -> Result<(), Refusal>
        ensures done { OnOk result (components_of E.Engine self.new.tree
            ≡ after_clear (components_of E.Engine self.old.tree) id.0) }
        ensures refused { MatchResult result (λ _.
            first_refusal (refusals_of_clear (components_of E.Engine self.old.tree).by_id id.0) ≡ None)
            (λ refusal. first_refusal (refusals_of_clear (components_of E.Engine self.old.tree).by_id id.0)
            ≡ Some refusal) }
        ensures stays { OnErr result (self.new ≡ self.old) }
        ensures marks { KeepsAppMarks E.Engine no_marks no_links self.old self.new }
        ensures links { self.new.links ≡ self.old.links }
        ensures same { SameCode E.Engine self.old.tree.engine self.new.tree.engine }
    {
        self.tree.clear(id)
    }

    /// Runs `execute` of a component whose fault is 0, with so many turns at a moment in nanoseconds. A trap becomes
    /// its fault.
    pub fn execute(&mut self, id: Id, turns: Turns, ticks: i64) -> CallEnd
        requires live { IsSome (map.get (components_of E.Engine self.old.tree).by_id id.0) }
        requires no_fault { fault_of (components_of E.Engine self.old.tree).by_id id.0 ≡ 0 }
        ensures left { components_of E.Engine self.new.tree
            ≡ (execute_at (E.meaning self.old.tree.engine) (components_of E.Engine self.old.tree)
            id.0 turns ticks).left }
        ensures end { result ≡ (execute_at (E.meaning self.old.tree.engine)
            (components_of E.Engine self.old.tree) id.0 turns ticks).end }
        ensures marks { KeepsAppMarks E.Engine (values_at id.0) no_links self.old self.new }
        ensures links { self.new.links ≡ self.old.links }
        ensures same { SameCode E.Engine self.old.tree.engine self.new.tree.engine }
    {
        self.tree.execute(id, turns, ticks)
    }

    /// Calls a callback of a component; `slot` is the argument of `changed` and is otherwise not read. A trap becomes
    /// its fault; where its fault isn't 0, nothing is run.
    pub fn callback(&mut self, id: Id, c: Callback, slot: u8, turns: Turns, ticks: i64) -> CallEnd
        requires { IsSome (map.get (components_of E.Engine self.old.tree).by_id id.0) }
        ensures left { components_of E.Engine self.new.tree
            ≡ (Call (E.meaning self.old.tree.engine) (components_of E.Engine self.old.tree)
            id.0 c slot turns ticks).left }
        ensures end { result ≡ (Call (E.meaning self.old.tree.engine) (components_of E.Engine self.old.tree)
            id.0 c slot turns ticks).end }
        ensures marks { KeepsAppMarks E.Engine (values_at id.0) no_links self.old self.new }
        ensures links { self.new.links ≡ self.old.links }
        ensures same { SameCode E.Engine self.old.tree.engine self.new.tree.engine }
    {
        self.tree.callback(id, c, slot, turns, ticks)
    }
}

// Marks the links at a component that was added.
fn mark_added(marks: &mut LinkMarks, added: Result<Id, Refusal>)
    ensures { MatchResult added (λ new. (id place : ℕ)
        → has_mark marks.new id place ≡ (links_of_new new.0 id || has_mark marks.old id place))
        (λ _. marks.new ≡ marks.old) }
{
    if let Ok(new) = added {
        marks.mark(new);
    }
}
