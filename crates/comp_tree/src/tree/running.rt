//! Root calls on components.
ghost use Rattle.std.specs.Prelude.{◌≡◌, ℕ, IsTrue, IsSome, IsSomeAnd, OnOk, OnErr, MatchResult, Some, None};
ghost use Rattle.std.specs.FinMap as map;
ghost use Rattle.sed_engine.specs.Code.{may_call};
ghost use Rattle.comp_tree.specs.Application.{fault_of};
ghost use Rattle.comp_tree.specs.Calls.{Call, callback_argument as argument_of, execute_at, fault_by, run_at};
ghost use Rattle.comp_tree.specs.Edits.{after_clear};
ghost use Rattle.comp_tree.specs.Marks.{KeepsMarks, marks_at, no_marks, values_at};
ghost use Rattle.comp_tree.specs.Refusals.{first_refusal, refusals_of_clear};
ghost use Rattle.comp_tree.specs.SameCode.{SameCode};

use crate::tree::Tree;
use crate::turns::Turns;
use node_table::Parts;
use sed_engine::{CallEnd, Callback, Engine, Root};
use sed_value::{Id, Refusal, SlotBuf, Value};

impl<E: Engine> Tree<E> {
    ghost use Rattle.comp_tree.specs.Held.{components_of};

    /// Runs `execute` of a component whose fault is 0, with so many turns at a moment in
    /// nanoseconds. A trap becomes its fault.
    pub fn execute(&mut self, id: Id, turns: Turns, ticks: i64) -> CallEnd
        requires live { IsSome (map.get (components_of E.Engine self.old).by_id id.0) }
        requires no_fault { fault_of (components_of E.Engine self.old).by_id id.0 ≡ 0 }
        ensures left { components_of E.Engine self.new
            ≡ (execute_at (E.meaning self.old.engine) (components_of E.Engine self.old) id.0 turns ticks).left }
        ensures end { result ≡ (execute_at (E.meaning self.old.engine)
            (components_of E.Engine self.old) id.0 turns ticks).end }
        ensures marks { KeepsMarks E.Engine (values_at id.0) self.old self.new }
        ensures same { SameCode E.Engine self.old.engine self.new.engine }
    {
        self.call(id, Root::Execute, &SlotBuf::new(), turns, ticks)
    }

    /// Calls a callback of a component; `slot` is the argument of `changed` and is otherwise not
    /// read. A trap becomes its fault; where its fault isn't 0, nothing is run.
    pub fn callback(&mut self, id: Id, c: Callback, slot: u8, turns: Turns, ticks: i64) -> CallEnd
        requires { IsSome (map.get (components_of E.Engine self.old).by_id id.0) }
        ensures left { components_of E.Engine self.new
            ≡ (Call (E.meaning self.old.engine) (components_of E.Engine self.old) id.0 c slot turns ticks).left }
        ensures end { result ≡ (Call (E.meaning self.old.engine) (components_of E.Engine self.old)
            id.0 c slot turns ticks).end }
        ensures marks { KeepsMarks E.Engine (values_at id.0) self.old self.new }
        ensures same { SameCode E.Engine self.old.engine self.new.engine }
    {
        let argument = callback_argument(c, slot);
        self.call(id, Root::Callback(c), &argument, turns, ticks)
    }

    /// Sets a component's fault to 0. The one refusal comes exactly where the id is not live.
    pub fn clear(&mut self, id: Id) -> Result<(), Refusal>
        ensures done { OnOk result (components_of E.Engine self.new
            ≡ after_clear (components_of E.Engine self.old) id.0) }
        ensures marks { KeepsMarks E.Engine no_marks self.old self.new }
        ensures refused { MatchResult result (λ _.
            first_refusal (refusals_of_clear (components_of E.Engine self.old).by_id id.0) ≡ None)
            (λ refusal. first_refusal (refusals_of_clear (components_of E.Engine self.old).by_id id.0) ≡ Some refusal) }
        ensures stays { OnErr result (self.new ≡ self.old) }
        ensures same { SameCode E.Engine self.old.engine self.new.engine }
    {
        let Some(_node) = self.nodes.get(id) else {
            return Err(Refusal::NoComponent);
        };
        self.nodes.set_fault(id, 0);
        Ok(())
    }

    // A root call on a component, where its fault is 0; its values are marked.
    pub(super) fn call(
        &mut self,
        id: Id,
        which: Root,
        arg: &SlotBuf,
        turns: Turns,
        ticks: i64,
    ) -> CallEnd
        requires { IsSomeAnd (map.get (components_of E.Engine self.old).by_id id.0)
            (λ c. IsTrue (may_call (E.meaning self.old.engine) c.class which arg.now)) }
        ensures left { components_of E.Engine self.new
            ≡ (run_at (E.meaning self.old.engine) (components_of E.Engine self.old)
            id.0 which arg.now turns ticks).left }
        ensures end { result ≡ (run_at (E.meaning self.old.engine) (components_of E.Engine self.old)
            id.0 which arg.now turns ticks).end }
        ensures marks { KeepsMarks E.Engine (values_at id.0) self.old self.new }
        ensures same { SameCode E.Engine self.old.engine self.new.engine }
    {
        let end = self.run(id, which, arg, turns, ticks);
        self.mark(id, Parts::of_values());
        end
    }

    // A root call on a component, where its fault is 0, of which the marks say nothing yet.
    fn run(&mut self, id: Id, which: Root, arg: &SlotBuf, turns: Turns, ticks: i64) -> CallEnd
        requires { IsSomeAnd (map.get (components_of E.Engine self.old).by_id id.0)
            (λ c. IsTrue (may_call (E.meaning self.old.engine) c.class which arg.now)) }
        ensures left { components_of E.Engine self.new
            ≡ (run_at (E.meaning self.old.engine) (components_of E.Engine self.old)
            id.0 which arg.now turns ticks).left }
        ensures end { result ≡ (run_at (E.meaning self.old.engine) (components_of E.Engine self.old)
            id.0 which arg.now turns ticks).end }
        ensures marks { (other at : ℕ) → marks_at self.new other at ≡ marks_at self.old other at }
        ensures same { SameCode E.Engine self.old.engine self.new.engine }
    {
        let most = turns.number();
        let Some(node) = self.nodes.get(id) else {
            return CallEnd::Done { left: most };
        };
        if node.fault != 0 {
            return CallEnd::Done { left: most };
        }
        let end = self.engine.call(node.place, which, arg, most, ticks);
        self.nodes.set_fault(id, fault_number(end));
        end
    }
}

// The argument of a callback.
fn callback_argument(c: Callback, slot: u8) -> SlotBuf
    ensures { result ≡ argument_of c slot }
{
    let mut argument = SlotBuf::new();
    if let Callback::Changed = c {
        argument.put(Value::Int(i32::from(slot)));
    }
    argument
}

// The fault that a root call leaves.
fn fault_number(end: CallEnd) -> u8
    ensures { result ≡ fault_by end }
{
    match end {
        CallEnd::Done { .. } => 0,
        CallEnd::Trap { number } => number,
    }
}
