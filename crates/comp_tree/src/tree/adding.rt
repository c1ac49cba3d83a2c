//! Components that come.
ghost use Rattle.std.specs.Prelude.{◌≡◌, ◌≢◌, ◌↔◌, ◌<◌, ◌+◌, ◌++◌, ◌∷◌, ℕ, [], false, IsTrue, IsSome, IfErr, IfOk};
ghost use Rattle.std.specs.Prelude.{IfSome, OnOk, OnErr, MatchResult, length, Some, None, Err};
ghost use Rattle.std.specs.FinMap as map;
ghost use Rattle.sed_engine.specs.Code.{is_creatable};
ghost use Rattle.sed_value.specs.declared.refusal.Refusal.TheVariants.{OutOfMemory};
ghost use Rattle.comp_tree.specs.Adding.{MayAddNew, after_new, refusals_of_new};
ghost use Rattle.comp_tree.specs.Allowed.{HasRoom};
ghost use Rattle.comp_tree.specs.Application.{data_size_of, is_live, most_children, with_components};
ghost use Rattle.node_table.specs.Changed.{with_children};
ghost use Rattle.comp_tree.specs.Edits.{added};
ghost use Rattle.comp_tree.specs.Marks.{KeepsMarks, added_at, all_parts, marks_at, no_marks, parts_at};
ghost use Rattle.comp_tree.specs.Order.{least_free};
ghost use Rattle.comp_tree.specs.Refusals.{config_types, first_refusal};
ghost use Rattle.comp_tree.specs.SameCode.{SameCode};
ghost use Rattle.comp_tree.specs.Values.{taken};
ghost use Rattle.node_table.specs.Read.{refusal_of_values};

use crate::joining::{kind_to_add, new_child};
use crate::new_component::NewComponent;
use crate::tree::Tree;
use crate::turns::Turns;
use node_table::{Children, Marks, Node, Nodes, Parts, config_refusal, store_config};
use sed_engine::{AddRefusal, Callback, Engine, Place};
use sed_typed::TypeNo;
use sed_value::{Id, Name, Refusal};

// The type and the name of a component that may be added.
#[derive(Clone, Copy)]
struct Newcomer {
    kind: TypeNo,
    name: Name,
}

impl<E: Engine> Tree<E> {
    ghost use Rattle.comp_tree.specs.Held.{components_of};

    /// Adds a component that is asked for. It takes the least free id; then its `start` is called, with
    /// so many turns at a moment in nanoseconds. A trap of it is no refusal.
    ///
    /// The first refusal of its row comes exactly where one holds. `OutOfMemory` comes where none
    /// does, and only over an engine that is not fixed. An error changes no component.
    pub fn add(&mut self, asked: NewComponent<'_>, turns: Turns, ticks: i64) -> Result<Id, Refusal>
        ensures id { IfOk result (λ id. id.0 ≡ least_free (components_of E.Engine self.old).by_id) }
        ensures fresh { IfOk result (λ id. map.get (components_of E.Engine self.old).by_id id.0 ≡ None) }
        ensures done { OnOk result (components_of E.Engine self.new ≡ (after_new (E.meaning self.old.engine)
            (components_of E.Engine self.old) asked.entry turns ticks).left) }
        ensures allowed { OnOk result (first_refusal
            (refusals_of_new (E.meaning self.old.engine) (components_of E.Engine self.old) asked.entry) ≡ None) }
        ensures refused { IfErr result (λ refusal. refusal ≢ OutOfMemory → first_refusal
            (refusals_of_new (E.meaning self.old.engine) (components_of E.Engine self.old) asked.entry)
            ≡ Some refusal) }
        ensures memory { result ≡ Err OutOfMemory → (E.fixed self.old.engine ≡ false) × (first_refusal
            (refusals_of_new (E.meaning self.old.engine) (components_of E.Engine self.old) asked.entry) ≡ None) }
        ensures marks { MatchResult result
            (λ id. KeepsMarks E.Engine (added_at asked.entry.parent.0 id.0) self.old self.new)
            (λ _. KeepsMarks E.Engine no_marks self.old self.new) }
        ensures set { IfOk result (λ id. (at : ℕ) → marks_at self.new id.0 at ≡ all_parts) }
        ensures stays { OnErr result (components_of E.Engine self.new ≡ components_of E.Engine self.old) }
        ensures same { SameCode E.Engine self.old.engine self.new.engine }
    {
        let new = match self.may_add(asked) {
            Ok(new) => new,
            Err(refusal) => return Err(refusal),
        };
        let id = match self.grow(asked.parent, new.kind, new.name, asked.config) {
            Ok(id) => id,
            Err(AddRefusal::DataFull) => return Err(Refusal::DataFull),
            Err(AddRefusal::Memory) => return Err(Refusal::OutOfMemory),
        };
        let _end = self.callback(id, Callback::Start, 0, turns, ticks);
        Ok(id)
    }

    // The type and the name of a component that is to be added, or why it may not; of its data
    // nothing is asked.
    fn may_add(&self, asked: NewComponent<'_>) -> Result<Newcomer, Refusal>
        ensures { MatchResult result (λ new.
            MayAddNew (E.meaning self.now.engine) (components_of E.Engine self.now) asked.entry new.kind.0 new.name)
            (λ refusal. first_refusal (refusals_of_new (E.meaning self.now.engine)
            (components_of E.Engine self.now) asked.entry) ≡ Some refusal) }
    {
        let Some(_above) = self.nodes.get(asked.parent) else {
            return Err(Refusal::NoComponent);
        };
        let kind = match kind_to_add(self.engine.schema(), asked.kit, asked.number) {
            Ok(kind) => kind,
            Err(refusal) => return Err(refusal),
        };
        let name = match new_child(&self.nodes, asked.parent, asked.name) {
            Ok(name) => name,
            Err(refusal) => return Err(refusal),
        };
        match config_refusal(self.engine.schema(), kind, asked.config) {
            Some(refusal) => Err(refusal),
            None => Ok(Newcomer { kind, name }),
        }
    }

    // Adds a component that may be added, of which nothing is called yet.
    fn grow(
        &mut self,
        parent: Id,
        kind: TypeNo,
        name: Name,
        config: &[u8],
    ) -> Result<Id, AddRefusal>
        requires creatable { IsTrue (is_creatable (E.meaning self.old.engine) kind.0) }
        requires live { IsTrue (is_live (components_of E.Engine self.old).by_id parent.0) }
        requires room { HasRoom (components_of E.Engine self.old).by_id parent.0 }
        requires good { refusal_of_values (config_types (E.meaning self.old.engine) kind.0) config.now ≡ None }
        ensures id { IfOk result (λ id. id.0 ≡ least_free (components_of E.Engine self.old).by_id) }
        ensures fresh { IfOk result (λ id. map.get (components_of E.Engine self.old).by_id id.0 ≡ None) }
        ensures live { IfOk result (λ id. IsTrue (is_live (components_of E.Engine self.new).by_id id.0)) }
        ensures done { IfOk result (λ id. components_of E.Engine self.new
            ≡ with_components (components_of E.Engine self.old)
            (added (E.meaning self.old.engine) (components_of E.Engine self.old).by_id
            id.0 parent.0 kind.0 name (taken (config_types (E.meaning self.old.engine) kind.0) config.now))) }
        ensures full { (result ≡ Err AddRefusal.DataFull) ↔ ((components_of E.Engine self.old).limit
            < data_size_of (E.meaning self.old.engine) (components_of E.Engine self.old).by_id
            + (E.meaning self.old.engine).data_size kind.0) }
        ensures memory { result ≡ Err AddRefusal.Memory → E.fixed self.old.engine ≡ false }
        ensures marks { MatchResult result (λ id. KeepsMarks E.Engine (added_at parent.0 id.0) self.old self.new)
            (λ _. KeepsMarks E.Engine no_marks self.old self.new) }
        ensures set { IfOk result (λ id. (at : ℕ) → marks_at self.new id.0 at ≡ all_parts) }
        ensures stays { OnErr result (components_of E.Engine self.new ≡ components_of E.Engine self.old) }
        ensures same { SameCode E.Engine self.old.engine self.new.engine }
    {
        let place = match self.engine.add(kind) {
            Ok(place) => place,
            Err(refusal) => return Err(refusal),
        };
        store_config(&mut self.engine, place, kind, config);
        let id = self.nodes.least_free();
        push_child(&mut self.nodes, parent, id);
        self.nodes.insert(id, new_node(kind, name, parent, place));
        Ok(id)
    }
}

// A node without children and fault.
fn new_node(kind: TypeNo, name: Name, parent: Id, place: Place) -> Node
    ensures kind { result.kind ≡ kind }
    ensures name { result.name ≡ name }
    ensures parent { result.parent ≡ Some parent }
    ensures children { result.children ≡ [] }
    ensures fault { result.fault ≡ 0 }
    ensures place { result.place ≡ place }
    ensures marks { (at : ℕ) → parts_at result.marks at ≡ all_parts }
{
    Node {
        kind,
        name,
        parent: Some(parent),
        children: Children::new(),
        fault: 0,
        place,
        marks: Marks::all(),
    }
}

// Puts a child behind the others of a node, and marks it.
fn push_child(nodes: &mut Nodes, id: Id, child: Id)
    requires live { IsSome (map.get nodes.old id.0) }
    requires few { IfSome (map.get nodes.old id.0) (λ node. length node.children < most_children) }
    ensures { IfSome (map.get nodes.old id.0) (λ node. nodes.new
        ≡ map.insert nodes.old id.0 (with_children (node.children ++ child.0 ∷ []) node)) }
{
    if let Some(mut node) = nodes.remove(id) {
        node.children.push(child.0);
        node.marks.touch(Parts::of_tree());
        nodes.insert(id, node);
    }
}
