//! The tree.
ghost use Rattle.std.specs.Prelude.{◌≡◌, ◌↔◌, ◌<◌, ◌≤◌, ℕ, IsTrue, IsSome, IsSomeAnd, IfOk, IfSome, OnOk, OnErr};
ghost use Rattle.std.specs.Prelude.{MatchOption, MatchResult, Some, None, Ok, Err, length, slice_get, codes, []};
ghost use Rattle.std.specs.FinMap as map;
ghost use Rattle.std.specs.Option.{option_map};
ghost use Rattle.sed_typed.specs.Schemas.{type_at as class_numbered};
ghost use Rattle.sed_typed.specs.Spelled.{CanBeTold};
ghost use Rattle.sed_typed.specs.SysTypes.{app_type as app_number};
ghost use Rattle.sed_value.specs.Value.{is_of_type};
ghost use Rattle.sed_engine.specs.Fits.{Fits};
ghost use Rattle.sed_engine.specs.Whole.{IsObject, IsWhole};
ghost use Rattle.comp_tree.specs.Application.{children_of, most_children, most_components, type_at, value_at};
ghost use Rattle.comp_tree.specs.Edits.{app_class, first_components};
ghost use Rattle.comp_tree.specs.Held.{IsPropertyOf};
ghost use Rattle.comp_tree.specs.Marks.{all_parts, marks_at, parts_at};
ghost use Rattle.comp_tree.specs.Refusals.{first_refusal, refusals_of_read};
ghost use Rattle.comp_tree.specs.SameCode.{SameCode};
ghost use Rattle.comp_tree.specs.Told.{IsEntry, IsGreatest, place_in};

mod adding;
mod building;
mod copying;
mod editing;
mod marking;
mod removing;
mod running;
mod subtree;

use crate::entry::Entry;
use node_table::{Children, Marks, Node, Nodes, form_of};
use sed_engine::{AddRefusal, Engine, Place};
use sed_typed::{Schema, SlotForm, SlotNo, TypeNo};
use sed_value::{Id, Name, Refusal, SlotBuf};
use std::alloc::Global;
use std::marker::Model;

/// A tree of components over an engine, which keeps their values and runs their root calls.
///
/// Contracts speak of the components that it stands for. Where the engine is fixed, no call after
/// `new` wants memory.
#[derive(Drop)]
pub struct Tree<E: Engine> {
    engine: E,
    nodes: Nodes,
}

impl<E: Engine> Model for Tree<E> {
    ghost use Rattle.node_table.specs.contracts.node.Node as node;
    ghost use Rattle.comp_tree.specs.Held.{Held, held_code, IsHeld};

    ghost Value = { Held E };

    ghost coded = { held_code E.code node.the_row.coded };

    ghost view = { λ t. record { engine = t.engine; nodes = t.nodes } };

    ghost invariant = { λ t. IsHeld (E.meaning t.engine) (E.live t.engine) t.nodes };
}

impl<E: Engine> Tree<E> {
    ghost use Rattle.comp_tree.specs.Held.{components_of};

    /// The App alone, named `app`, over an engine without live places. Room for 4,096 components
    /// and their children is taken here, once the engine has taken the App.
    ///
    /// `DataFull` comes exactly where the App's data passes the engine's limit.
    pub fn new(alloc: Global, engine: E) -> Result<Tree<E>, AddRefusal>
        requires { E.live engine ≡ map.empty }
        ensures made { IfOk result (λ t. components_of E.Engine t
            ≡ first_components (E.meaning engine) (E.statics engine) (E.limit engine)) }
        ensures same { IfOk result (λ t. SameCode E.Engine engine t.engine) }
        ensures marks { IfOk result (λ t. (id at : ℕ) → marks_at t id at ≡ all_parts) }
        ensures full { (result ≡ Err AddRefusal.DataFull)
            ↔ (E.limit engine < (E.meaning engine).data_size (app_class (E.meaning engine))) }
        ensures fits { OnOk result ((E.meaning engine).data_size (app_class (E.meaning engine)) ≤ E.limit engine) }
    {
        let kind = app_type(engine.schema());
        let mut engine = engine;
        let place = match engine.add(kind) {
            Ok(place) => place,
            Err(refusal) => return Err(refusal),
        };
        let mut nodes = match Nodes::new(alloc) {
            Ok(nodes) => nodes,
            Err(_) => return Err(AddRefusal::Memory),
        };
        nodes.insert(Id(0), app_node(kind, place));
        Ok(Tree { engine, nodes })
    }

    /// The schema of the engine's code, which is whole, and can be told by an application file. Each live object is one
    /// of which components are made, and its contents and the statics are of their types.
    pub fn schema(&self) -> &Schema
        ensures same { result.now ≡ (E.meaning self.now.engine).schema }
        ensures whole { IsWhole (E.meaning self.now.engine) }
        ensures told { CanBeTold (E.meaning self.now.engine).schema }
        ensures objects { (p : ℕ) → IfSome (map.get (E.live self.now.engine) p) (IsObject (E.meaning self.now.engine)) }
        ensures statics { Fits (E.meaning self.now.engine).fields (E.meaning self.now.engine).static_fields
            (E.meaning self.now.engine).initial_statics (E.statics self.now.engine) }
    {
        self.engine.schema()
    }

    /// What is told of a component: none exactly where the id is not live. It has at most 200
    /// children, and its id is below 4,096.
    pub fn find(&self, id: Id) -> Option<Entry>
        ensures told { MatchOption result (map.get (components_of E.Engine self.now).by_id id.0 ≡ None)
            (λ entry. IsSomeAnd (map.get (components_of E.Engine self.now).by_id id.0)
            (IsEntry (E.live self.now.engine) entry)) }
        ensures place { IfSome result (λ entry. place_in self.now.nodes id.0 ≡ Some entry.place.0) }
        ensures few { IfSome result (λ entry. entry.children ≤ most_children) }
        ensures bound { IfSome result (λ _. id.0 < most_components) }
    {
        let _bound = self.nodes.contains(id);
        match self.nodes.get(id) {
            Some(node) => Some(entry_of(node)),
            None => None,
        }
    }

    /// The greatest id that is live.
    pub fn greatest(&self) -> Id
        ensures { IsGreatest (components_of E.Engine self.now).by_id result.0 }
    {
        self.nodes.greatest()
    }

    /// A component's child by its place, counted from 0: none exactly where the id is not live or
    /// has no more children.
    pub fn child(&self, id: Id, n: u8) -> Option<Id>
        ensures { option_map (λ child. child.0) result
            ≡ slice_get (children_of (components_of E.Engine self.now).by_id id.0) n }
    {
        match self.nodes.get(id) {
            Some(node) => nth_child(&node.children, n),
            None => None,
        }
    }

    /// Puts the value of a property into `out`, which is of the property's type. The first refusal
    /// of its row comes exactly where one holds, and then `out` is as it was.
    pub fn get(&self, id: Id, slot: u8, out: &mut SlotBuf) -> Result<(), Refusal>
        ensures value { OnOk result (out.new
            ≡ value_at (E.meaning self.now.engine) (components_of E.Engine self.now).by_id id.0 slot) }
        ensures of_type { OnOk result
            (IfSome (type_at (E.meaning self.now.engine) (components_of E.Engine self.now).by_id id.0 slot)
            (λ t. IsTrue (is_of_type t out.new))) }
        ensures refused { MatchResult result (λ _.
            first_refusal (refusals_of_read (E.meaning self.now.engine) (components_of E.Engine self.now).by_id
            id.0 slot) ≡ None)
            (λ refusal. first_refusal (refusals_of_read (E.meaning self.now.engine)
            (components_of E.Engine self.now).by_id id.0 slot) ≡ Some refusal) }
        ensures stays { OnErr result (out.new ≡ out.old) }
    {
        match self.property(id, slot) {
            Ok(place) => {
                let _whole = self.engine.schema();
                self.engine.get(place, SlotNo(slot), out);
                Ok(())
            }
            Err(refusal) => Err(refusal),
        }
    }

    // Where the values of a component with this property are kept.
    fn property(&self, id: Id, slot: u8) -> Result<Place, Refusal>
        ensures { MatchResult result (λ place. IsPropertyOf E.Engine self.now id.0 slot place.0)
            (λ refusal. first_refusal (refusals_of_read (E.meaning self.now.engine)
            (components_of E.Engine self.now).by_id id.0 slot) ≡ Some refusal) }
    {
        let Some(node) = self.nodes.get(id) else {
            return Err(Refusal::NoComponent);
        };
        match form_of(self.engine.schema(), node.kind, slot) {
            Some(SlotForm::Prop(_)) => Ok(node.place),
            Some(SlotForm::Action(_)) => Err(Refusal::WrongKindOfSlot),
            None => Err(Refusal::NoSlot),
        }
    }
}

// The type of the App.
fn app_type(schema: &Schema) -> TypeNo
    requires { IsSome (class_numbered schema.now.classes 0 app_number) }
    ensures { class_numbered schema.now.classes 0 app_number ≡ Some result.0 }
{
    match schema.type_of(0, 3) {
        Some(kind) => kind,
        None => unreachable!(),
    }
}

// The App's node.
fn app_node(kind: TypeNo, place: Place) -> Node
    ensures kind { result.kind ≡ kind }
    ensures name { result.name ≡ codes "app" }
    ensures parent { result.parent ≡ None }
    ensures children { result.children ≡ [] }
    ensures fault { result.fault ≡ 0 }
    ensures place { result.place ≡ place }
    ensures marks { (at : ℕ) → parts_at result.marks at ≡ all_parts }
{
    Node {
        kind,
        name: Name::read(b"app".as_slice()).unwrap(),
        parent: None,
        children: Children::new(),
        fault: 0,
        place,
        marks: Marks::all(),
    }
}

// A child by its place.
fn nth_child(children: &Children, n: u8) -> Option<Id>
    ensures { option_map (λ child. child.0) result ≡ slice_get children.now n }
{
    match children.get(usize::from(n)) {
        Some(child) => Some(Id(child)),
        None => None,
    }
}

// What is told of a node.
fn entry_of(node: &Node) -> Entry
    ensures kind { result.kind ≡ node.now.kind }
    ensures name { result.name ≡ node.now.name }
    ensures parent { result.parent ≡ node.now.parent }
    ensures children { result.children ≡ length node.now.children }
    ensures few { result.children ≤ most_children }
    ensures fault { result.fault ≡ node.now.fault }
    ensures place { result.place ≡ node.now.place }
{
    Entry {
        kind: node.kind,
        name: node.name,
        parent: node.parent,
        children: node.children.len() as u8,
        fault: node.fault,
        place: node.place,
    }
}
