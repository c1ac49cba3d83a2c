//! Nodes by their ids.
ghost use Rattle.std.specs.Prelude.{◌≡◌, ◌<◌, ◌≤◌, ℕ, IfOk, IsSome, IfSome, Some, None, is_some, slice_index_or};
ghost use Rattle.std.specs.Prelude.{length, replicate};
ghost use Rattle.std.specs.FinMap as map;
ghost use Rattle.std.specs.Option.{option_copied};
ghost use Rattle.slab.specs.Slab.{get, slab_len, ContainsKey, Updates};
ghost use Rattle.node_table.specs.Limits.{most_components};
ghost use Rattle.node_table.specs.Changed.{settled, touched, with_fault, with_marks};

use crate::marks::Parts;
use crate::node::Node;
use crate::taken::Taken;
use sed_value::Id;
use sed_value::limits::MOST_COMPONENTS;
use slab::Slab;
use std::alloc::{AllocError, Global};
use std::marker::Model;

/// The nodes of a tree by their ids, which are below 4,096. Contracts see a finite map.
///
/// Room for all is taken by `new`; no other call takes memory.
#[derive(Drop)]
pub struct Nodes {
    // The key in the slab of the node with each id.
    index: Vec<Option<usize>>,
    slab: Slab<Node>,
    taken: Taken,
}

impl Model for Nodes {
    ghost use Rattle.std.specs.Ordering.{nat_cmp};
    ghost use Rattle.std.specs.Coded.{coded_ℕ};
    ghost use Rattle.std.specs.FinMap as map;
    ghost use Rattle.node_table.specs.declared.node.Node.{Node as Kept};
    ghost use Rattle.node_table.specs.contracts.node.Node as node;

    ghost Value = { map.FinMap nat_cmp Kept };

    ghost coded = { map.code coded_ℕ node.the_row.coded };

    ghost use Rattle.node_table.specs.Indexed.{by_number, kept};
    ghost use Rattle.node_table.specs.Limits.{most_components};
    ghost use Rattle.node_table.specs.Taken.{IsMarked};

    ghost view = { λ s. by_number (kept s.index.items s.slab) };

    ghost invariant = { λ s. IsMarked most_components s.index.items s.slab s.taken };
}

impl Nodes {
    /// No nodes, and room for all that there may be.
    pub fn new(alloc: Global) -> Result<Nodes, AllocError>
        ensures { IfOk result (λ nodes. nodes ≡ map.empty) }
    {
        let index = no_keys(alloc)?;
        let slab = Slab::with_capacity(alloc, MOST_COMPONENTS)?;
        Ok(Nodes {
            index,
            slab,
            taken: Taken::new(),
        })
    }

    /// The node with this id.
    pub fn get(&self, id: Id) -> Option<&Node>
        ensures { option_copied result ≡ map.get self.now id.0 }
    {
        match key_at(&self.index, id) {
            Some(key) => self.slab.get(key),
            None => None,
        }
    }

    /// Whether a node has this id. There are at most 4,096, and each id that a node has is below it.
    pub fn contains(&self, id: Id) -> bool
        ensures same { result ≡ is_some (map.get self.now id.0) }
        ensures few { map.len self.now ≤ most_components }
        ensures bound { (other : ℕ) → IsSome (map.get self.now other) → other < most_components }
    {
        key_at(&self.index, id).is_some()
    }

    /// How many there are.
    pub fn len(&self) -> usize
        ensures { result ≡ map.len self.now }
    {
        self.slab.len()
    }

    /// The least id that no node has.
    pub fn least_free(&self) -> Id
        requires { map.len self.now < most_components }
        ensures free { map.get self.now result.0 ≡ None }
        ensures least { (id : ℕ) → id < result.0 → IsSome (map.get self.now id) }
        ensures bound { result.0 < most_components }
    {
        Id(self.taken.first_free())
    }

    /// The greatest id that a node has.
    pub fn greatest(&self) -> Id
        requires { IsSome (map.get self.now 0) }
        ensures live { IsSome (map.get self.now result.0) }
        ensures greatest { (other : ℕ) → IsSome (map.get self.now other) → other ≤ result.0 }
    {
        Id(last_kept(&self.index) as u16)
    }

    /// Puts a node under an id that none has.
    pub fn insert(&mut self, id: Id, node: Node)
        requires free { map.get self.old id.0 ≡ None }
        requires bound { id.0 < most_components }
        ensures { self.new ≡ map.insert self.old id.0 node }
    {
        let key = self.slab.insert_reserved(node);
        self.index[usize::from(id.0)] = Some(key);
        self.taken.take(id.0);
    }

    /// Gives the node with this id another fault.
    pub fn set_fault(&mut self, id: Id, fault: u8)
        requires { IsSome (map.get self.old id.0) }
        ensures { IfSome (map.get self.old id.0) (λ node. self.new ≡ map.insert self.old id.0 (with_fault fault node)) }
    {
        if let Some(key) = key_at(&self.index, id) {
            change_fault(&mut self.slab, key, fault);
        }
    }

    /// Marks these parts of the node with this id for every place.
    pub fn touch(&mut self, id: Id, parts: Parts)
        requires { IsSome (map.get self.old id.0) }
        ensures { IfSome (map.get self.old id.0) (λ node. self.new
            ≡ map.insert self.old id.0 (with_marks (touched parts node.marks) node)) }
    {
        if let Some(key) = key_at(&self.index, id) {
            touch_node(&mut self.slab, key, parts);
        }
    }

    /// Settles these parts of the node with this id for a place.
    pub fn settle(&mut self, id: Id, place: u8, parts: Parts)
        requires live { IsSome (map.get self.old id.0) }
        requires place { place < 16 }
        ensures { IfSome (map.get self.old id.0) (λ node. self.new
            ≡ map.insert self.old id.0 (with_marks (settled place parts node.marks) node)) }
    {
        if let Some(key) = key_at(&self.index, id) {
            settle_node(&mut self.slab, key, place, parts);
        }
    }

    /// Takes the node with this id out.
    pub fn remove(&mut self, id: Id) -> Option<Node>
        requires { IsSome (map.get self.old id.0) }
        ensures value { result ≡ map.get self.old id.0 }
        ensures removed { self.new ≡ map.remove self.old id.0 }
        ensures bound { id.0 < most_components }
    {
        match key_at(&self.index, id) {
            Some(key) => {
                self.index[usize::from(id.0)] = None;
                self.taken.free(id.0);
                self.slab.try_remove(key)
            }
            None => None,
        }
    }
}

// Gives the node under a key another fault.
fn change_fault(slab: &mut Slab<Node>, key: usize, fault: u8)
    requires { ContainsKey slab.old key }
    ensures changed { IfSome (get slab.old key) (λ node. Updates slab.old slab.new key (Some (with_fault fault node))) }
    ensures len { slab_len slab.new ≡ slab_len slab.old }
    ensures capacity { slab.new.capacity ≡ slab.old.capacity }
{
    slab[key].fault = fault;
}

// Marks these parts of the node under a key.
fn touch_node(slab: &mut Slab<Node>, key: usize, parts: Parts)
    requires { ContainsKey slab.old key }
    ensures changed { IfSome (get slab.old key) (λ node.
        Updates slab.old slab.new key (Some (with_marks (touched parts node.marks) node))) }
    ensures len { slab_len slab.new ≡ slab_len slab.old }
    ensures capacity { slab.new.capacity ≡ slab.old.capacity }
{
    slab[key].marks.touch(parts);
}

// Settles these parts of the node under a key for a place.
fn settle_node(slab: &mut Slab<Node>, key: usize, place: u8, parts: Parts)
    requires there { ContainsKey slab.old key }
    requires place { place < 16 }
    ensures changed { IfSome (get slab.old key) (λ node.
        Updates slab.old slab.new key (Some (with_marks (settled place parts node.marks) node))) }
    ensures len { slab_len slab.new ≡ slab_len slab.old }
    ensures capacity { slab.new.capacity ≡ slab.old.capacity }
{
    slab[key].marks.settle(place, parts);
}

// An index in which no id has a key.
fn no_keys(alloc: Global) -> Result<Vec<Option<usize>>, AllocError>
    ensures { IfOk result (λ index. index.items ≡ replicate most_components None) }
{
    let keys: [Option<usize>; MOST_COMPONENTS] = [None; MOST_COMPONENTS];
    Vec::from_slice(alloc, &keys)
}

// The key of an id.
fn key_at(index: &[Option<usize>], id: Id) -> Option<usize>
    ensures { result ≡ slice_index_or index.now id.0 None }
{
    match index.get(usize::from(id.0)) {
        Some(key) => *key,
        None => None,
    }
}

// The last id with a key, or 0.
fn last_kept(index: &[Option<usize>]) -> usize
    requires { length index.now ≡ most_components }
    ensures within { result < most_components }
    ensures there { 0 < result → IsSome (slice_index_or index.now result None) }
    ensures above { (id : ℕ) → result < id → slice_index_or index.now id None ≡ None }
{
    let mut id = index.len();
    while id > 1 {
        id -= 1;
        if index[id].is_some() {
            return id;
        }
    }
    0
}
