//! The first ones of a list that grows, in a room that is taken once.
ghost use Rattle.std.specs.Prelude.{◌≡◌, ◌↔◌, [], ◌∷◌, IfOk, IsTrue};
ghost use Rattle.sed_outside.specs.Told.{told_none, Adds, HasRoom, with_item, with_more};

use sed_value::Memory;
use std::alloc::Global;
use std::marker::Model;

/// The first ones of a list, how many of them there are at most, and whether the list has more. Contracts see all
/// three.
#[derive(Drop)]
pub struct FirstOnes<T: Drop> {
    first: Vec<T>,
    room: usize,
    more: bool,
}

impl<T: Drop> Model for FirstOnes<T> {
    ghost use Rattle.std.specs.Prelude.{◌≤◌, vec_len, vec_capacity};
    ghost use Rattle.sed_outside.specs.Told.{Bounded};

    ghost Value = { Bounded T };

    ghost view = { λ f. record { told = record { first = f.first.items; more = f.more }; room = f.room } };

    ghost invariant = { λ f. (vec_len f.first ≤ f.room) × (f.room ≤ vec_capacity f.first) };
}

impl<T: Drop> FirstOnes<T> {
    /// A list that has nothing yet, with room for so many. It takes all its memory here.
    pub fn new(alloc: Global, room: usize) -> Result<FirstOnes<T>, Memory>
        ensures { IfOk result (λ ones. ones ≡ record { told = told_none; room = room }) }
    {
        match Vec::with_capacity(alloc, room) {
            Ok(first) => Ok(FirstOnes {
                first,
                room,
                more: false,
            }),
            Err(_) => Err(Memory),
        }
    }

    /// The first ones.
    pub fn first(&self) -> &[T]
        ensures { result.now ≡ self.now.told.first }
    {
        &self.first
    }

    /// Whether the list has more.
    pub fn has_more(&self) -> bool
        ensures { result ≡ self.now.told.more }
    {
        self.more
    }

    /// Whether one more can be told.
    pub fn has_room(&self) -> bool
        ensures { IsTrue result ↔ HasRoom self.now }
    {
        !self.more && self.first.len() < self.room
    }

    /// Puts one more behind the others. It takes no memory.
    #[tactic(auto, using(crate::proofs::ToldLemmas::adds_item))]
    pub fn put(&mut self, item: T)
        requires { HasRoom self.old }
        ensures item { self.new ≡ with_item self.old item }
        ensures adds { Adds self.old.told self.new.told (item ∷ []) }
    {
        self.first.push_reserved(item);
    }

    /// Lets one more pass that is not told.
    pub fn pass(&mut self)
        ensures more { self.new ≡ with_more self.old }
        ensures adds { (item : T) → Adds self.old.told self.new.told (item ∷ []) }
    {
        self.more = true;
    }
}
