//! The children of a component, in place.
ghost use Rattle.std.specs.Prelude.{◌≡◌, ◌<◌, ◌≤◌, [], ◌∷◌, ◌++◌, length, slice_get};
ghost use Rattle.node_table.specs.Limits.{most_children};

use sed_value::limits::MOST_CHILDREN;
use std::marker::Model;

/// The ids of a component's children, in their order. Contracts see them as a list.
///
/// There is room for all that a component may have, so none of its calls takes memory.
#[derive(Drop)]
pub struct Children {
    ids: [u16; MOST_CHILDREN],
    len: usize,
}

impl Model for Children {
    ghost use Rattle.std.specs.Prelude.{ℕ, ◌≤◌, List, take, length};
    ghost use Rattle.node_table.specs.Limits.{most_children};

    ghost Value = { List ℕ };

    ghost view = { λ c. take c.len c.ids };

    ghost invariant = { λ c. c.len ≤ most_children };
}

impl Children {
    /// None.
    pub fn new() -> Children
        ensures { result ≡ [] }
    {
        Children {
            ids: [0; MOST_CHILDREN],
            len: 0,
        }
    }

    /// How many there are.
    pub fn len(&self) -> usize
        ensures same { result ≡ length self.now }
        ensures most { length self.now ≤ most_children }
    {
        self.len
    }

    /// The one at a place, counted from 0: none exactly where there are no more.
    pub fn get(&self, n: usize) -> Option<u16>
        ensures { result ≡ slice_get self.now n }
    {
        self.as_slice().get(n).copied()
    }

    /// All of them.
    pub fn as_slice(&self) -> &[u16]
        ensures same { result.now ≡ self.now }
        ensures most { length self.now ≤ most_children }
    {
        &self.ids[..self.len]
    }

    /// Puts one behind the others.
    pub fn push(&mut self, id: u16)
        requires { length self.old < most_children }
        ensures { self.new ≡ self.old ++ id ∷ [] }
    {
        self.ids[self.len] = id;
        self.len += 1;
    }
}
