//! Marks of what may have changed of a component.
ghost use Rattle.std.specs.Prelude.{◌≡◌, ◌==◌, ◌<◌, ℕ, if◌then◌else◌, map as map_list, length, slice_set};
ghost use Rattle.node_table.specs.Marks.{all_parts, mask_of, parts_at, parts_in, tree_parts, value_parts};
ghost use Rattle.node_table.specs.Marks.{with_parts as with_more, without_parts as without_these};

use sed_value::limits::MOST_SESSIONS;
use std::marker::Model;

/// Some of the parts of a component that events tell of: its type, name, parent and children; its
/// config values; its runtime values.
#[derive(Clone, Copy, Debug, PartialEq, Eq)]
pub struct Parts {
    pub tree: bool,
    pub config: bool,
    pub runtime: bool,
}

impl Parts {
    /// All of them.
    pub fn all() -> Parts
        ensures { result ≡ all_parts }
    {
        Parts {
            tree: true,
            config: true,
            runtime: true,
        }
    }

    /// The one that tells of the tree.
    pub fn of_tree() -> Parts
        ensures { result ≡ tree_parts }
    {
        Parts {
            tree: true,
            config: false,
            runtime: false,
        }
    }

    /// The two that tell of values.
    pub fn of_values() -> Parts
        ensures { result ≡ value_parts }
    {
        Parts {
            tree: false,
            config: true,
            runtime: true,
        }
    }

    /// The parts whose bits are set: 1, 2 and 4 in their order. Higher bits say nothing.
    pub fn of_mask(mask: u8) -> Parts
        ensures { result ≡ parts_in mask }
    {
        Parts {
            tree: mask % 2 == 1,
            config: mask / 2 % 2 == 1,
            runtime: mask / 4 % 2 == 1,
        }
    }

    /// Their bits.
    pub fn mask(self) -> u8
        ensures { result ≡ mask_of self }
    {
        bit(self.tree, 1) + bit(self.config, 2) + bit(self.runtime, 4)
    }

    // With these besides.
    fn with(self, more: Parts) -> Parts
        ensures { result ≡ with_more more self }
    {
        Parts {
            tree: self.tree || more.tree,
            config: self.config || more.config,
            runtime: self.runtime || more.runtime,
        }
    }

    // Without these.
    fn without(self, fewer: Parts) -> Parts
        ensures { result ≡ without_these fewer self }
    {
        Parts {
            tree: self.tree && !fewer.tree,
            config: self.config && !fewer.config,
            runtime: self.runtime && !fewer.runtime,
        }
    }
}

// A bit, where it is set.
fn bit(set: bool, value: u8) -> u8
    ensures { result ≡ (if set then value else 0) }
{
    if set { value } else { 0 }
}

/// Which parts of a component may have changed since they were settled, for each of 16 session
/// places. Contracts see them in a list.
#[derive(Drop)]
pub struct Marks {
    places: [Parts; 16],
}

impl Model for Marks {
    ghost use Rattle.std.specs.Prelude.{◌≡◌, List, length};
    ghost use Rattle.node_table.specs.declared.marks.Parts.{Parts as Kept};

    ghost Value = { List Kept };

    ghost view = { λ m. m.places };

    ghost invariant = { λ m. length m.places ≡ 16 };
}

impl Marks {
    /// All set, for every place.
    pub fn all() -> Marks
        ensures { (place : ℕ) → parts_at result place ≡ all_parts }
    {
        Marks {
            places: [Parts::all(); 16],
        }
    }

    /// Those of a place.
    pub fn at(&self, place: u8) -> Parts
        requires { place < 16 }
        ensures those { result ≡ parts_at self.now place }
        ensures many { length self.now ≡ 16 }
    {
        self.places[usize::from(place)]
    }

    /// Sets these for every place.
    pub fn touch(&mut self, parts: Parts)
        ensures { self.new ≡ map_list (with_more parts) self.old }
    {
        for place in 0..MOST_SESSIONS {
            self.places[place] = self.places[place].with(parts);
        }
    }

    /// Clears these for a place.
    pub fn settle(&mut self, place: u8, parts: Parts)
        requires { place < 16 }
        ensures { self.new ≡ slice_set self.old place (without_these parts (parts_at self.old place)) }
    {
        let at = usize::from(place);
        self.places[at] = self.places[at].without(parts);
    }
}
