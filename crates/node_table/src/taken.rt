//! Which ids are taken.
ghost use Rattle.std.specs.Prelude.{◌≡◌, ◌≢◌, ◌<◌, ◌/◌, ◌%◌, ◌≤◌, ℕ, true, false, slice_index, length};
ghost use Rattle.std.specs.Int.{bit_at};
ghost use Rattle.node_table.specs.Limits.{most_components};
ghost use Rattle.node_table.specs.Taken.{is_taken};

use std::marker::Model;

/// Which of 4,096 ids are taken. Contracts see it by `is_taken`.
///
/// The least that is free is found in at most 64 steps.
#[derive(Drop)]
pub struct Taken {
    words: [u64; 64],
}

impl Model for Taken {
    ghost use Rattle.std.specs.Prelude.{ℕ, List};

    ghost Value = { List ℕ };

    ghost view = { λ t. t.words };
}

impl Taken {
    /// None is taken.
    pub fn new() -> Taken
        ensures { (id : ℕ) → is_taken result id ≡ false }
    {
        let words = [0; 64];
        Taken { words }
    }

    /// Takes an id.
    pub fn take(&mut self, id: u16)
        requires { id < most_components }
        ensures same { is_taken self.new id ≡ true }
        ensures others { (other : ℕ) → other ≢ id → is_taken self.new other ≡ is_taken self.old other }
    {
        let word = usize::from(id) / 64;
        let bit = u32::from(id) % 64;
        self.words[word] |= 1 << bit;
    }

    /// Gives an id back.
    pub fn free(&mut self, id: u16)
        requires { id < most_components }
        ensures same { is_taken self.new id ≡ false }
        ensures others { (other : ℕ) → other ≢ id → is_taken self.new other ≡ is_taken self.old other }
    {
        let word = usize::from(id) / 64;
        let bit = u32::from(id) % 64;
        self.words[word] &= !(1 << bit);
    }

    /// The least id that is free, where one is.
    pub fn first_free(&self) -> u16
        requires { (id : ℕ) × (id < most_components) × (is_taken self.now id ≡ false) }
        ensures free { is_taken self.now result ≡ false }
        ensures least { (id : ℕ) → id < result → is_taken self.now id ≡ true }
        ensures bound { result < most_components }
    {
        let word = first_open(&self.words);
        let bit = lowest_open(self.words[word]);
        (word * 64 + bit as usize) as u16
    }
}

// The first word that isn't all ones, or the length.
fn first_open(words: &[u64]) -> usize
    ensures within { result ≤ length words.now }
    ensures open { result < length words.now → slice_index words.now result ≢ 18446744073709551615 }
    ensures below { (k : ℕ) → k < result → slice_index words.now k ≡ 18446744073709551615 }
{
    for (at, word) in words.iter().enumerate() {
        if *word != u64::MAX {
            return at;
        }
    }
    words.len()
}

// The place of the lowest 0 of a word that isn't all ones.
fn lowest_open(word: u64) -> u32
    requires { word ≢ 18446744073709551615 }
    ensures bound { result < 64 }
    ensures open { bit_at word result ≡ 0 }
    ensures below { (k : ℕ) → k < result → bit_at word k ≡ 1 }
{
    word.trailing_ones()
}
