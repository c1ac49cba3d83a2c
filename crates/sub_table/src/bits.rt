//! Bits of subscribers.
ghost use Rattle.std.specs.Prelude.{◌≡◌, ◌≢◌, ◌<◌, ◌/◌, ◌%◌, ◌==◌, ℕ, true, false, IfOk, length, replicate};
ghost use Rattle.std.specs.Prelude.{slice_index};
ghost use Rattle.sub_table.specs.Holders.{is_member};

use sed_value::Memory;
use std::alloc::{AllocError, Global};
use std::marker::Model;

// How many words there are.
const WORDS: usize = 1024;

/// A bit for each of 65,536 subscribers, by their numbers, in words of 64. Contracts see the words.
#[derive(Drop)]
pub struct Bits {
    words: Vec<u64>,
}

impl Model for Bits {
    ghost use Rattle.std.specs.Prelude.{◌≡◌, ℕ, List, length};

    ghost Value = { List ℕ };

    ghost view = { λ b. b.words.items };

    ghost invariant = { λ b. length b.words.items ≡ 1024 };
}

impl Bits {
    /// None is set.
    pub fn new(alloc: Global) -> Result<Bits, Memory>
        ensures none { IfOk result (λ bits. (number : ℕ) → is_member bits number ≡ false) }
        ensures many { IfOk result (λ bits. length bits ≡ 1024) }
    {
        let words = no_words(alloc, WORDS)?;
        Ok(Bits { words })
    }

    /// Whether that of a number is set.
    pub fn contains(&self, number: usize) -> bool
        requires { number < 65536 }
        ensures { result ≡ is_member self.now number }
    {
        (self.words[number / 64] >> (number % 64)) & 1 == 1
    }

    /// The word with this place: the bit of a number is that of its remainder by 64 in the word of its quotient.
    pub fn word(&self, at: usize) -> u64
        requires { at < 1024 }
        ensures { result ≡ slice_index self.now at }
    {
        self.words[at]
    }

    /// Sets that of a number.
    pub fn insert(&mut self, number: usize)
        requires { number < 65536 }
        ensures same { is_member self.new number ≡ true }
        ensures others { (other : ℕ) → other ≢ number → is_member self.new other ≡ is_member self.old other }
        ensures many { length self.new ≡ 1024 }
    {
        set(&mut self.words, number);
    }

    /// Clears that of a number.
    pub fn remove(&mut self, number: usize)
        requires { number < 65536 }
        ensures same { is_member self.new number ≡ false }
        ensures others { (other : ℕ) → other ≢ number → is_member self.new other ≡ is_member self.old other }
        ensures many { length self.new ≡ 1024 }
    {
        clear(&mut self.words, number);
    }
}

// Sets the bit of a number.
fn set(words: &mut [u64], number: usize)
    requires { number / 64 < length words.old }
    ensures same { is_member words.new number ≡ true }
    ensures others { (other : ℕ) → other ≢ number → is_member words.new other ≡ is_member words.old other }
{
    words[number / 64] |= 1 << (number % 64);
}

// Clears the bit of a number.
fn clear(words: &mut [u64], number: usize)
    requires { number / 64 < length words.old }
    ensures same { is_member words.new number ≡ false }
    ensures others { (other : ℕ) → other ≢ number → is_member words.new other ≡ is_member words.old other }
{
    words[number / 64] &= !(1 << (number % 64));
}

// Words of which no bit is set.
fn no_words(alloc: Global, count: usize) -> Result<Vec<u64>, AllocError>
    ensures { IfOk result (λ words. words.items ≡ replicate count 0) }
{
    vec![in alloc; 0; count]
}
