//! Which rows are held, and by whom.
ghost use Rattle.std.specs.Prelude.{◌≡◌, ◌≢◌, ◌==◌, ◌<◌, ◌+◌, ℕ, true, false, IfOk};
ghost use Rattle.std.specs.Prelude.{if◌then◌else◌, length, replicate, slice_index};
ghost use Rattle.sub_table.specs.Holders.{is_member, IsMoved};

use crate::bits::Bits;
use sed_value::Memory;
use std::alloc::{AllocError, Global};
use std::marker::Model;

// How many numbers there are.
const NUMBERS: usize = 65536;

/// Which of 65,536 numbers have subscribed, and the row of each that has. The rows are numbered from 0 on without a
/// gap: as many are held as numbers have subscribed, each by one of them.
#[derive(Drop)]
pub struct Holders {
    subscribed: Bits,
    // The row of each number; what stands there says nothing where it has not subscribed.
    rows: Vec<u16>,
    // The number that holds each row. Room for all is reserved and not touched.
    numbers: Vec<u16>,
}

impl Model for Holders {
    ghost use Rattle.std.specs.Prelude.{length};
    ghost use Rattle.std.specs.Vec.{vec_capacity};
    ghost use Rattle.sub_table.specs.Holders.{Held, AreInverse};

    ghost Value = { Held };

    ghost view = { λ h. record { words = h.subscribed; rows = h.rows.items; count = length h.numbers.items } };

    ghost invariant = { λ h. AreInverse h.subscribed h.rows.items h.numbers.items (vec_capacity h.numbers) };
}

impl Holders {
    /// None has subscribed.
    pub fn new(alloc: Global) -> Result<Holders, Memory>
        ensures none { IfOk result (λ held. (number : ℕ) → is_member held.words number ≡ false) }
        ensures count { IfOk result (λ held. held.count ≡ 0) }
    {
        let subscribed = Bits::new(alloc)?;
        let rows = no_rows(alloc, NUMBERS)?;
        let numbers = Vec::with_capacity(alloc, NUMBERS)?;
        Ok(Holders {
            subscribed,
            rows,
            numbers,
        })
    }

    /// Whether a number has subscribed.
    pub fn contains(&self, number: usize) -> bool
        requires { number < 65536 }
        ensures { result ≡ is_member self.now.words number }
    {
        self.subscribed.contains(number)
    }

    /// The bits of 64 numbers from this many times 64 on.
    pub fn word(&self, at: usize) -> u64
        requires { at < 1024 }
        ensures { result ≡ slice_index self.now.words at }
    {
        self.subscribed.word(at)
    }

    /// The row of a number that has subscribed. No other number holds it.
    pub fn row(&self, number: usize) -> usize
        requires few { number < 65536 }
        requires subscribed { is_member self.now.words number ≡ true }
        ensures same { result ≡ slice_index self.now.rows number }
        ensures bound { result < self.now.count }
        ensures apart { (other : ℕ) → is_member self.now.words other ≡ true → other ≢ number →
            slice_index self.now.rows other ≢ result }
    {
        usize::from(self.rows[number])
    }

    /// A number that has not subscribed does, and holds a new row behind the others.
    pub fn insert(&mut self, number: usize)
        requires few { number < 65536 }
        requires fresh { is_member self.old.words number ≡ false }
        ensures same { is_member self.new.words number ≡ true }
        ensures row { slice_index self.new.rows number ≡ self.old.count }
        ensures others { (other : ℕ) → other ≢ number →
            is_member self.new.words other ≡ is_member self.old.words other }
        ensures kept { (other : ℕ) → other ≢ number →
            slice_index self.new.rows other ≡ slice_index self.old.rows other }
        ensures bound { (other : ℕ) → is_member self.old.words other ≡ true →
            slice_index self.old.rows other < self.old.count }
        ensures count { self.new.count ≡ self.old.count + 1 }
        ensures room { self.old.count < 65536 }
    {
        self.rows[number] = self.numbers.len() as u16;
        self.numbers.push_reserved(number as u16);
        self.subscribed.insert(number);
    }

    /// A number that has subscribed has not any more. Whoever holds the last row comes to hold the one that is free
    /// now, which is the result.
    pub fn remove(&mut self, number: usize) -> usize
        requires few { number < 65536 }
        requires subscribed { is_member self.old.words number ≡ true }
        ensures freed { result ≡ slice_index self.old.rows number }
        ensures bound { result < self.old.count }
        ensures same { is_member self.new.words number ≡ false }
        ensures others { (other : ℕ) → other ≢ number →
            is_member self.new.words other ≡ is_member self.old.words other }
        ensures moved { (other : ℕ) → other ≢ number → is_member self.old.words other ≡ true →
            IsMoved result self.old.count (slice_index self.old.rows other) (slice_index self.new.rows other) }
        ensures count { self.new.count + 1 ≡ self.old.count }
    {
        let row = self.rows[number];
        let last = self.numbers[self.numbers.len() - 1];
        self.rows[usize::from(last)] = row;
        let _removed = self.numbers.swap_remove(usize::from(row));
        self.subscribed.remove(number);
        usize::from(row)
    }
}

// A row for each number.
fn no_rows(alloc: Global, count: usize) -> Result<Vec<u16>, AllocError>
    ensures { IfOk result (λ rows. rows.items ≡ replicate count 0) }
{
    vec![in alloc; 0; count]
}
