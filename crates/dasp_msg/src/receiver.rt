//! The receiving side of a session: which messages are new.
ghost use Rattle.std.specs.Prelude.{◌≡◌, ℕ, ◌+◌, ◌<◌, ◌&&◌, ◌||◌, nat_lt, nat_le, List, [], Some};
ghost use Rattle.dasp_msg.specs.Numbers.{distance};
ghost use Rattle.dasp_msg.specs.Acks.{ack_of, SaysMore};
ghost use Rattle.dasp_msg.specs.Receiving.{ReceivesLike};
ghost use Rattle.dasp_msg.specs.TakenIndexes as indexes;
ghost use Rattle.dasp_msg.specs.TakenIndexes.{taken_as, after_take, first_gap, answer_at, with_new};

use crate::outgoing::WINDOW;
use std::marker::Model;

// Half of all numbers: those that stand for an index below the gap.
const HALF: u16 = 0x8000;

/// What a message is to a receiver, by its number.
#[derive(Clone, Copy, Debug, PartialEq, Eq)]
pub enum Taken {
    /// Its index was not taken before and is now: the message is to be delivered.
    New,
    /// Its index was taken before.
    Repeat,
    /// Its number stands for no index, or for one that is 31 or more above the first gap.
    Outside,
}

/// Knows which indexes were taken. Takes no memory.
#[derive(Clone, Copy, Debug)]
pub struct Receiver {
    // The number of the least index not taken.
    gap: u16,
    // Bit j says whether the index j above the gap was taken, so bit 0 is never set.
    bits: u32,
    // Whether the gap has reached 32,768. Before that some numbers stand for no index.
    far: bool,
}

impl Model for Receiver {
    ghost use Rattle.std.specs.Prelude.{◌<◌, ◌^◌};
    ghost use Rattle.dasp_msg.specs.Receiving.{GapBits};

    ghost Value = { GapBits };

    ghost view = { λ r. record { gap = r.gap; bits = r.bits; far = r.far } };

    ghost invariant = { λ r. r.bits < 2 ^ 31 };

    ghost inverse = { λ kept. record { gap = kept.gap; bits = kept.bits; far = kept.far } };
}

impl Receiver {
    /// A receiver that has taken nothing.
    pub fn new() -> Receiver
        ensures { ReceivesLike result [] }
    {
        Receiver {
            gap: 0,
            bits: 0,
            far: false,
        }
    }

    /// Takes the message of this number if it is new, and says what it is. Each index is new once.
    pub fn take(&mut self, number: u16) -> Taken
        ensures answer { (taken : List ℕ) → ReceivesLike self.old taken → result ≡ taken_as taken number }
        ensures after { (taken : List ℕ) → ReceivesLike self.old taken
            → ReceivesLike self.new (after_take taken number) }
    {
        let ahead = number.wrapping_sub(self.gap);
        if ahead < WINDOW {
            return self.take_ahead(ahead);
        }
        if is_behind(self.far, self.gap, number) {
            return Taken::Repeat;
        }
        Taken::Outside
    }

    // Takes the index that is so far above the first gap.
    fn take_ahead(&mut self, ahead: u16) -> Taken
        requires { ahead < 31 }
        ensures answer { (taken : List ℕ) → ReceivesLike self.old taken
            → result ≡ answer_at taken (Some (first_gap taken + ahead)) }
        ensures after { (taken : List ℕ) → ReceivesLike self.old taken
            → ReceivesLike self.new (with_new taken (Some (first_gap taken + ahead))) }
    {
        if (self.bits >> ahead) & 1 == 1 {
            return Taken::Repeat;
        }
        let bits = self.bits | (1 << ahead);
        let run = bits.trailing_ones();
        self.bits = bits >> run;
        self.gap = self.gap.wrapping_add(run as u16);
        self.far = has_come_far(self.far, self.gap);
        Taken::New
    }

    /// What to send with each message: the number of the last index below the first gap, and four bytes whose bit j,
    /// byte by byte and lowest first, says whether the index j above the first gap was taken.
    pub fn ack(&self) -> (u16, [u8; 4])
        ensures number { (taken : List ℕ) → ReceivesLike self.now taken → result.0 ≡ ack_of taken }
        ensures more { (taken : List ℕ) → ReceivesLike self.now taken → SaysMore taken result.1 }
    {
        (self.gap.wrapping_sub(1), self.bits.to_le_bytes())
    }

    /// Whether an index above the first gap was taken: only then do the four bytes say anything.
    pub fn is_ahead(&self) -> bool
        ensures { (taken : List ℕ) → ReceivesLike self.now taken → result ≡ indexes.is_ahead taken }
    {
        self.bits != 0
    }
}

// Whether a number stands for an index below the gap of this number.
fn is_behind(far: bool, gap: u16, number: u16) -> bool
    ensures { result ≡ (nat_le 32768 (distance gap number) && (far || nat_lt number gap)) }
{
    number.wrapping_sub(gap) >= HALF && (far || number < gap)
}

// Whether the gap has reached 32,768, where it had before or has this number now.
fn has_come_far(far: bool, gap: u16) -> bool
    ensures { result ≡ (far || nat_le 32768 gap) }
{
    far || gap >= HALF
}
