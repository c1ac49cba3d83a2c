//! Records, entry by entry.
ghost use Rattle.std.specs.Prelude.{◌≡◌, ◌≤◌, ◌↔◌, ℕ, List, ◌∷◌, [], length, IfOk, IfErr, IfSome, IsNone, IsOkAnd};
ghost use Rattle.std.specs.Prelude.{IsErrAnd, MatchResult};
ghost use Rattle.replay_log.specs.Entry.{Entry};
ghost use Rattle.replay_log.specs.Reading as reading;
ghost use Rattle.replay_log.specs.Record.{IsRecord, IsRefusedAt};
ghost use Rattle.replay_log.specs.Split.{IsSplit};
ghost use Rattle.replay_log.specs.View.{entry_of};

use crate::event::Event;
use crate::reading::first_entry;
use std::marker::Model;

/// The bytes are no record.
#[derive(Clone, Copy, Debug, PartialEq, Eq)]
pub struct NotARecord {
    /// Where the first entry begins that is cut off or that a record doesn't have; behind the last byte where no end
    /// mark came; or at the first byte that follows an end mark. Counted from 0.
    pub at: usize,
}

/// The entries of a record that are not yet given. It borrows the bytes of the record. Contracts see the list of these
/// entries.
#[derive(Drop)]
pub struct Records<'a> {
    left: &'a [u8],
}

impl<'a> Model for Records<'a> {
    ghost use Rattle.std.specs.Prelude.{List};
    ghost use Rattle.replay_log.specs.Entry.{Entry};
    ghost use Rattle.replay_log.specs.Reading.{entries_of};

    ghost Value = { List Entry };

    ghost view = { λ records. entries_of records.left.now };
}

impl<'a> Records<'a> {
    /// The entries of the record that the bytes are. `NotARecord` comes exactly where they are none. It takes no
    /// memory.
    pub fn open(bytes: &'a [u8]) -> Result<Records<'a>, NotARecord>
        ensures found { IfOk result (λ records. IsRecord bytes.now records) }
        ensures only { (entries : List Entry) → IsRecord bytes.now entries
            → IsOkAnd result (λ records. records ≡ entries) }
        ensures refused { IfErr result (λ fault. IsRefusedAt bytes.now fault.at) }
        ensures refused_comes { (place : ℕ) → IsRefusedAt bytes.now place
            → IsErrAnd result (λ fault. fault.at ≡ place) }
    {
        record_or_place(bytes)
    }

    /// The next entry. None comes exactly where every entry was given. It takes no memory.
    pub fn next(&mut self) -> Option<Event<'a>>
        ensures given { IfSome result (λ event. self.old ≡ entry_of event ∷ self.new) }
        ensures none { IsNone result ↔ (self.old ≡ []) }
        ensures stays { IsNone result → self.new ≡ self.old }
    {
        match first_entry(self.left) {
            Some((event, rest)) => {
                self.left = rest;
                Some(event)
            }
            None => None,
        }
    }
}

// The record, or the place for which there is none.
fn record_or_place<'a>(bytes: &'a [u8]) -> Result<Records<'a>, NotARecord>
    ensures { MatchResult result (λ records. IsRecord bytes.now records) (λ fault. IsRefusedAt bytes.now fault.at) }
{
    let rest = behind_entries(bytes);
    match distance_of_cause(rest) {
        Some(distance) => Err(NotARecord {
            at: bytes.len() - (rest.len() - distance),
        }),
        None => Ok(Records { left: bytes }),
    }
}

// How far into what is behind the entries the cause stands for which there is no record. None where there is none.
#[tactic(auto, unfolding(crate::specs::Reading::distance_at))]
fn distance_of_cause(rest: &[u8]) -> Option<usize>
    ensures is { result ≡ reading.distance_at rest.now }
    ensures within { IfSome result (λ distance. distance ≤ length rest.now) }
{
    match rest {
        [b'z'] => None,
        [b'z', ..] => Some(1),
        _ => Some(0),
    }
}

// What is behind the whole entries that the bytes begin with.
fn behind_entries(bytes: &[u8]) -> &[u8]
    ensures { IsSplit bytes.now result.now }
{
    let mut left = bytes;
    'entries: loop {
        match first_entry(left) {
            Some((_, rest)) => left = rest,
            None => return left,
        }
    }
}
