//! The record of a disk's calls, in a room that is taken once.
ghost use Rattle.std.specs.Prelude.{◌≡◌, ◌<◌, ◌↔◌, ◌++◌, [], ◌∷◌, true, false, IfOk, IsTrue, sum_by, if◌then◌else◌};
ghost use Rattle.std.specs.Bool.{OnTrue, OnFalse};
ghost use Rattle.disk_model.specs.Recorded.{is_call, with_entry, with_mark};

use sed_value::Memory;
use std::alloc::Global;
use std::marker::Model;

/// A call that was made, or a mark. The bytes of a write stand elsewhere.
#[derive(Clone, Copy, Debug, PartialEq, Eq)]
pub enum Entry {
    Wrote { at: usize, len: usize },
    Synced,
    /// A call that asks, or one that failed before it did anything.
    Other,
    Marked,
}

/// The calls and marks so far. Marks have room beside any number of calls, since two of them never follow each other.
#[derive(Drop)]
pub struct Journal {
    entries: Vec<Entry>,
    calls: usize,
    limit: usize,
    is_marked: bool,
}

impl Model for Journal {
    ghost use Rattle.std.specs.Prelude.{◌≡◌, ◌≤◌, ◌+◌, ◌*◌, sum_by, vec_len, vec_capacity, if◌then◌else◌};
    ghost use Rattle.disk_model.specs.Recorded.{Tape, is_call};

    ghost Value = { Tape };

    ghost view = { λ j. record { entries = j.entries.items; is_marked = j.is_marked; limit = j.limit } };

    ghost invariant = { λ j.
        (j.calls ≡ sum_by is_call j.entries.items)
        × (j.calls ≤ j.limit)
        × (vec_len j.entries + (if j.is_marked then 0 else 1) ≤ 2 * j.calls + 1)
        × (2 * j.limit + 1 ≤ vec_capacity j.entries) };
}

/// The largest limit of a journal, so that its room can be counted.
const LARGEST_LIMIT: usize = 1 << 60;

impl Journal {
    /// No calls, with room for so many.
    pub fn with_room(alloc: Global, limit: usize) -> Result<Journal, Memory>
        ensures { IfOk result (λ j. j ≡ record { entries = []; is_marked = false; limit = limit }) }
    {
        if limit > LARGEST_LIMIT {
            return Err(Memory);
        }
        let entries = Vec::with_capacity(alloc, 2 * limit + 1)?;
        Ok(Journal {
            entries,
            calls: 0,
            limit,
            is_marked: false,
        })
    }

    /// Records a call, if there is room for it.
    pub fn record(&mut self, entry: Entry) -> bool
        requires { is_call entry ≡ 1 }
        ensures done { OnTrue result (self.new ≡ with_entry self.old entry) }
        ensures full { OnFalse result (self.new ≡ self.old) }
        ensures room { IsTrue result ↔ (sum_by is_call self.old.entries < self.old.limit) }
    {
        if self.calls == self.limit {
            return false;
        }
        match self.entries.push(entry) {
            Ok(()) => {
                self.calls += 1;
                self.is_marked = false;
                true
            }
            Err(_) => false,
        }
    }

    /// Records a mark, unless one was made since the last call.
    pub fn mark(&mut self)
        ensures again { IsTrue self.old.is_marked → self.new ≡ self.old }
        ensures first { self.old.is_marked ≡ false → self.new ≡ with_mark self.old }
    {
        if self.is_marked {
            return;
        }
        if self.entries.push(Entry::Marked).is_ok() {
            self.is_marked = true;
        }
    }

    /// How many calls were recorded, marks not among them.
    pub fn calls(&self) -> usize
        ensures { result ≡ sum_by is_call self.now.entries }
    {
        self.calls
    }

    /// The entries.
    pub fn entries(&self) -> &[Entry]
        ensures { result.now ≡ self.now.entries }
    {
        &self.entries
    }
}
