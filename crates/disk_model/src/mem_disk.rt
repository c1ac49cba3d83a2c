//! A disk in memory, which records its calls.
ghost use Rattle.std.specs.Prelude.{◌≡◌, ◌+◌, ◌≤◌, ◌<◌, ◌++◌, ◌&&◌, ℕ, true, false, not, [], length, take, drop};
ghost use Rattle.std.specs.Prelude.{sum_by, IsTrue, IsOk, IsErr, is_ok, IfOk, OnOk, if◌then◌else◌};
ghost use Rattle.std.specs.Bool.{OnTrue, OnFalse};
ghost use Rattle.sed_outside.specs.Cause.{HasCause};
ghost use Rattle.sed_outside.specs.Failing.{begins_with, FailsNow, after_call};
ghost use Rattle.disk_model.specs.Disk.{Elapses, Keeps, Writes, Syncs, MarksUp, SyncsUp, longest_name};
ghost use Rattle.sed_outside.specs.Counts.{one_more};
ghost use Rattle.disk_model.specs.Disk.{largest_store};
ghost use Rattle.disk_model.specs.Written.{written};
ghost use Rattle.disk_model.specs.Replay.{calls_by, HasRoom, HasBytes, replayed, replayed_is_disk};
ghost use Rattle.disk_model.specs.Replay.{wrote, synced, other};
ghost use Rattle.disk_model.specs.Recorded.{is_call, with_entry, HasEntry, Tries, FitsLog};
ghost use Rattle.disk_model.specs.Records.{Records, RecordsMark};
ghost use Rattle.disk_model.specs.Calls.{IsCall};
ghost use Rattle.disk_model.specs.Left.{alike, image_left, IsMomentOf};

use crate::buffer::Buffer;
use crate::disk::{Disk, DiskFault};
use crate::journal::{Entry, Journal};
use crate::left::{self, Fill};
use sed_outside::FailingCalls;
use sed_value::Memory;
use std::alloc::Global;
use std::marker::Model;

/// The longest name that is attached, in bytes.
const LONGEST_NAME: usize = 4096;

/// A disk in memory, with one file under every name. It tells all of its meanings.
///
/// Its room bounds the size of the file, and by the same number the sum of the lengths of all writes. It records a
/// number of calls other than `acknowledge`, each as what it did. A write past the room fails and is recorded as a call
/// that did nothing, as each call is that only asks. A call past the record fails and is not recorded; two marks with
/// only such calls between them are one. A call that fails by its number is recorded; where it writes, it has written.
#[derive(Drop)]
pub struct MemDisk {
    first: Vec<u8>,
    file: Buffer,
    log: Buffer,
    journal: Journal,
    calls: FailingCalls,
    name: Buffer,
    attaches: u64,
    attached_at: u64,
    faults: u64,
    made: u64,
}

impl Model for MemDisk {
    ghost use Rattle.disk_model.specs.Replay.{InMemory};
    ghost use Rattle.disk_model.specs.Recorded.{calls_of, IsRecord};

    ghost Value = { InMemory };

    ghost view = { λ d. record {
      history = record {
        first = d.first.items;
        calls = calls_of d.log.bytes d.journal.entries;
        is_marked = d.journal.is_marked;
        attached = record { count = d.attaches; name = d.name.bytes; at = d.attached_at };
        faults = d.faults;
        made = d.made;
      };
      plan = d.calls;
      bounds = record { room = d.log.room; limit = d.journal.limit };
    } };

    ghost invariant = { λ d. IsRecord d.first.items d.file d.log d.name d.journal.entries };
}

impl MemDisk {
    /// A disk whose file holds these bytes, all of them safe from a crash, with no call and no fault yet. `fails` has
    /// the numbers, from 0, of the calls other than `acknowledge` that fail. It takes all its memory here.
    pub fn new(
        alloc: Global,
        bytes: Vec<u8>,
        room: usize,
        calls: usize,
        fails: Vec<usize>,
    ) -> Result<MemDisk, Memory>
        ensures { IfOk result (λ disk. disk ≡ record {
          history = record {
            first = bytes.items;
            calls = [];
            is_marked = false;
            attached = record { count = 0; name = []; at = 0 };
            faults = 0;
            made = 0;
          };
          plan = begins_with fails.items;
          bounds = record { room = room; limit = calls };
        }) }
    {
        let mut file = Buffer::with_room(alloc, room.max(bytes.len()))?;
        file.set(&bytes);
        Ok(MemDisk {
            first: bytes,
            file,
            log: Buffer::with_room(alloc, room)?,
            journal: Journal::with_room(alloc, calls)?,
            calls: FailingCalls::new(fails),
            name: Buffer::with_room(alloc, LONGEST_NAME)?,
            attaches: 0,
            attached_at: 0,
            faults: 0,
            made: 0,
        })
    }

    /// What a read gives.
    pub fn content(&self) -> &[u8]
        ensures { result.now ≡ (⟦<MemDisk as Disk>⟧.meaning self.now).content }
    {
        self.file.bytes()
    }

    /// How many calls other than `acknowledge` were recorded.
    pub fn calls(&self) -> usize
        ensures { result ≡ sum_by calls_by self.now.history.calls }
    {
        self.journal.calls()
    }

    /// One image that a crash within the recorded call of this number, from 0, may leave: each range that waits for a
    /// sync then, the call's own among them, is filled in this way.
    pub fn left(&self, call: usize, fill: Fill) -> Result<Vec<u8>, Memory>
        requires { call < sum_by calls_by self.now.history.calls }
        ensures image { IfOk result (λ image. image.items
            ≡ image_left fill (alike self.now.history.first) self.now.history.calls call) }
        ensures left { IfOk result (λ image. (u : ℕ) × IsMomentOf self.now.history.calls call u
            × (⟦<MemDisk as Disk>⟧.meaning self.now).leaves u image.items) }
    {
        let alloc = *self.first.allocator();
        let entries = self.journal.entries();
        left::image_of(alloc, &self.first, self.log.bytes(), entries, call, fill)
    }

    // A call that only asks.
    fn ask(&mut self) -> Result<(), DiskFault>
        ensures keeps { Keeps (replayed self.old.history) (replayed self.new.history) }
        ensures attached { self.new.history.attached ≡ self.old.history.attached }
        ensures call { IsCall (IsErr result) 0 self.old self.new }
        ensures unmarked { OnOk result (self.new.history.is_marked ≡ false) }
        ensures fits { (FailsNow self.old.plan → ⊥) → HasRoom self.old → IsOk result }
        ensures records { Records self.old self.new other }
    {
        self.made = self.made.saturating_add(1);
        let done = record_call(&mut self.calls, &mut self.journal, Entry::Other);
        answer(done, &mut self.faults)
    }
}

// What a call answers. One that isn't done is a fault that is counted.
fn answer(done: bool, faults: &mut u64) -> Result<(), DiskFault>
    ensures done { is_ok result ≡ done }
    ensures cause { HasCause faults.old faults.new (IsErr result) }
{
    if done {
        return Ok(());
    }
    *faults = faults.saturating_add(1);
    Err(DiskFault::Failed)
}

// Whether a write is done: it was written, and does not fail by its number.
fn is_done(written: bool, fails: bool) -> bool
    ensures { result ≡ (written && not fails) }
{
    written && !fails
}

// Records a call as this, or as failed where it fails by its number. Answers whether it is done.
fn record_call(calls: &mut FailingCalls, journal: &mut Journal, done: Entry) -> bool
    requires { is_call done ≡ 1 }
    ensures done { OnTrue result (journal.new ≡ with_entry journal.old done) }
    ensures failed { OnFalse result (Tries journal.old journal.new Entry.Other) }
    ensures limit { journal.new.limit ≡ journal.old.limit }
    ensures calls { calls.new ≡ after_call calls.old }
    ensures planned { FailsNow calls.old → result ≡ false }
    ensures fits { (FailsNow calls.old → ⊥) → HasEntry journal.old → IsTrue result }
    ensures full { IsTrue result → HasEntry journal.old }
{
    if calls.fails_now() {
        let _ = journal.record(Entry::Other);
        return false;
    }
    journal.record(done)
}

// Records a write and does it. Where the room or the record is full it is not done.
fn record_write(
    file: &mut Buffer,
    log: &mut Buffer,
    journal: &mut Journal,
    at: u64,
    bytes: &[u8],
) -> bool
    requires inside { at + length bytes.now ≤ largest_store }
    requires rooms { log.old.room ≤ file.old.room }
    ensures journal { OnTrue result (journal.new ≡ with_entry journal.old (Entry.Wrote at (length bytes.now))) }
    ensures file { OnTrue result (file.new ≡ record {
      bytes = written file.old.bytes at bytes.now;
      room = file.old.room;
    }) }
    ensures log { OnTrue result (log.new ≡ record { bytes = log.old.bytes ++ bytes.now; room = log.old.room }) }
    ensures failed { OnFalse result (Tries journal.old journal.new Entry.Other) }
    ensures same { OnFalse result ((file.new ≡ file.old) × (log.new ≡ log.old)) }
    ensures limit { journal.new.limit ≡ journal.old.limit }
    ensures room { log.new.room ≡ log.old.room }
    ensures fits { FitsLog log.old at (length bytes.now) → HasEntry journal.old → IsTrue result }
    ensures full { IsTrue result → HasEntry journal.old }
    ensures past { IsTrue result → FitsLog log.old at (length bytes.now) }
{
    let start = at as usize;
    let end = start + bytes.len();
    if end > log.room() || bytes.len() > log.room() - log.len() {
        let _ = journal.record(Entry::Other);
        return false;
    }
    let len = bytes.len();
    if !journal.record(Entry::Wrote { at: start, len }) {
        return false;
    }
    log.append(bytes);
    file.put(start, bytes);
    true
}

impl Disk for MemDisk {
    ghost meaning = { λ d. replayed d.history };

    ghost is_disk = { λ d. replayed_is_disk d.history };

    /// As every attach, and: the call is counted. One whose number is among those that fail is a fault, and any other
    /// is done where there is room for it in the record. So are the calls below.
    fn attach(&mut self, name: &str) -> Result<(), DiskFault>
        requires { length name.now ≤ longest_name }
        ensures attached { self.new.history.attached ≡ record {
          count = one_more self.old.history.attached.count;
          name = name.now;
          at = self.old.history.made;
        } }
        ensures keeps { Keeps (replayed self.old.history) (replayed self.new.history) }
        ensures call { IsCall (IsErr result) 0 self.old self.new }
        ensures unmarked { OnOk result (self.new.history.is_marked ≡ false) }
        ensures fits { (FailsNow self.old.plan → ⊥) → HasRoom self.old → IsOk result }
        ensures records { Records self.old self.new other }
    {
        self.attaches = self.attaches.saturating_add(1);
        self.attached_at = self.made;
        self.name.set(name.as_bytes());
        self.ask()
    }

    fn size(&mut self) -> Result<u64, DiskFault>
        ensures size { IfOk result (λ n. n ≡ length (replayed self.old.history).content) }
        ensures keeps { Keeps (replayed self.old.history) (replayed self.new.history) }
        ensures attached { self.new.history.attached ≡ self.old.history.attached }
        ensures call { IsCall (IsErr result) 0 self.old self.new }
        ensures unmarked { OnOk result (self.new.history.is_marked ≡ false) }
        ensures fits { (FailsNow self.old.plan → ⊥) → HasRoom self.old → IsOk result }
        ensures records { Records self.old self.new other }
    {
        self.ask()?;
        Ok(self.file.len() as u64)
    }

    fn read(&mut self, at: u64, into: &mut [u8]) -> Result<(), DiskFault>
        requires { at + length into.old ≤ length (replayed self.old.history).content }
        ensures bytes { OnOk result (into.new ≡ take (length into.old) (drop at (replayed self.old.history).content)) }
        ensures keeps { Keeps (replayed self.old.history) (replayed self.new.history) }
        ensures attached { self.new.history.attached ≡ self.old.history.attached }
        ensures call { IsCall (IsErr result) 0 self.old self.new }
        ensures unmarked { OnOk result (self.new.history.is_marked ≡ false) }
        ensures fits { (FailsNow self.old.plan → ⊥) → HasRoom self.old → IsOk result }
        ensures records { Records self.old self.new other }
    {
        self.ask()?;
        let start = at as usize;
        into.copy_from_slice(&self.file.bytes()[start..start + into.len()]);
        Ok(())
    }

    /// A write is done, and recorded with its bytes, where there is room for these too. So is one that fails by number.
    fn write_at(&mut self, at: u64, bytes: &[u8]) -> Result<(), DiskFault>
        requires { at + length bytes.now ≤ largest_store }
        ensures writes { Writes at bytes.now result (replayed self.old.history) (replayed self.new.history) }
        ensures attached { self.new.history.attached ≡ self.old.history.attached }
        ensures call { IsCall (IsErr result) 0 self.old self.new }
        ensures unmarked { OnOk result (self.new.history.is_marked ≡ false) }
        ensures fits { (FailsNow self.old.plan → ⊥) → HasRoom self.old
            → HasBytes self.old at (length bytes.now) → IsOk result }
        ensures past { (HasBytes self.old at (length bytes.now) → ⊥) → IsErr result }
        ensures records { HasBytes self.old at (length bytes.now) → Records self.old self.new (wrote at bytes.now) }
        ensures undone { (HasBytes self.old at (length bytes.now) → ⊥) → Records self.old self.new other }
    {
        self.made = self.made.saturating_add(1);
        let fails = self.calls.fails_now();
        let written = record_write(&mut self.file, &mut self.log, &mut self.journal, at, bytes);
        answer(is_done(written, fails), &mut self.faults)
    }

    fn sync(&mut self) -> Result<(), DiskFault>
        ensures durable { Syncs result (replayed self.old.history) (replayed self.new.history) }
        ensures attached { self.new.history.attached ≡ self.old.history.attached }
        ensures call { IsCall (IsErr result) (if is_ok result then 1 else 0) self.old self.new }
        ensures unmarked { OnOk result (self.new.history.is_marked ≡ false) }
        ensures fits { (FailsNow self.old.plan → ⊥) → HasRoom self.old → IsOk result }
        ensures records { (FailsNow self.old.plan → ⊥) → Records self.old self.new synced }
        ensures undone { FailsNow self.old.plan → Records self.old self.new other }
    {
        self.made = self.made.saturating_add(1);
        let done = record_call(&mut self.calls, &mut self.journal, Entry::Synced);
        answer(done, &mut self.faults)
    }

    /// It is none of the calls that are numbered, and needs no room.
    fn acknowledge(&mut self)
        ensures keeps { Keeps (replayed self.old.history) (replayed self.new.history) }
        ensures attached { self.new.history.attached ≡ self.old.history.attached }
        ensures time { Elapses (replayed self.old.history) (replayed self.new.history) }
        ensures marks { MarksUp (replayed self.old.history) (replayed self.new.history) (if self.old.history.is_marked
            then 0 else 1) }
        ensures syncs { SyncsUp (replayed self.old.history) (replayed self.new.history) 0 }
        ensures marked { self.new.history.is_marked ≡ true }
        ensures faults { self.new.history.faults ≡ self.old.history.faults }
        ensures calls { self.new.history.made ≡ one_more self.old.history.made }
        ensures plan { self.new.plan ≡ self.old.plan }
        ensures bounds { self.new.bounds ≡ self.old.bounds }
        ensures records { RecordsMark self.old self.new }
    {
        self.made = self.made.saturating_add(1);
        self.journal.mark();
    }
}
