//! Files in memory.
ghost use Rattle.std.specs.Prelude.{◌≡◌, ◌⊎◌, List, ℕ, Some, IsErr, IsErrOf, OnErr, OnOk, ⊤};
ghost use Rattle.sed_outside.specs.Files.{IsUnreadable, KeepsCounts, ReadsFile, KeepsOthers, WritesFile};
ghost use Rattle.sed_outside.specs.Cause.{HasCause};
ghost use Rattle.sed_outside.specs.Named.{contents_of, count_of};
ghost use Rattle.sed_outside.specs.Failing.{begins_with, FailsNow, after_call};
ghost use Rattle.sed_outside.specs.MemFiles.{contents_in, plan_of, failed_reads_of, failed_writes_of};

use crate::failing_calls::FailingCalls;
use crate::files::{FileFault, Files};
use crate::named;
use sed_value::Memory;
use sed_value::limits::LARGEST_FILE;

/// Files in memory, with calls that fail by number. They tell what they hold, and count for each name apart.
#[derive(Drop)]
pub struct MemFiles {
    files: Vec<(String, Vec<u8>)>,
    calls: FailingCalls,
    failed_reads: Vec<(String, u64)>,
    failed_writes: Vec<(String, u64)>,
}

impl MemFiles {
    /// Files of these names and contents; of two of one name the first counts. `fails` has the numbers, from 0, of the
    /// calls that fail, reads and writes numbered together. It takes no memory.
    pub fn new(files: Vec<(String, Vec<u8>)>, fails: Vec<usize>) -> MemFiles
        ensures files { ⟦<MemFiles as Files>⟧.known result ≡ Some (contents_of files.items) }
        ensures reads { (name : List ℕ) → ⟦<MemFiles as Files>⟧.failed_reads result name ≡ 0 }
        ensures writes { (name : List ℕ) → ⟦<MemFiles as Files>⟧.failed_writes result name ≡ 0 }
        ensures contents { contents_in result ≡ contents_of files.items }
        ensures fails { plan_of result ≡ begins_with fails.items }
    {
        let alloc = *files.allocator();
        MemFiles {
            files,
            calls: FailingCalls::new(fails),
            failed_reads: Vec::new(alloc),
            failed_writes: Vec::new(alloc),
        }
    }
}

// Counts a call on that name that failed, and gives its fault. Without memory for the count it stays, and memory is
// what is wanted.
fn counted(counts: &mut Vec<(String, u64)>, name: &str) -> FileFault
    ensures cause { HasCause (count_of counts.old.items name.now) (count_of counts.new.items name.now)
        (result ≡ FileFault.Failed) }
    ensures counts { KeepsCounts ⊤ (count_of counts.old.items) (count_of counts.new.items)
        name.now (result ≡ FileFault.Failed) }
{
    let count = match named::find(counts, name) {
        Some(count) => *count,
        None => 0,
    };
    match named::put(counts, name, count.saturating_add(1)) {
        Ok(()) => FileFault::Failed,
        Err(Memory) => FileFault::Memory,
    }
}

// Puts the file of that name behind the bytes of `into`.
fn read_file(files: &[(String, Vec<u8>)], name: &str, into: &mut Vec<u8>) -> Result<(), FileFault>
    ensures ok { OnOk result (ReadsFile (Some (contents_of files.now)) name.now into.old.items into.new.items) }
    ensures unreadable { IsUnreadable (contents_of files.now name.now) → IsErr result }
    ensures err { OnErr result (into.new.items ≡ into.old.items) }
    ensures failed { IsErrOf result FileFault.Failed → IsUnreadable (contents_of files.now name.now) }
{
    match named::find(files, name) {
        Some(bytes) if bytes.len() <= LARGEST_FILE => match into.extend_from_slice(bytes) {
            Ok(()) => Ok(()),
            Err(_) => Err(FileFault::Memory),
        },
        _ => Err(FileFault::Failed),
    }
}

// Makes the file of that name hold these bytes.
fn write_file(files: &mut Vec<(String, Vec<u8>)>, name: &str, bytes: &[u8]) -> Result<(), Memory>
    ensures ok { OnOk result (contents_of files.new.items name.now ≡ Some bytes.now) }
    ensures others { KeepsOthers (Some (contents_of files.old.items)) (Some (contents_of files.new.items)) name.now }
    ensures err { OnErr result (files.new.items ≡ files.old.items) }
{
    let alloc = *files.allocator();
    match Vec::from_slice(alloc, bytes) {
        Ok(content) => named::put(files, name, content),
        Err(_) => Err(Memory),
    }
}

impl Files for MemFiles {
    ghost known = { λ m. Some (contents_in m) };

    ghost failed_reads = { failed_reads_of };

    ghost failed_writes = { failed_writes_of };

    /// As every read, and: the call is counted; it fails where its number is among those that fail, and else answers
    /// `Failed` only for a file that no read gives.
    fn read(&mut self, name: &str, into: &mut Vec<u8>) -> Result<(), FileFault>
        ensures ok { OnOk result (ReadsFile (Some (contents_in self.old)) name.now into.old.items into.new.items) }
        ensures unreadable { IsUnreadable (contents_in self.old name.now) → IsErr result }
        ensures err { OnErr result (into.new.items ≡ into.old.items) }
        ensures files { contents_in self.new ≡ contents_in self.old }

        ensures calls { plan_of self.new ≡ after_call (plan_of self.old) }
        ensures planned { FailsNow (plan_of self.old) → IsErr result }
        ensures failed { IsErrOf result FileFault.Failed
            → FailsNow (plan_of self.old) ⊎ IsUnreadable (contents_in self.old name.now) }

        ensures cause { HasCause (failed_reads_of self.old name.now) (failed_reads_of self.new name.now)
            (IsErrOf result FileFault.Failed) }
        ensures counts { KeepsCounts ⊤ (failed_reads_of self.old) (failed_reads_of self.new) name.now
            (IsErrOf result FileFault.Failed) }
        ensures writes { failed_writes_of self.new ≡ failed_writes_of self.old }
    {
        if self.calls.fails_now() {
            return Err(counted(&mut self.failed_reads, name));
        }
        match read_file(&self.files, name, into) {
            Err(FileFault::Failed) => Err(counted(&mut self.failed_reads, name)),
            done => done,
        }
    }

    /// As every write, and: the call is counted, and `Failed` comes only where its number is among those that fail. A
    /// write that is refused changes no file.
    fn write(&mut self, name: &str, bytes: &[u8]) -> Result<(), FileFault>
        ensures ok { OnOk result (contents_in self.new name.now ≡ Some bytes.now) }
        ensures others { KeepsOthers (Some (contents_in self.old)) (Some (contents_in self.new)) name.now }
        ensures err { OnErr result (contents_in self.new ≡ contents_in self.old) }

        ensures calls { plan_of self.new ≡ after_call (plan_of self.old) }
        ensures planned { FailsNow (plan_of self.old) → IsErr result }
        ensures failed { IsErrOf result FileFault.Failed → FailsNow (plan_of self.old) }

        ensures cause { HasCause (failed_writes_of self.old name.now) (failed_writes_of self.new name.now)
            (IsErrOf result FileFault.Failed) }
        ensures counts { KeepsCounts ⊤ (failed_writes_of self.old) (failed_writes_of self.new) name.now
            (IsErrOf result FileFault.Failed) }
        ensures reads { failed_reads_of self.new ≡ failed_reads_of self.old }
    {
        if self.calls.fails_now() {
            return Err(counted(&mut self.failed_writes, name));
        }
        match write_file(&mut self.files, name, bytes) {
            Ok(()) => Ok(()),
            Err(Memory) => Err(FileFault::Memory),
        }
    }
}
