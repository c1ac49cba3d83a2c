//! The edge over the system's files, which tells nothing of what they hold.
ghost use Rattle.std.specs.Prelude.{◌≡◌, ◌↔◌, ◌+◌, ◌≤◌, List, [], ℕ, None, OnOk, OnErr, IfOk, IfSome, IsTrue, take};
ghost use Rattle.std.specs.Prelude.{vec_len};
ghost use Rattle.std.specs.IoError.{error_kind};
ghost use Rattle.sed_outside.specs.Files.{ReadsFile, largest_file};
ghost use Rattle.sed_outside.specs.Reading.{ReadsWhole, ReadsBytes};

use crate::files::{FileFault, Files};
use sed_value::limits::LARGEST_FILE;
use std::io::{self, ErrorKind, Read};
use std::{fs, rt};

/// The system's files. One number counts the failed reads of every name, and one the failed writes.
#[derive(Drop)]
pub struct RealFiles<'a, R> {
    rt: &'a R,
    failed_reads: u64,
    failed_writes: u64,
}

impl<'a, R: rt::Files> RealFiles<'a, R> {
    /// The system's files, of which no call has failed yet.
    pub fn new(rt: &'a R) -> RealFiles<'a, R>
        ensures reads { (name : List ℕ) → ⟦<RealFiles<'a, R> as Files>⟧.failed_reads result name ≡ 0 }
        ensures writes { (name : List ℕ) → ⟦<RealFiles<'a, R> as Files>⟧.failed_writes result name ≡ 0 }
    {
        RealFiles {
            rt,
            failed_reads: 0,
            failed_writes: 0,
        }
    }
}

// What an error of the system is to the caller.
fn fault_of(error: &io::Error) -> FileFault
    ensures { (result ≡ FileFault.Memory) ↔ (error_kind error.now ≡ ErrorKind.OutOfMemory) }
{
    match error.kind() {
        ErrorKind::OutOfMemory => FileFault::Memory,
        _ => FileFault::Failed,
    }
}

// Reads what the reader has behind the bytes of `into`, up to one byte more than the largest file, and says whether
// that is all.
fn read_whole<R: Read + Drop>(reader: R, into: &mut Vec<u8>) -> io::Result<bool>
    ensures whole { IfOk result (λ whole.
        IfSome (R.remaining reader) (ReadsWhole into.old.items into.new.items whole)) }
    ensures small { IfOk result (λ whole. IsTrue whole → vec_len into.new ≤ vec_len into.old + largest_file) }
    ensures kept { take (vec_len into.old) into.new.items ≡ into.old.items }
{
    let count = reader.take(LARGEST_FILE as u64 + 1).read_to_end(into)?;
    Ok(count <= LARGEST_FILE)
}

// Reads what the reader has behind the bytes of `into`, or leaves these as they were.
fn read_from<R: Read + Drop>(reader: R, into: &mut Vec<u8>) -> Result<(), FileFault>
    ensures ok { OnOk result (ReadsFile None [] into.old.items into.new.items) }
    ensures bytes { OnOk result (IfSome (R.remaining reader) (ReadsBytes into.old.items into.new.items)) }
    ensures err { OnErr result (into.new.items ≡ into.old.items) }
{
    let before = into.len();
    let fault = match read_whole(reader, into) {
        Ok(true) => return Ok(()),
        Ok(false) => FileFault::Failed,
        Err(error) => fault_of(&error),
    };
    into.truncate(before);
    Err(fault)
}

// Reads the file behind the bytes of `into`, or leaves these as they were.
fn read_file<R: rt::Files>(rt: &R, name: &str, into: &mut Vec<u8>) -> Result<(), FileFault>
    ensures ok { OnOk result (ReadsFile None name.now into.old.items into.new.items) }
    ensures err { OnErr result (into.new.items ≡ into.old.items) }
{
    match fs::open(rt, name) {
        Ok(file) => read_from(file, into),
        Err(error) => Err(fault_of(&error)),
    }
}

impl<'a, R: rt::Files> Files for RealFiles<'a, R> {
    ghost known = { λ _. None };

    ghost failed_reads = { λ f name. f.failed_reads };

    ghost failed_writes = { λ f name. f.failed_writes };

    fn read(&mut self, name: &str, into: &mut Vec<u8>) -> Result<(), FileFault> {
        let done = read_file(self.rt, name, into);
        if done == Err(FileFault::Failed) {
            self.failed_reads = self.failed_reads.saturating_add(1);
        }
        done
    }

    fn write(&mut self, name: &str, bytes: &[u8]) -> Result<(), FileFault> {
        let done = fs::write(self.rt, name, bytes).map_err(|error| fault_of(&error));
        if done == Err(FileFault::Failed) {
            self.failed_writes = self.failed_writes.saturating_add(1);
        }
        done
    }
}
