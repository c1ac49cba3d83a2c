//! What a crash within a recorded call may leave.
ghost use Rattle.std.specs.Prelude.{◌≡◌, take, drop, replicate, IfOk, if◌then◌else◌};
ghost use Rattle.disk_model.specs.Written.{written};
ghost use Rattle.disk_model.specs.Left.{filled, alike, with_call, image_within, image_left};
ghost use Rattle.disk_model.specs.Recorded.{call_of, bytes_behind, calls_of, is_call};

use crate::journal::Entry;
use sed_value::Memory;
use std::alloc::{AllocError, Global};
use std::marker::Model;

/// What each range that waits for a sync holds after a crash.
#[derive(Clone, Copy, Debug, PartialEq, Eq)]
pub enum Fill {
    /// What it held at the last sync.
    Old,
    /// What was written last.
    New,
    /// This byte throughout.
    Byte(u8),
}

// What a read gives after some calls, and the image that a crash leaves.
#[derive(Drop)]
struct Replayed {
    content: Vec<u8>,
    image: Vec<u8>,
}

impl Model for Replayed {
    ghost use Rattle.disk_model.specs.Left.{Pair};

    ghost Value = { Pair };

    ghost view = { λ r. record { content = r.content.items; image = r.image.items } };
}

// The first bytes, as many as there are.
fn front(bytes: &[u8], len: usize) -> &[u8]
    ensures { result.now ≡ take len bytes.now }
{
    if len < bytes.len() {
        return &bytes[..len];
    }
    bytes
}

// The bytes from there on.
fn rest(bytes: &[u8], from: usize) -> &[u8]
    ensures { result.now ≡ drop from bytes.now }
{
    if from < bytes.len() {
        return &bytes[from..];
    }
    &[]
}

// The same byte so many times.
fn repeated(alloc: Global, byte: u8, len: usize) -> Result<Vec<u8>, AllocError>
    ensures { IfOk result (λ bytes. bytes.items ≡ replicate len byte) }
{
    vec![in alloc; byte; len]
}

// A file in which these bytes were written.
fn with_bytes(alloc: Global, old: &[u8], at: usize, bytes: &[u8]) -> Result<Vec<u8>, AllocError>
    ensures { IfOk result (λ new. new.items ≡ written old.now at bytes.now) }
{
    let gap = repeated(alloc, 0, at.saturating_sub(old.len()))?;
    let mut new = Vec::from_slice(alloc, front(old, at))?;
    new.extend_from_slice(&gap)?;
    new.extend_from_slice(bytes)?;
    new.extend_from_slice(rest(rest(old, at), bytes.len()))?;
    Ok(new)
}

// A file in which the range of these bytes was filled.
fn with_range(
    alloc: Global,
    old: &[u8],
    at: usize,
    bytes: &[u8],
    fill: Fill,
) -> Result<Vec<u8>, AllocError>
    ensures { IfOk result (λ new. new.items ≡ filled fill old.now at bytes.now) }
{
    match fill {
        Fill::Old => Vec::from_slice(alloc, old),
        Fill::New => with_bytes(alloc, old, at, bytes),
        Fill::Byte(byte) => with_bytes(alloc, old, at, &repeated(alloc, byte, bytes.len())?),
    }
}

// Whether the entry is a call, and no mark.
fn is_a_call(entry: Entry) -> bool
    ensures { is_call entry ≡ (if result then 1 else 0) }
{
    match entry {
        Entry::Wrote { at: _, len: _ } | Entry::Synced | Entry::Other => true,
        Entry::Marked => false,
    }
}

// The bytes of the writes behind this entry.
fn behind(log: &[u8], entry: Entry) -> &[u8]
    ensures { result.now ≡ bytes_behind log.now entry }
{
    match entry {
        Entry::Wrote { at: _, len } => rest(log, len),
        _ => log,
    }
}

impl Replayed {
    fn new(alloc: Global, first: &[u8]) -> Result<Replayed, AllocError>
        ensures { IfOk result (λ r. r ≡ alike first.now) }
    {
        Ok(Replayed {
            content: Vec::from_slice(alloc, first)?,
            image: Vec::from_slice(alloc, first)?,
        })
    }

    // After one call more, whose bytes are the first of the log.
    fn with_entry(
        self,
        alloc: Global,
        log: &[u8],
        entry: Entry,
        fill: Fill,
    ) -> Result<Replayed, AllocError>
        ensures { IfOk result (λ r. r ≡ with_call fill self (call_of log.now entry)) }
    {
        match entry {
            Entry::Wrote { at, len } => Ok(Replayed {
                content: with_bytes(alloc, &self.content, at, front(log, len))?,
                image: with_range(alloc, &self.image, at, front(log, len), fill)?,
            }),
            Entry::Synced => Replayed::new(alloc, &self.content),
            Entry::Other | Entry::Marked => Ok(self),
        }
    }

    // What a crash within that call leaves.
    fn within(
        self,
        alloc: Global,
        log: &[u8],
        entry: Entry,
        fill: Fill,
    ) -> Result<Vec<u8>, AllocError>
        ensures { IfOk result (λ image. image.items ≡ image_within fill self (call_of log.now entry)) }
    {
        match entry {
            Entry::Wrote { at, len } => {
                with_range(alloc, &self.image, at, front(log, len), fill)
            }
            Entry::Synced | Entry::Other | Entry::Marked => Ok(self.image),
        }
    }
}

/// What a crash within the call of this number leaves, of a file that held these bytes at first. The log has the bytes
/// of the writes.
pub fn image_of(
    alloc: Global,
    first: &[u8],
    log: &[u8],
    entries: &[Entry],
    call: usize,
    fill: Fill,
) -> Result<Vec<u8>, Memory>
    ensures { IfOk result (λ image. image.items
        ≡ image_left fill (alike first.now) (calls_of log.now entries.now) call) }
{
    let mut replayed = Replayed::new(alloc, first)?;
    let mut log = log;
    let mut left = call;
    for entry in entries {
        if !is_a_call(*entry) {
            continue;
        }
        if left == 0 {
            return Ok(replayed.within(alloc, log, *entry, fill)?);
        }
        left -= 1;
        replayed = replayed.with_entry(alloc, log, *entry, fill)?;
        log = behind(log, *entry);
    }
    Ok(replayed.image)
}
