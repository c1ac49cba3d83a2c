//! The record of what reached a node.
ghost use Rattle.std.specs.Prelude.{◌≡◌, ◌≢◌, ℕ, List, Result, Err, IfOk, MatchResult};
ghost use Rattle.sed_outside.specs.Steps.{Read, UnlessFree};
ghost use Rattle.sed_outside.specs.Reads.{AreKnown, HasReads};
ghost use Rattle.sed_outside.specs.Cause.{Rose};
ghost use Rattle.replay_log.specs.Record.{IsRefusedAt};
ghost use Rattle.input_files.specs.declared.refusal.InputRefusal.{InputRefusal};
ghost use Rattle.input_files.specs.Refusals.{is_want, IsFileFault, EndsAs};
ghost use Rattle.input_files.specs.Inputs.{RecordRead, HasEntries, IsRecordOf};

use crate::laws::{failed_inputs_are_told, inputs_agree};
use crate::refusal::InputRefusal;
use crate::texts::text_in;
use replay_log::{NotARecord, Records};
use sed_outside::Files;
use sed_value::Items;
use std::alloc::Global;

// Whether the bytes are a record, or the place for which they are none.
fn are_record(bytes: &[u8]) -> Result<(), usize>
    ensures { MatchResult result (λ done. HasEntries bytes.now) (λ at. IsRefusedAt bytes.now at) }
{
    match Records::open(bytes) {
        Ok(_) => Ok(()),
        Err(NotARecord { at }) => Err(at),
    }
}

// The bytes, where they are a record.
fn record_of(bytes: Items<u8>) -> Result<Items<u8>, InputRefusal>
    ensures of_bytes { UnlessFree is_want (IsRecordOf bytes) result }
    ensures entries { IfOk result HasEntries }
{
    match are_record(bytes.as_slice()) {
        Ok(()) => Ok(bytes),
        Err(at) => Err(InputRefusal::BadRecord { at }),
    }
}

// The record of this name, read.
fn record_in<F: Files>(alloc: Global, name: &str, files: &mut F) -> Result<Items<u8>, InputRefusal>
    ensures read { HasReads F.Files files.old files.new
        (λ reads. UnlessFree is_want (RecordRead name.now reads) result) }
    ensures entries { IfOk result HasEntries }
{
    match text_in(alloc, name, files) {
        Ok(text) => record_of(text),
        Err(refusal) => Err(refusal),
    }
}

/// The bytes of the record of this name, which `Records::open` takes.
///
/// The file is read, and `BadRecord` comes exactly where its bytes are no record, with the place that tells why.
/// `RecordRead` says all this, and `Memory` may come in place of each end. No file changes.
///
/// A `FileFault` comes only where the count of failed reads of the file rose, and wherever a count did.
pub fn read_record<F: Files>(
    alloc: Global,
    name: &str,
    files: &mut F,
) -> Result<Items<u8>, InputRefusal>
    ensures read { HasReads F.Files files.old files.new
        (λ reads. UnlessFree is_want (RecordRead name.now reads) result) }
    ensures entries { IfOk result HasEntries }

    // What the file is told to hold decides how it ends, but where it could not be read.
    ensures comes { (told : List Read) (end : Result (List ℕ) InputRefusal) → AreKnown (F.known files.old) told
        → RecordRead name.now told end → UnlessFree is_want (EndsAs end) result }

    ensures file_fault { (file : List ℕ) → result ≡ Err (InputRefusal.FileFault file)
        → Rose (F.failed_reads files.old file) (F.failed_reads files.new file) }
    ensures file_fault_comes { (file : List ℕ) → F.failed_reads files.new file ≢ F.failed_reads files.old file
        → UnlessFree is_want IsFileFault result }

    ensures files { F.known files.new ≡ F.known files.old }
    ensures writes { F.failed_writes files.new ≡ F.failed_writes files.old }
{
    inputs_agree();
    failed_inputs_are_told();
    record_in(alloc, name, files)
}
