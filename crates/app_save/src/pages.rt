//! A payload is written by pages, and only those that differ from what stands there.
ghost use Rattle.std.specs.Prelude.{◌≡◌, ◌+◌, ◌≤◌, ◌<◌, ◌↔◌, ℕ, length, take, drop, slice_index, IsTrue, IsErr, IfOk};
ghost use Rattle.std.specs.Prelude.{OnOk};
ghost use Rattle.sed_value.specs.declared.limits.TheConstants.{LARGEST_SLOT};
ghost use Rattle.sed_outside.specs.Cause.{HasCause};
ghost use Rattle.disk_model.specs.Disk.{Elapses, During, IsTorn, Writes, Holds, Keeps, MarksUp, largest_store};
ghost use Rattle.app_save.specs.Store.{AreSlots};
ghost use Rattle.app_save.specs.Stages.{Closed, IsClosed};

use crate::slots::{HEADER, Place};
use disk_model::{Disk, DiskFault};

/// The length of a page, in bytes.
const PAGE: usize = 512;

// Whether a read gives these bytes.
fn reads_as<D: Disk>(
    disk: &mut D,
    at: u64,
    bytes: &[u8],
    scratch: &mut [u8],
) -> Result<bool, DiskFault>
    requires scratch { length scratch.old ≡ length bytes.now }
    requires inside { IsTrue (D.meaning disk.old).tells → at + length bytes.now ≤ length (D.meaning disk.old).content }
    ensures same { IsTrue (D.meaning disk.old).tells
        → IfOk result (λ same. IsTrue same ↔ (take (length bytes.now) (drop at (D.meaning disk.old).content)
        ≡ bytes.now)) }
    ensures keeps { IsTrue (D.meaning disk.old).tells → Keeps (D.meaning disk.old) (D.meaning disk.new) }
    ensures time { Elapses (D.meaning disk.old) (D.meaning disk.new) }
    ensures marks { MarksUp (D.meaning disk.old) (D.meaning disk.new) 0 }
    ensures attached { (D.meaning disk.new).attached ≡ (D.meaning disk.old).attached }
    ensures cause { HasCause (D.meaning disk.old).faults (D.meaning disk.new).faults (IsErr result) }
{
    disk.read(at, scratch)?;
    Ok(*scratch == *bytes)
}

// Writes these bytes, unless a read gives them already.
fn write_page<D: Disk>(disk: &mut D, at: u64, bytes: &[u8]) -> Result<(), DiskFault>
    requires small { at + length bytes.now ≤ largest_store }
    requires page { length bytes.now ≤ 512 }
    requires inside { IsTrue (D.meaning disk.old).tells → at + length bytes.now ≤ length (D.meaning disk.old).content }
    ensures writes { IsTrue (D.meaning disk.old).tells
        → Writes at bytes.now result (D.meaning disk.old) (D.meaning disk.new) }
    ensures equal { IsTrue (D.meaning disk.old).tells → Holds at bytes.now (D.meaning disk.old).content
        → During (D.meaning disk.old) (D.meaning disk.new) ((D.meaning disk.old).leaves (D.meaning disk.old).now) }
    ensures time { Elapses (D.meaning disk.old) (D.meaning disk.new) }
    ensures marks { MarksUp (D.meaning disk.old) (D.meaning disk.new) 0 }
    ensures attached { (D.meaning disk.new).attached ≡ (D.meaning disk.old).attached }
    ensures cause { HasCause (D.meaning disk.old).faults (D.meaning disk.new).faults (IsErr result) }
{
    let mut scratch = [0; PAGE];
    if reads_as(disk, at, bytes, &mut scratch[..bytes.len()])? {
        return Ok(());
    }
    disk.write_at(at, bytes)
}

/// Writes the pages of the payload that differ into the slot that isn't newest, behind its closed gate.
pub fn write_pages<D: Disk>(
    disk: &mut D,
    slot: u32,
    place: &Place,
    payload: &[u8],
) -> Result<(), DiskFault>
    requires small { slot ≤ LARGEST_SLOT }
    requires fits { length payload.now ≤ slot }
    requires slots { AreSlots slot place.now.newest place.now.other }
    requires closed { IsTrue (D.meaning disk.old).tells
        → IsClosed slot place.now.newest place.now.other payload.now (D.meaning disk.old).content (D.meaning disk.old) }
    ensures during { IsTrue (D.meaning disk.old).tells
        → During (D.meaning disk.old) (D.meaning disk.new)
        (Closed slot place.now.newest place.now.other payload.now (D.meaning disk.old).content) }
    ensures closed { IsTrue (D.meaning disk.old).tells
        → Closed slot place.now.newest place.now.other payload.now (D.meaning disk.old).content
        (D.meaning disk.new).content }
    ensures written { IsTrue (D.meaning disk.old).tells
        → OnOk result ((i : ℕ) → i < length payload.now
        → slice_index (D.meaning disk.new).content (place.now.other + 6 + i) ≡ slice_index payload.now i) }
    ensures touches { IsTrue (D.meaning disk.old).tells → During (D.meaning disk.old) (D.meaning disk.new)
        (IsTorn (place.now.other + 6) (length payload.now) (D.meaning disk.old)) }
    ensures time { Elapses (D.meaning disk.old) (D.meaning disk.new) }
    ensures marks { MarksUp (D.meaning disk.old) (D.meaning disk.new) 0 }
    ensures attached { (D.meaning disk.new).attached ≡ (D.meaning disk.old).attached }
    ensures cause { HasCause (D.meaning disk.old).faults (D.meaning disk.new).faults (IsErr result) }
{
    let begins = place.other + HEADER;
    let pages = (payload.len() + (PAGE - 1)) / PAGE;
    for q in 0..pages {
        let at = PAGE * q;
        let end = (at + PAGE).min(payload.len());
        write_page(disk, begins + at as u64, &payload[at..end])?;
    }
    Ok(())
}
