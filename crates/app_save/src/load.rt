//! Reading what was saved last.
ghost use Rattle.std.specs.Prelude.{◌≡◌, ◌+◌, ◌≤◌, length, take, drop, IsTrue, IsErr, IfOk, OnOk};
ghost use Rattle.sed_value.specs.declared.limits.TheConstants.{LARGEST_SLOT};
ghost use Rattle.sed_outside.specs.Cause.{HasCause};
ghost use Rattle.disk_model.specs.Disk.{Elapses, During, Keeps, MarksUp};
ghost use Rattle.app_save.specs.Store.{Opens};
ghost use Rattle.app_save.specs.Saving.{AllStores, AllOpen};

use crate::save::settle;
use crate::slots::HEADER;
use disk_model::{Disk, DiskFault};

// Reads so many bytes from that place on into the first bytes of `into`.
fn read_front<D: Disk>(disk: &mut D, at: u64, into: &mut [u8], len: u32) -> Result<(), DiskFault>
    requires room { len ≤ length into.old }
    requires inside { IsTrue (D.meaning disk.old).tells → at + len ≤ length (D.meaning disk.old).content }
    ensures bytes { IsTrue (D.meaning disk.old).tells
        → OnOk result (take len into.new ≡ take len (drop at (D.meaning disk.old).content)) }
    ensures keeps { IsTrue (D.meaning disk.old).tells → Keeps (D.meaning disk.old) (D.meaning disk.new) }
    ensures time { Elapses (D.meaning disk.old) (D.meaning disk.new) }
    ensures marks { MarksUp (D.meaning disk.old) (D.meaning disk.new) 0 }
    ensures attached { (D.meaning disk.new).attached ≡ (D.meaning disk.old).attached }
    ensures cause { HasCause (D.meaning disk.old).faults (D.meaning disk.new).faults (IsErr result) }
{
    disk.read(at, &mut into[..len as usize])
}

/// Syncs, finds the newest slot, and reads its payload. Of a disk that holds no store a slot's bytes are read at most.
pub fn load_newest<D: Disk>(disk: &mut D, slot: u32, into: &mut [u8]) -> Result<u32, DiskFault>
    requires small { slot ≤ LARGEST_SLOT }
    requires room { length into.old ≡ slot }
    requires stores { IsTrue (D.meaning disk.old).tells → AllStores slot (D.meaning disk.old) }
    ensures fits { IfOk result (λ len. len ≤ slot) }
    ensures opens { IsTrue (D.meaning disk.old).tells
        → IfOk result (λ len. Opens slot (D.meaning disk.old).content (take len into.new)) }
    ensures moments { IsTrue (D.meaning disk.old).tells
        → During (D.meaning disk.old) (D.meaning disk.new) ((D.meaning disk.old).leaves (D.meaning disk.old).now) }
    ensures opened { IsTrue (D.meaning disk.old).tells
        → IfOk result (λ len. AllOpen slot (take len into.new) (D.meaning disk.new)) }
    ensures content { IsTrue (D.meaning disk.old).tells
        → OnOk result ((D.meaning disk.new).content ≡ (D.meaning disk.old).content) }
    ensures time { Elapses (D.meaning disk.old) (D.meaning disk.new) }
    ensures marks { MarksUp (D.meaning disk.old) (D.meaning disk.new) 0 }
    ensures attached { (D.meaning disk.new).attached ≡ (D.meaning disk.old).attached }
    ensures cause { HasCause (D.meaning disk.old).faults (D.meaning disk.new).faults (IsErr result) }
{
    let place = settle(disk, slot)?;
    let len = place.len.min(slot);
    read_front(disk, place.newest + HEADER, into, len)?;
    Ok(len)
}
