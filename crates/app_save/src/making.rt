//! Making a store.
ghost use Rattle.std.specs.Prelude.{◌≡◌, ◌≢◌, ◌⊎◌, ◌+◌, ◌*◌, ◌<◌, ◌≤◌, ◌↔◌, [], false, length, IsTrue, IsErr, IsErrOf};
ghost use Rattle.std.specs.Prelude.{IsOk, IfOk, OnOk, OnErr};
ghost use Rattle.sed_value.specs.declared.limits.TheConstants.{LARGEST_SLOT};
ghost use Rattle.sed_outside.specs.Cause.{Rose, HasCause};
ghost use Rattle.disk_model.specs.Disk.{Elapses, During, MarksUp, SyncsUp, Keeps, largest_store};
ghost use Rattle.app_save.specs.Saving.{AllOpen, LeavesOnly, SinceSync};
ghost use Rattle.app_save.specs.Run.{IsRun};
ghost use Rattle.app_save.specs.Stages.{IsSaved};
ghost use Rattle.app_save.specs.Making.{IsBlank, NoneLonger, NewOrNone, SyncsThrough, made_store, stages_made};

use crate::refusal::SaveRefusal;
use crate::save::{behind_gate, write_through};
use crate::slots::{HEADER, OPEN};
use crate::store::Store;
use disk_model::{Disk, DiskFault};

// Writes so many zeros into an empty file, piece by piece.
fn write_zeros<D: Disk>(disk: &mut D, len: u32) -> Result<(), DiskFault>
    requires small { len ≤ largest_store }
    requires empty { IsTrue (D.meaning disk.old).tells → length (D.meaning disk.old).content ≡ 0 }
    ensures blank { IsTrue (D.meaning disk.old).tells → OnOk result (IsBlank len (D.meaning disk.new).content) }
    ensures bound { IsTrue (D.meaning disk.old).tells → NoneLonger len (D.meaning disk.old)
        → During (D.meaning disk.old) (D.meaning disk.new) (λ c. length c ≤ len) }
    ensures time { Elapses (D.meaning disk.old) (D.meaning disk.new) }
    ensures marks { MarksUp (D.meaning disk.old) (D.meaning disk.new) 0 }
    ensures syncs { SyncsUp (D.meaning disk.old) (D.meaning disk.new) 0 }
    ensures attached { (D.meaning disk.new).attached ≡ (D.meaning disk.old).attached }
    ensures cause { HasCause (D.meaning disk.old).faults (D.meaning disk.new).faults (IsErr result) }
{
    let zeros = [0; 512];
    let pieces = (len as usize + 511) / 512;
    for q in 0..pieces {
        let at = 512 * q;
        let size = (len as usize - at).min(512);
        disk.write_at(at as u64, &zeros[..size])?;
    }
    Ok(())
}

// Writes a new store into an empty file, all but its mark.
fn write_store<D: Disk>(disk: &mut D, slot: u32, payload: &[u8]) -> Result<(), DiskFault>
    requires small { slot ≤ LARGEST_SLOT }
    requires fits { length payload.now ≤ slot }
    requires empty { IsTrue (D.meaning disk.old).tells → length (D.meaning disk.old).content ≡ 0 }
    ensures saved { IsTrue (D.meaning disk.old).tells
        → OnOk result (IsSaved slot (slot + 6) 0 payload.now (D.meaning disk.new)) }
    ensures exact { IsTrue (D.meaning disk.old).tells
        → OnOk result (LeavesOnly (D.meaning disk.new) (D.meaning disk.new).now (made_store slot payload.now)) }
    ensures syncs { IsTrue (D.meaning disk.old).tells → IsTrue (D.meaning disk.old).tells_syncs
        → OnOk result (SyncsThrough (D.meaning disk.new) (D.meaning disk.old).now (stages_made slot payload.now)) }
    ensures since { IsTrue (D.meaning disk.old).tells → IsTrue (D.meaning disk.old).tells_syncs
        → SinceSync (D.meaning disk.old) (D.meaning disk.new) (NewOrNone slot payload.now) }
    ensures bound { IsTrue (D.meaning disk.old).tells → NoneLonger (2 * (slot + 6)) (D.meaning disk.old)
        → During (D.meaning disk.old) (D.meaning disk.new) (λ c. length c ≤ 2 * (slot + 6)) }
    ensures time { Elapses (D.meaning disk.old) (D.meaning disk.new) }
    ensures marks { MarksUp (D.meaning disk.old) (D.meaning disk.new) 0 }
    ensures unmarked { OnOk result ((D.meaning disk.new).is_marked ≡ false) }
    ensures attached { (D.meaning disk.new).attached ≡ (D.meaning disk.old).attached }
    ensures cause { HasCause (D.meaning disk.old).faults (D.meaning disk.new).faults (IsErr result) }
{
    write_zeros(disk, 2 * (slot + HEADER as u32))?;
    disk.sync()?;
    disk.write_at(1, &behind_gate(payload.len() as u32, 0))?;
    write_through(disk, HEADER, payload)?;
    write_through(disk, 0, &[OPEN])
}

/// Makes a store with slots of that size, in bytes, in an empty file, and saves the payload in it as the first. It
/// takes no memory. Where the payload is longer than a slot nothing is asked of the disk, and where the file isn't
/// empty nothing is written.
///
/// After Ok every crash leaves one file, byte for byte that of a new store, which opens to the payload, until the next
/// save; one mark was made. Three syncs answered Ok: behind the zeros, behind all but the gate, and behind the gate.
/// After `Device` the file may be neither empty nor a store; from the first sync on a crash leaves the new store or
/// none.
pub fn make<D: Disk>(disk: &mut D, slot: u32, payload: &[u8]) -> Result<Store, SaveRefusal>
    requires some { 1 ≤ slot }
    requires small { slot ≤ LARGEST_SLOT }
    ensures slot { IfOk result (λ S. S ≡ slot) }

    // a crash at any moment of the call, and after it
    ensures made { IsTrue (D.meaning disk.old).tells → OnOk result (AllOpen slot payload.now (D.meaning disk.new)) }
    ensures exact { IsTrue (D.meaning disk.old).tells
        → OnOk result (LeavesOnly (D.meaning disk.new) (D.meaning disk.new).now (made_store slot payload.now)) }
    ensures syncs { IsTrue (D.meaning disk.old).tells → IsTrue (D.meaning disk.old).tells_syncs
        → OnOk result (SyncsThrough (D.meaning disk.new) (D.meaning disk.old).now (stages_made slot payload.now)) }
    ensures since { IsTrue (D.meaning disk.old).tells → IsTrue (D.meaning disk.old).tells_syncs
        → SinceSync (D.meaning disk.old) (D.meaning disk.new) (NewOrNone slot payload.now) }
    ensures bound { IsTrue (D.meaning disk.old).tells → NoneLonger 0 (D.meaning disk.old)
        → During (D.meaning disk.old) (D.meaning disk.new) (λ c. length c ≤ 2 * (slot + 6)) }
    ensures time { Elapses (D.meaning disk.old) (D.meaning disk.new) }

    // marks, and a run of saves that begins here
    ensures mark { OnOk result (MarksUp (D.meaning disk.old) (D.meaning disk.new) 1) }
    ensures no_mark { OnErr result (MarksUp (D.meaning disk.old) (D.meaning disk.new) 0) }
    ensures run { IsTrue (D.meaning disk.old).tells
        → OnOk result (IsRun slot payload.now [] (D.meaning disk.new) (D.meaning disk.new)) }
    ensures attached { (D.meaning disk.new).attached ≡ (D.meaning disk.old).attached }

    // its answers
    ensures full { IsErrOf result SaveRefusal.Full ↔ (slot < length payload.now) }
    ensures untouched { IsErrOf result SaveRefusal.Full → disk.new ≡ disk.old }
    ensures empty { IsTrue (D.meaning disk.old).tells → OnOk result (length (D.meaning disk.old).content ≡ 0) }
    ensures not_empty { IsTrue (D.meaning disk.old).tells → IsErrOf result SaveRefusal.NotEmpty
        → length (D.meaning disk.old).content ≢ 0 }
    ensures kept { IsTrue (D.meaning disk.old).tells → length (D.meaning disk.old).content ≢ 0
        → Keeps (D.meaning disk.old) (D.meaning disk.new) }
    ensures cause { HasCause (D.meaning disk.old).faults (D.meaning disk.new).faults
        (IsErrOf result SaveRefusal.Device) }
    ensures answers { IsErr result → IsErrOf result SaveRefusal.Full
        ⊎ IsErrOf result SaveRefusal.NotEmpty ⊎ IsErrOf result SaveRefusal.Device }
    ensures comes { IsTrue (D.meaning disk.old).tells → length (D.meaning disk.old).content ≡ 0
        → length payload.now ≤ slot → (Rose (D.meaning disk.old).faults (D.meaning disk.new).faults → ⊥) → IsOk result }
{
    if payload.len() > slot as usize {
        return Err(SaveRefusal::Full);
    }
    if disk.size()? != 0 {
        return Err(SaveRefusal::NotEmpty);
    }
    write_store(disk, slot, payload)?;
    disk.acknowledge();
    Ok(Store::with_slot(slot))
}
