//! Opening a store.
ghost use Rattle.std.specs.Prelude.{◌≡◌, ◌⊎◌, ◌+◌, ◌*◌, ◌<◌, ◌≤◌, ◌↔◌, [], ℕ, true, length, IsTrue, IsErr, IsErrOf};
ghost use Rattle.std.specs.Prelude.{IfOk, IfSome, IfNone, OnErr, OnOk, replicate, vec_len};
ghost use Rattle.sed_value.specs.declared.limits.TheConstants.{LARGEST_SLOT};
ghost use Rattle.sed_outside.specs.Cause.{HasCause};
ghost use Rattle.disk_model.specs.Disk.{Image, Elapses, During, MarksUp};
ghost use Rattle.app_save.specs.Store.{IsStore, Opens};
ghost use Rattle.app_save.specs.Saving.{AllOpen, SinceSync, SyncsOnce};
ghost use Rattle.app_save.specs.Run.{IsRun};
ghost use Rattle.app_save.specs.Slots.{IsHeader, IsFound};
ghost use Rattle.app_save.specs.Stages.{Settled};

use crate::refusal::SaveRefusal;
use crate::slots::{HEADER, Header, next_generation, read_header, second_slot};
use crate::store::Store;
use disk_model::{Disk, DiskFault};
use sed_value::limits::LARGEST_STORE;
use sed_value::{Memory, zeros};
use std::alloc::Global;

/// The newest slot of a whole store: the size of the slots, where this one begins, and the length of its payload.
#[derive(Clone, Copy, Drop)]
pub struct Found {
    pub slot: u32,
    pub begins: u64,
    pub len: u32,
}

// Whether a slot is closed, or keeps to what an open one has to.
fn is_sound(slot: u32, header: &Header) -> bool
    ensures { IsTrue result ↔ (header.now.is_open ≡ true → (header.now.generation < 3) × (header.now.len ≤ slot)) }
{
    !header.is_open || header.generation < 3 && header.len <= slot
}

fn first_slot_found(slot: u32, header: &Header) -> Found
    ensures { result ≡ record { slot = slot; begins = 0; len = header.now.len } }
{
    Found {
        slot,
        begins: 0,
        len: header.len,
    }
}

fn second_slot_found(slot: u32, header: &Header) -> Found
    ensures { result ≡ record { slot = slot; begins = slot + 6; len = header.now.len } }
{
    Found {
        slot,
        begins: second_slot(slot),
        len: header.len,
    }
}

// The newest slot, where headers like these are those of a whole store.
fn found_in(slot: u32, first: &Header, second: &Header) -> Option<Found>
    requires { slot ≤ LARGEST_SLOT }
    ensures found { IfSome result (λ found. (image : Image) → length image ≡ 2 * (slot + 6)
        → IsHeader image 0 first.now → IsHeader image (slot + 6) second.now → IsFound image found) }
    ensures bounds { IfSome result (λ found. (found.slot ≡ slot) × (found.len ≤ slot) × (found.begins ≤ slot + 6)) }
    ensures none { IfNone result ((image : Image) → IsHeader image 0 first.now
        → IsHeader image (slot + 6) second.now → IsStore slot image → ⊥) }
{
    if !is_sound(slot, first) {
        return None;
    }
    if !is_sound(slot, second) {
        return None;
    }
    match (first.is_open, second.is_open) {
        (false, false) => None,
        (true, false) => Some(first_slot_found(slot, first)),
        (false, true) => Some(second_slot_found(slot, second)),
        (true, true) if first.generation == second.generation => None,
        (true, true) if second.generation == next_generation(first.generation) => {
            Some(second_slot_found(slot, second))
        }
        (true, true) => Some(first_slot_found(slot, first)),
    }
}

// Syncs, and finds the newest slot.
fn find<D: Disk>(disk: &mut D) -> Result<Option<Found>, DiskFault>
    ensures settled { IsTrue (D.meaning disk.old).tells → Settled result (D.meaning disk.old) (D.meaning disk.new) }
    ensures found { IsTrue (D.meaning disk.old).tells
        → IfOk result (λ found. IfSome found (IsFound (D.meaning disk.old).content)) }
    ensures bounds { IfOk result (λ found.
        IfSome found (λ f. (f.slot ≤ LARGEST_SLOT) × (f.len ≤ f.slot) × (f.begins ≤ f.slot + 6))) }
    ensures none { IsTrue (D.meaning disk.old).tells
        → IfOk result (λ found. IfNone found ((S : ℕ) → IsStore S (D.meaning disk.old).content → ⊥)) }
    ensures time { Elapses (D.meaning disk.old) (D.meaning disk.new) }
    ensures marks { MarksUp (D.meaning disk.old) (D.meaning disk.new) 0 }
    ensures syncs { OnOk result (SyncsOnce (D.meaning disk.old) (D.meaning disk.new)) }
    ensures calls { (D.meaning disk.new).calls ≤ (D.meaning disk.old).calls + 4 }
    ensures attached { (D.meaning disk.new).attached ≡ (D.meaning disk.old).attached }
    ensures cause { HasCause (D.meaning disk.old).faults (D.meaning disk.new).faults (IsErr result) }
{
    disk.sync()?;
    let size = disk.size()?;
    if size < 12 || size > LARGEST_STORE || size % 2 != 0 {
        return Ok(None);
    }
    let slot = (size / 2 - HEADER) as u32;
    let first = read_header(disk, 0)?;
    let second = read_header(disk, second_slot(slot))?;
    Ok(found_in(slot, &first, &second))
}

/// Opens the store on the disk: `into` then holds the payload of its newest slot. It begins with a sync and writes
/// nothing. After a refusal `into` holds what it held. Unless the disk failed, one sync answered Ok. The disk is asked
/// at most five times: for that sync, its size, what stands in front of the two slots, and the payload.
///
/// From the first sync that answers Ok on, every crash leaves what was read. `NotAStore` comes exactly where that is no
/// whole store, and `Memory` where the payload found no memory.
pub fn open<D: Disk>(disk: &mut D, into: &mut Vec<u8>) -> Result<Store, SaveRefusal>
    ensures opens { IsTrue (D.meaning disk.old).tells
        → IfOk result (λ S. Opens S (D.meaning disk.old).content into.new.items) }
    ensures kept { OnErr result (into.new.items ≡ into.old.items) }

    // a crash at any moment of the call, and after it
    ensures moments { IsTrue (D.meaning disk.old).tells
        → During (D.meaning disk.old) (D.meaning disk.new) ((D.meaning disk.old).leaves (D.meaning disk.old).now) }
    ensures since { IsTrue (D.meaning disk.old).tells → IsTrue (D.meaning disk.old).tells_syncs
        → SinceSync (D.meaning disk.old) (D.meaning disk.new) (λ c. c ≡ (D.meaning disk.old).content) }
    ensures opened { IsTrue (D.meaning disk.old).tells
        → IfOk result (λ S. AllOpen S into.new.items (D.meaning disk.new)) }
    ensures content { IsTrue (D.meaning disk.old).tells → (IsErrOf result SaveRefusal.Device → ⊥)
        → (D.meaning disk.new).content ≡ (D.meaning disk.old).content }
    ensures time { Elapses (D.meaning disk.old) (D.meaning disk.new) }
    ensures marks { MarksUp (D.meaning disk.old) (D.meaning disk.new) 0 }
    ensures syncs { (IsErrOf result SaveRefusal.Device → ⊥) → SyncsOnce (D.meaning disk.old) (D.meaning disk.new) }
    ensures calls { (D.meaning disk.new).calls ≤ (D.meaning disk.old).calls + 5 }
    ensures run { IsTrue (D.meaning disk.old).tells
        → IfOk result (λ S. IsRun S into.new.items [] (D.meaning disk.new) (D.meaning disk.new)) }
    ensures attached { (D.meaning disk.new).attached ≡ (D.meaning disk.old).attached }

    // its answers
    ensures not_a_store { IsTrue (D.meaning disk.old).tells → IsErrOf result SaveRefusal.NotAStore
        → (S : ℕ) → IsStore S (D.meaning disk.old).content → ⊥ }
    ensures not_a_store_comes { IsTrue (D.meaning disk.old).tells
        → ((S : ℕ) → IsStore S (D.meaning disk.old).content → ⊥)
        → IsErrOf result SaveRefusal.NotAStore ⊎ IsErrOf result SaveRefusal.Device }
    ensures cause { HasCause (D.meaning disk.old).faults (D.meaning disk.new).faults
        (IsErrOf result SaveRefusal.Device) }
    ensures answers { IsErr result → IsErrOf result SaveRefusal.NotAStore
        ⊎ IsErrOf result SaveRefusal.Device ⊎ IsErrOf result SaveRefusal.Memory }
{
    let Some(found) = find(disk)? else {
        return Err(SaveRefusal::NotAStore);
    };
    let mut payload = zeros(*into.allocator(), found.len as usize)?;
    disk.read(found.begins + HEADER, payload.as_mut_slice())?;
    *into = payload;
    Ok(Store::with_slot(found.slot))
}
