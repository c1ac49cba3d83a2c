//! An open store, and its saves.
ghost use Rattle.std.specs.Prelude.{◌≡◌, ◌⊎◌, ◌+◌, ◌<◌, ◌≤◌, ◌↔◌, ◌++◌, [], ◌∷◌, ℕ, List, length, take, IsTrue, IsErr};
ghost use Rattle.std.specs.Prelude.{IsErrOf, IsOk, is_ok, IfOk, OnOk, OnErr};
ghost use Rattle.sed_value.specs.declared.limits.TheConstants.{LARGEST_SLOT};
ghost use Rattle.sed_outside.specs.Cause.{Rose, HasCause};
ghost use Rattle.disk_model.specs.Disk.{Elapses, During, MarksUp};
ghost use Rattle.app_save.specs.Store.{Opens};
ghost use Rattle.app_save.specs.Saving.{AllStores, AllOpen, OpensAsBegun, SinceSync, KeepsEqualPages};
ghost use Rattle.app_save.specs.Saving.{TouchesSlot, WritesSlot, Renews, ClosesSlot};
ghost use Rattle.app_save.specs.Run.{Saves, IsRun};

use crate::load::load_newest;
use crate::refusal::SaveRefusal;
use crate::save::write_save;
use disk_model::{Disk, DiskFault};
use std::marker::Model;

/// A store on a disk, which is handed to each call. Contracts see it as the size of its slots, in bytes.
#[derive(Drop)]
pub struct Store {
    slot: u32,
}

impl Model for Store {
    ghost use Rattle.std.specs.Prelude.{ℕ, ◌≤◌};
    ghost use Rattle.sed_value.specs.declared.limits.TheConstants.{LARGEST_SLOT};

    ghost Value = { ℕ };

    ghost view = { λ s. s.slot };

    ghost invariant = { λ s. s.slot ≤ LARGEST_SLOT };
}

impl Store {
    /// A store with slots of that size.
    pub(crate) fn with_slot(slot: u32) -> Store
        requires { slot ≤ LARGEST_SLOT }
        ensures { result ≡ slot }
    {
        Store { slot }
    }

    /// The size of its slots, in bytes: 0 to 4,194,304.
    pub fn slot(&self) -> u32
        ensures slot { result ≡ self.now }
        ensures small { result ≤ LARGEST_SLOT }
    {
        self.slot
    }

    /// Saves the payload on the disk that holds this store. It takes no memory, and asks nothing of the disk where the
    /// payload is longer than a slot.
    ///
    /// At each moment of the call a crash leaves a whole store that opens to what it opened to before, or to the
    /// payload. After Ok every crash leaves one that opens to the payload, until the next save, and one mark was made.
    /// After `Device` it may open to either; the next save begins anew and needs nothing else of this one. What was
    /// saved before is kept in pages of 512 bytes: from the first sync on, a page of the payload that already stood in
    /// the slot is never torn. From that sync on nothing outside the slot that isn't newest is written, and there no
    /// more than the payload and what stands in front of it; after Ok these bytes are exactly the payload's, in the
    /// next generation.
    pub fn save<D: Disk>(&mut self, disk: &mut D, payload: &[u8]) -> Result<(), SaveRefusal>
        requires stores { IsTrue (D.meaning disk.old).tells → AllStores self.old (D.meaning disk.old) }
        ensures same { self.new ≡ self.old }

        // a crash at any moment of the call, and after it
        ensures moments { IsTrue (D.meaning disk.old).tells
            → During (D.meaning disk.old) (D.meaning disk.new)
            (OpensAsBegun self.old payload.now (D.meaning disk.old)) }
        ensures saved { IsTrue (D.meaning disk.old).tells
            → OnOk result (AllOpen self.old payload.now (D.meaning disk.new)) }
        ensures stores { IsTrue (D.meaning disk.old).tells → AllStores self.old (D.meaning disk.new) }
        ensures pages { IsTrue (D.meaning disk.old).tells → IsTrue (D.meaning disk.old).tells_syncs →
            SinceSync (D.meaning disk.old) (D.meaning disk.new)
            (KeepsEqualPages self.old payload.now (D.meaning disk.old).content) }

        // the bytes that it writes
        ensures touches { IsTrue (D.meaning disk.old).tells → IsTrue (D.meaning disk.old).tells_syncs →
            SinceSync (D.meaning disk.old) (D.meaning disk.new)
            (TouchesSlot self.old payload.now (D.meaning disk.old).content) }
        ensures closes { IsTrue (D.meaning disk.old).tells
            → ClosesSlot self.old payload.now (D.meaning disk.old) (D.meaning disk.new) }
        ensures writes { IsTrue (D.meaning disk.old).tells
            → OnOk result (WritesSlot self.old payload.now (D.meaning disk.old).content (D.meaning disk.new)) }
        ensures renews { IsTrue (D.meaning disk.old).tells
            → OnOk result (Renews self.old (D.meaning disk.old).content (D.meaning disk.new)) }
        ensures time { Elapses (D.meaning disk.old) (D.meaning disk.new) }

        // marks, and a run of many saves
        ensures mark { OnOk result (MarksUp (D.meaning disk.old) (D.meaning disk.new) 1) }
        ensures no_mark { OnErr result (MarksUp (D.meaning disk.old) (D.meaning disk.new) 0) }
        ensures run { IsTrue (D.meaning disk.old).tells → IsTrue (D.meaning disk.old).tells_marks
            → length payload.now ≤ self.old →
            (start : D) (opened : List ℕ) (saves : Saves)
            → IsRun self.old opened saves (D.meaning start) (D.meaning disk.old) →
            IsRun self.old opened (saves ++ (payload.now, is_ok result) ∷ []) (D.meaning start) (D.meaning disk.new) }
        ensures attached { (D.meaning disk.new).attached ≡ (D.meaning disk.old).attached }

        // its answers
        ensures full { IsErrOf result SaveRefusal.Full ↔ (self.old < length payload.now) }
        ensures untouched { IsErrOf result SaveRefusal.Full → disk.new ≡ disk.old }
        ensures cause { HasCause (D.meaning disk.old).faults (D.meaning disk.new).faults
            (IsErrOf result SaveRefusal.Device) }
        ensures answers { IsErr result → IsErrOf result SaveRefusal.Full ⊎ IsErrOf result SaveRefusal.Device }
        ensures comes { length payload.now ≤ self.old
            → (Rose (D.meaning disk.old).faults (D.meaning disk.new).faults → ⊥) → IsOk result }
    {
        if payload.len() > self.slot as usize {
            return Err(SaveRefusal::Full);
        }
        match write_save(disk, self.slot, payload) {
            Ok(()) => {}
            Err(DiskFault::Failed) => return Err(SaveRefusal::Device),
        }
        disk.acknowledge();
        Ok(())
    }

    /// Reads what was saved last into the first bytes of `into`, and answers how many these are. It begins with a sync,
    /// writes nothing and takes no memory. After `Device`, its one refusal, `into` may hold any bytes.
    pub fn load<D: Disk>(&mut self, disk: &mut D, into: &mut [u8]) -> Result<usize, SaveRefusal>
        requires room { length into.old ≡ self.old }
        requires stores { IsTrue (D.meaning disk.old).tells → AllStores self.old (D.meaning disk.old) }
        ensures same { self.new ≡ self.old }
        ensures fits { IfOk result (λ len. len ≤ self.old) }
        ensures opens { IsTrue (D.meaning disk.old).tells
            → IfOk result (λ len. Opens self.old (D.meaning disk.old).content (take len into.new)) }

        // a crash at any moment of the call, and after it
        ensures moments { IsTrue (D.meaning disk.old).tells
            → During (D.meaning disk.old) (D.meaning disk.new) ((D.meaning disk.old).leaves (D.meaning disk.old).now) }
        ensures opened { IsTrue (D.meaning disk.old).tells
            → IfOk result (λ len. AllOpen self.old (take len into.new) (D.meaning disk.new)) }
        ensures stores { IsTrue (D.meaning disk.old).tells → AllStores self.old (D.meaning disk.new) }
        ensures content { IsTrue (D.meaning disk.old).tells → (IsErrOf result SaveRefusal.Device → ⊥)
            → (D.meaning disk.new).content ≡ (D.meaning disk.old).content }
        ensures time { Elapses (D.meaning disk.old) (D.meaning disk.new) }
        ensures marks { MarksUp (D.meaning disk.old) (D.meaning disk.new) 0 }
        ensures run { IsTrue (D.meaning disk.old).tells → IsTrue (D.meaning disk.old).tells_marks →
            (start : D) (opened : List ℕ) (saves : Saves)
            → IsRun self.old opened saves (D.meaning start) (D.meaning disk.old)
            → IsRun self.old opened saves (D.meaning start) (D.meaning disk.new) }
        ensures attached { (D.meaning disk.new).attached ≡ (D.meaning disk.old).attached }

        // its answers
        ensures cause { HasCause (D.meaning disk.old).faults (D.meaning disk.new).faults (IsErr result) }
        ensures answers { IsErr result → IsErrOf result SaveRefusal.Device }
    {
        match load_newest(disk, self.slot, into) {
            Ok(len) => Ok(len as usize),
            Err(DiskFault::Failed) => Err(SaveRefusal::Device),
        }
    }
}
