//! The steps of a save: settle, close the other gate, fill the slot behind it, open the gate.
ghost use Rattle.std.specs.Prelude.{◌≡◌, ◌⊎◌, ◌+◌, ◌*◌, ◌%◌, ◌≤◌, ◌<◌, ◌++◌, ◌∷◌, [], false, length, slice_index};
ghost use Rattle.std.specs.Prelude.{IsTrue, IsErr, IfOk, OnOk, is_ok, if◌then◌else◌};
ghost use Rattle.sed_value.specs.declared.limits.TheConstants.{LARGEST_SLOT};
ghost use Rattle.sed_outside.specs.Cause.{HasCause};
ghost use Rattle.disk_model.specs.Disk.{Elapses, During, MarksUp, SyncsUp, Torn, IsTorn, Holds, largest_store};
ghost use Rattle.app_save.specs.Store.{IsOpen, AreSlots, generation_at};
ghost use Rattle.app_save.specs.Bytes.{header_bytes, slot_bytes};
ghost use Rattle.app_save.specs.Saving.{AllStores, AllOpen, OpensAsBegun, SinceSync, KeepsEqualPages};
ghost use Rattle.app_save.specs.Saving.{TouchesSlot, WritesSlot, Renews, ClosesFirst, ClosesSlot};
ghost use Rattle.app_save.specs.Slots.{IsPlace, IsReady};
ghost use Rattle.app_save.specs.Stages.{Stays, Closed, Saved, IsClosed, IsFilled, IsSaved, Lands, Settled};

use crate::pages::write_pages;
use crate::slots::{OPEN, Place, place_of, read_header, second_slot};
use disk_model::{Disk, DiskFault};

/// All of a save but its mark, of a payload that fits.
pub fn write_save<D: Disk>(disk: &mut D, slot: u32, payload: &[u8]) -> Result<(), DiskFault>
    requires small { slot ≤ LARGEST_SLOT }
    requires fits { length payload.now ≤ slot }
    requires stores { IsTrue (D.meaning disk.old).tells → AllStores slot (D.meaning disk.old) }
    ensures moments { IsTrue (D.meaning disk.old).tells
        → During (D.meaning disk.old) (D.meaning disk.new) (OpensAsBegun slot payload.now (D.meaning disk.old)) }
    ensures saved { IsTrue (D.meaning disk.old).tells → OnOk result (AllOpen slot payload.now (D.meaning disk.new)) }
    ensures pages { IsTrue (D.meaning disk.old).tells → IsTrue (D.meaning disk.old).tells_syncs →
        SinceSync (D.meaning disk.old) (D.meaning disk.new)
        (KeepsEqualPages slot payload.now (D.meaning disk.old).content) }
    ensures touches { IsTrue (D.meaning disk.old).tells → IsTrue (D.meaning disk.old).tells_syncs →
        SinceSync (D.meaning disk.old) (D.meaning disk.new)
        (TouchesSlot slot payload.now (D.meaning disk.old).content) }
    ensures closes { IsTrue (D.meaning disk.old).tells
        → ClosesSlot slot payload.now (D.meaning disk.old) (D.meaning disk.new) }
    ensures writes { IsTrue (D.meaning disk.old).tells
        → OnOk result (WritesSlot slot payload.now (D.meaning disk.old).content (D.meaning disk.new)) }
    ensures renews { IsTrue (D.meaning disk.old).tells
        → OnOk result (Renews slot (D.meaning disk.old).content (D.meaning disk.new)) }
    ensures time { Elapses (D.meaning disk.old) (D.meaning disk.new) }
    ensures marks { MarksUp (D.meaning disk.old) (D.meaning disk.new) 0 }
    ensures unmarked { OnOk result ((D.meaning disk.new).is_marked ≡ false) }
    ensures attached { (D.meaning disk.new).attached ≡ (D.meaning disk.old).attached }
    ensures cause { HasCause (D.meaning disk.old).faults (D.meaning disk.new).faults (IsErr result) }
{
    let place = settle(disk, slot)?;
    write_slot(disk, slot, &place, payload)
}

/// Syncs, and finds the newest slot and where a save writes.
pub fn settle<D: Disk>(disk: &mut D, slot: u32) -> Result<Place, DiskFault>
    requires small { slot ≤ LARGEST_SLOT }
    requires stores { IsTrue (D.meaning disk.old).tells → AllStores slot (D.meaning disk.old) }
    ensures settled { IsTrue (D.meaning disk.old).tells → Settled result (D.meaning disk.old) (D.meaning disk.new) }
    ensures slots { IfOk result (λ place. AreSlots slot place.newest place.other) }
    ensures place { IsTrue (D.meaning disk.old).tells
        → IfOk result (λ place. IsPlace (D.meaning disk.old).content place) }
    ensures time { Elapses (D.meaning disk.old) (D.meaning disk.new) }
    ensures marks { MarksUp (D.meaning disk.old) (D.meaning disk.new) 0 }
    ensures attached { (D.meaning disk.new).attached ≡ (D.meaning disk.old).attached }
    ensures cause { HasCause (D.meaning disk.old).faults (D.meaning disk.new).faults (IsErr result) }
{
    disk.sync()?;
    let first = read_header(disk, 0)?;
    let second = read_header(disk, second_slot(slot))?;
    Ok(place_of(slot, &first, &second))
}

// Writes the slot that isn't newest, when nothing waits for a sync.
fn write_slot<D: Disk>(
    disk: &mut D,
    slot: u32,
    place: &Place,
    payload: &[u8],
) -> Result<(), DiskFault>
    requires small { slot ≤ LARGEST_SLOT }
    requires fits { length payload.now ≤ slot }
    requires slots { AreSlots slot place.now.newest place.now.other }
    requires ready { IsTrue (D.meaning disk.old).tells → IsReady slot place.now (D.meaning disk.old) }
    ensures during { IsTrue (D.meaning disk.old).tells → During (D.meaning disk.old) (D.meaning disk.new)
        (λ c. Stays slot place.now.newest place.now.other payload.now (D.meaning disk.old).content c
        ⊎ Saved slot place.now.newest place.now.other payload.now c) }
    ensures saved { IsTrue (D.meaning disk.old).tells
        → OnOk result (IsSaved slot place.now.newest place.now.other payload.now (D.meaning disk.new)) }
    ensures touches { IsTrue (D.meaning disk.old).tells → During (D.meaning disk.old) (D.meaning disk.new)
        (IsTorn place.now.other (6 + length payload.now) (D.meaning disk.old)) }
    ensures closes { IsTrue (D.meaning disk.old).tells → IsOpen (D.meaning disk.old).content place.now.other
        → ClosesFirst place.now.other (header_bytes place.now.generation (length payload.now) ++ payload.now)
        (D.meaning disk.old) (D.meaning disk.new) }
    ensures holds { IsTrue (D.meaning disk.old).tells → OnOk result (Holds place.now.other
        (slot_bytes 0xa5 place.now.generation payload.now) (D.meaning disk.new).content) }
    ensures time { Elapses (D.meaning disk.old) (D.meaning disk.new) }
    ensures marks { MarksUp (D.meaning disk.old) (D.meaning disk.new) 0 }
    ensures unmarked { OnOk result ((D.meaning disk.new).is_marked ≡ false) }
    ensures attached { (D.meaning disk.new).attached ≡ (D.meaning disk.old).attached }
    ensures cause { HasCause (D.meaning disk.old).faults (D.meaning disk.new).faults (IsErr result) }
{
    close_gate(disk, slot, place, payload)?;
    fill(disk, slot, place, payload)?;
    open_gate(disk, slot, place, payload)
}

// Closes the other gate where it reads open. A needless write could open it over a slot that is torn.
fn close_gate<D: Disk>(
    disk: &mut D,
    slot: u32,
    place: &Place,
    payload: &[u8],
) -> Result<(), DiskFault>
    requires small { slot ≤ LARGEST_SLOT }
    requires fits { length payload.now ≤ slot }
    requires slots { AreSlots slot place.now.newest place.now.other }
    requires ready { IsTrue (D.meaning disk.old).tells → IsReady slot place.now (D.meaning disk.old) }
    ensures during { IsTrue (D.meaning disk.old).tells
        → During (D.meaning disk.old) (D.meaning disk.new)
        (Stays slot place.now.newest place.now.other payload.now (D.meaning disk.old).content) }
    ensures closed { IsTrue (D.meaning disk.old).tells
        → OnOk result (IsClosed slot place.now.newest place.now.other payload.now
        (D.meaning disk.old).content (D.meaning disk.new)) }
    ensures zero { IsTrue (D.meaning disk.old).tells → IsOpen (D.meaning disk.old).content place.now.other
        → OnOk result (slice_index (D.meaning disk.new).content place.now.other ≡ 0) }
    ensures touches { IsTrue (D.meaning disk.old).tells → During (D.meaning disk.old) (D.meaning disk.new)
        (IsTorn place.now.other 1 (D.meaning disk.old)) }
    ensures time { Elapses (D.meaning disk.old) (D.meaning disk.new) }
    ensures marks { MarksUp (D.meaning disk.old) (D.meaning disk.new) 0 }
    ensures attached { (D.meaning disk.new).attached ≡ (D.meaning disk.old).attached }
    ensures cause { HasCause (D.meaning disk.old).faults (D.meaning disk.new).faults (IsErr result) }
{
    if place.is_open {
        return write_through(disk, place.other, &[0]);
    }
    Ok(())
}

/// Writes the bytes at that place, and waits until they are on the disk.
pub fn write_through<D: Disk>(disk: &mut D, at: u64, bytes: &[u8]) -> Result<(), DiskFault>
    requires { at + length bytes.now ≤ largest_store }
    ensures lands { IsTrue (D.meaning disk.old).tells
        → Lands at bytes.now result (D.meaning disk.old) (D.meaning disk.new) }
    ensures syncs { SyncsUp (D.meaning disk.old) (D.meaning disk.new) (if is_ok result then 1 else 0) }
    ensures time { Elapses (D.meaning disk.old) (D.meaning disk.new) }
    ensures marks { MarksUp (D.meaning disk.old) (D.meaning disk.new) 0 }
    ensures unmarked { OnOk result ((D.meaning disk.new).is_marked ≡ false) }
    ensures attached { (D.meaning disk.new).attached ≡ (D.meaning disk.old).attached }
    ensures cause { HasCause (D.meaning disk.old).faults (D.meaning disk.new).faults (IsErr result) }
{
    disk.write_at(at, bytes)?;
    disk.sync()
}

/// The length and generation that stand behind a gate.
pub fn behind_gate(len: u32, generation: u8) -> [u8; 5]
    ensures five { length result ≡ 5 }
    ensures len { 16777216 * slice_index result 0 + 65536 * slice_index result 1
        + 256 * slice_index result 2 + slice_index result 3 ≡ len }
    ensures generation { slice_index result 4 ≡ generation }
    ensures bytes { result ≡ header_bytes generation len }
{
    let [high, upper, lower, low] = len.to_be_bytes();
    [high, upper, lower, low, generation]
}

// Writes the payload, its length and its generation behind the closed gate.
fn fill<D: Disk>(disk: &mut D, slot: u32, place: &Place, payload: &[u8]) -> Result<(), DiskFault>
    requires small { slot ≤ LARGEST_SLOT }
    requires fits { length payload.now ≤ slot }
    requires slots { AreSlots slot place.now.newest place.now.other }
    requires next { IsTrue (D.meaning disk.old).tells
        → place.now.generation ≡ (generation_at (D.meaning disk.old).content place.now.newest + 1) % 3 }
    requires closed { IsTrue (D.meaning disk.old).tells
        → IsClosed slot place.now.newest place.now.other payload.now (D.meaning disk.old).content (D.meaning disk.old) }
    ensures during { IsTrue (D.meaning disk.old).tells
        → During (D.meaning disk.old) (D.meaning disk.new)
        (Closed slot place.now.newest place.now.other payload.now (D.meaning disk.old).content) }
    ensures filled { IsTrue (D.meaning disk.old).tells
        → OnOk result (IsFilled slot place.now.newest place.now.other payload.now
        (D.meaning disk.old).content (D.meaning disk.new)) }
    ensures touches { IsTrue (D.meaning disk.old).tells → During (D.meaning disk.old) (D.meaning disk.new)
        (IsTorn (place.now.other + 1) (5 + length payload.now) (D.meaning disk.old)) }
    ensures holds { IsTrue (D.meaning disk.old).tells → OnOk result (Holds (place.now.other + 1)
        (header_bytes place.now.generation (length payload.now) ++ payload.now) (D.meaning disk.new).content) }
    ensures time { Elapses (D.meaning disk.old) (D.meaning disk.new) }
    ensures marks { MarksUp (D.meaning disk.old) (D.meaning disk.new) 0 }
    ensures attached { (D.meaning disk.new).attached ≡ (D.meaning disk.old).attached }
    ensures cause { HasCause (D.meaning disk.old).faults (D.meaning disk.new).faults (IsErr result) }
{
    write_pages(disk, slot, place, payload)?;
    let header = behind_gate(payload.len() as u32, place.generation);
    write_through(disk, place.other + 1, &header)
}

// Opens the closed gate of the slot that is filled.
fn open_gate<D: Disk>(
    disk: &mut D,
    slot: u32,
    place: &Place,
    payload: &[u8],
) -> Result<(), DiskFault>
    requires small { slot ≤ LARGEST_SLOT }
    requires slots { AreSlots slot place.now.newest place.now.other }
    requires filled { IsTrue (D.meaning disk.old).tells
        → IsFilled slot place.now.newest place.now.other payload.now (D.meaning disk.old).content (D.meaning disk.old) }
    ensures during { IsTrue (D.meaning disk.old).tells → During (D.meaning disk.old) (D.meaning disk.new)
        (λ c. Stays slot place.now.newest place.now.other payload.now (D.meaning disk.old).content c
        ⊎ Saved slot place.now.newest place.now.other payload.now c) }
    ensures saved { IsTrue (D.meaning disk.old).tells
        → OnOk result (IsSaved slot place.now.newest place.now.other payload.now (D.meaning disk.new)) }
    ensures touches { IsTrue (D.meaning disk.old).tells → During (D.meaning disk.old) (D.meaning disk.new)
        (IsTorn place.now.other 1 (D.meaning disk.old)) }
    ensures gate { IsTrue (D.meaning disk.old).tells
        → OnOk result (Torn place.now.other 1 (D.meaning disk.old).content (D.meaning disk.new).content) }
    ensures holds { IsTrue (D.meaning disk.old).tells
        → OnOk result (Holds place.now.other (0xa5 ∷ []) (D.meaning disk.new).content) }
    ensures time { Elapses (D.meaning disk.old) (D.meaning disk.new) }
    ensures marks { MarksUp (D.meaning disk.old) (D.meaning disk.new) 0 }
    ensures unmarked { OnOk result ((D.meaning disk.new).is_marked ≡ false) }
    ensures attached { (D.meaning disk.new).attached ≡ (D.meaning disk.old).attached }
    ensures cause { HasCause (D.meaning disk.old).faults (D.meaning disk.new).faults (IsErr result) }
{
    write_through(disk, place.other, &[OPEN])
}
