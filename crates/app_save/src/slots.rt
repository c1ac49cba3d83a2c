//! The two slots: what stands in front of their payloads, and which is the newest.
ghost use Rattle.std.specs.Prelude.{◌≡◌, ◌+◌, ◌*◌, ◌%◌, ◌≤◌, ◌==◌, length, slice_index, IsTrue, IsErr, IfOk};
ghost use Rattle.sed_value.specs.declared.limits.TheConstants.{LARGEST_SLOT};
ghost use Rattle.sed_outside.specs.Cause.{HasCause};
ghost use Rattle.disk_model.specs.Disk.{Image, Elapses, Keeps, MarksUp, SyncsUp};
ghost use Rattle.app_save.specs.Store.{IsStore, AreSlots};
ghost use Rattle.app_save.specs.Slots.{IsHeader, IsPlace};

use disk_model::{Disk, DiskFault};

/// The byte of an open gate. Any other byte is a closed one.
pub const OPEN: u8 = 0xa5;

/// How many bytes stand in front of a payload: the gate, four of length and one of generation.
pub const HEADER: u64 = 6;

/// What stands in front of a slot's payload.
#[derive(Clone, Copy, Drop)]
pub struct Header {
    pub is_open: bool,
    pub len: u32,
    pub generation: u8,
}

/// Which slot is the newest and how long its payload is, and where a save writes: where the other slot begins, the
/// generation that it gets, and whether its gate is open.
#[derive(Clone, Copy, Drop)]
pub struct Place {
    pub newest: u64,
    pub len: u32,
    pub other: u64,
    pub generation: u8,
    pub is_open: bool,
}

/// Where the second slot begins.
pub fn second_slot(slot: u32) -> u64
    ensures { result ≡ slot + 6 }
{
    slot as u64 + HEADER
}

fn header_of(bytes: &[u8; 6]) -> Header
    ensures is_open { result.is_open ≡ (slice_index bytes.now 0 == 165) }
    ensures len { result.len ≡ 16777216 * slice_index bytes.now 1 + 65536
        * slice_index bytes.now 2 + 256 * slice_index bytes.now 3 + slice_index bytes.now 4 }
    ensures generation { result.generation ≡ slice_index bytes.now 5 }
{
    Header {
        is_open: bytes[0] == OPEN,
        len: u32::from_be_bytes([bytes[1], bytes[2], bytes[3], bytes[4]]),
        generation: bytes[5],
    }
}

/// Reads what stands in front of the payload of the slot that begins there.
pub fn read_header<D: Disk>(disk: &mut D, slot: u64) -> Result<Header, DiskFault>
    requires { IsTrue (D.meaning disk.old).tells → slot + 6 ≤ length (D.meaning disk.old).content }
    ensures header { IsTrue (D.meaning disk.old).tells
        → IfOk result (λ header. IsHeader (D.meaning disk.old).content slot header) }
    ensures keeps { IsTrue (D.meaning disk.old).tells → Keeps (D.meaning disk.old) (D.meaning disk.new) }
    ensures time { Elapses (D.meaning disk.old) (D.meaning disk.new) }
    ensures marks { MarksUp (D.meaning disk.old) (D.meaning disk.new) 0 }
    ensures syncs { SyncsUp (D.meaning disk.old) (D.meaning disk.new) 0 }
    ensures calls { (D.meaning disk.new).calls ≤ (D.meaning disk.old).calls + 1 }
    ensures attached { (D.meaning disk.new).attached ≡ (D.meaning disk.old).attached }
    ensures cause { HasCause (D.meaning disk.old).faults (D.meaning disk.new).faults (IsErr result) }
{
    let mut bytes = [0; 6];
    disk.read(slot, &mut bytes)?;
    Ok(header_of(&bytes))
}

/// The generation behind this one.
pub fn next_generation(generation: u8) -> u8
    ensures { result ≡ (generation + 1) % 3 }
{
    ((generation as u32 + 1) % 3) as u8
}

/// Where a save of a whole store with these headers writes.
pub fn place_of(slot: u32, first: &Header, second: &Header) -> Place
    requires { slot ≤ LARGEST_SLOT }
    ensures slots { AreSlots slot result.newest result.other }
    ensures place { (image : Image) → IsHeader image 0 first.now → IsHeader image (slot + 6) second.now
        → IsStore slot image → IsPlace image result }
{
    let second_is_newest = second.is_open
        && (!first.is_open || second.generation == next_generation(first.generation));
    if second_is_newest {
        Place {
            newest: second_slot(slot),
            len: second.len,
            other: 0,
            generation: next_generation(second.generation),
            is_open: first.is_open,
        }
    } else {
        Place {
            newest: 0,
            len: first.len,
            other: second_slot(slot),
            generation: next_generation(first.generation),
            is_open: second.is_open,
        }
    }
}
