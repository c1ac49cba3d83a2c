//! What is done with a store, step by step.
ghost use Rattle.std.specs.Prelude.{◌≤◌, length, IfOk, IsTrue};
ghost use Rattle.app_save.specs.Saving.{AllStores};
ghost use Rattle.disk_model.specs.Disk.{longest_name};
ghost use Rattle.sedona_cli.specs.Outside.{AsksDisk};
ghost use Rattle.sedona_cli.specs.Store.{OpenedOrWants, StoreAttached, StoreMade, payload_of};

use crate::refusal::Refusal;
use app_save::{SaveRefusal, Store, make, open};
use disk_model::Disk;
use sed_value::Items;
use std::alloc::Global;

/// Attaches the store of this name.
pub fn attach_store<D: Disk>(disk: &mut D, name: &str) -> Result<(), Refusal>
    requires { length name.now ≤ longest_name }
    ensures { AsksDisk D.Disk disk.old disk.new (λ asks. StoreAttached name.now asks result) }
{
    match disk.attach(name) {
        Ok(()) => Ok(()),
        Err(_) => Err(Refusal::DeviceFault),
    }
}

/// Makes a store with this payload in the file that is attached. It takes no memory.
pub fn make_store<D: Disk>(disk: &mut D, slot: u32, payload: &[u8]) -> Result<(), Refusal>
    requires some { 1 ≤ slot }
    requires small { slot ≤ 4194304 }
    requires fits { length payload.now ≤ slot }
    ensures { AsksDisk D.Disk disk.old disk.new (λ asks. StoreMade slot payload.now asks result) }
{
    match make(disk, slot, payload) {
        Ok(_) => Ok(()),
        Err(SaveRefusal::NotEmpty) => Err(Refusal::StoreExists),
        Err(SaveRefusal::Device) => Err(Refusal::DeviceFault),
        Err(_) => unreachable!(),
    }
}

/// Opens the store in the file that is attached, and gives it with the payload of its newest slot. Nothing is written.
pub fn open_with_slot<D: Disk>(alloc: Global, disk: &mut D) -> Result<(Store, Items<u8>), Refusal>
    ensures asks { AsksDisk D.Disk disk.old disk.new (λ asks. OpenedOrWants asks (payload_of result)) }
    // Each image that a crash now may leave is a whole store with slots of its size.
    ensures slots { IsTrue (D.meaning disk.new).tells → IfOk result (λ found. AllStores found.0 (D.meaning disk.new)) }
{
    let mut payload = Vec::new(alloc);
    match open(disk, &mut payload) {
        Ok(store) => Ok((store, Items::new(payload))),
        Err(SaveRefusal::NotAStore) => Err(Refusal::NoStore),
        Err(SaveRefusal::Device) => Err(Refusal::DeviceFault),
        Err(SaveRefusal::Memory) => Err(Refusal::Memory),
        Err(_) => unreachable!(),
    }
}

/// Opens the store in the file that is attached, and gives the payload of its newest slot. Nothing is written.
pub fn open_store<D: Disk>(alloc: Global, disk: &mut D) -> Result<Items<u8>, Refusal>
    ensures { AsksDisk D.Disk disk.old disk.new (λ asks. OpenedOrWants asks result) }
{
    match open_with_slot(alloc, disk) {
        Ok(found) => Ok(found.1),
        Err(refusal) => Err(refusal),
    }
}
