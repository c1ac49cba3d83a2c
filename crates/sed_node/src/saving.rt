//! Saving the application.
ghost use Rattle.std.specs.Prelude.{◌≡◌, ◌⊎◌, ◌<◌, ◌↔◌, length, IsTrue, IsErr, IsErrOf, IfOk};
ghost use Rattle.sed_outside.specs.Cause.{HasCause};
ghost use Rattle.disk_model.specs.Disk.{Elapses};
ghost use Rattle.app_save.specs.Saving.{AllStores};
ghost use Rattle.sed_engine.specs.Whole.{IsWhole};
ghost use Rattle.comp_tree.specs.Whole.{Whole};
ghost use Rattle.link_prop.specs.Linked.{application_of};
ghost use Rattle.app_file.specs.Text.{app_text};
ghost use Rattle.sed_node.specs.OnDisk.{OnDisk};
ghost use Rattle.sed_node.specs.Saving.{SavesText, begun};

use app_file::texts_are_files_of_what_is_kept;
use app_save::{SaveRefusal, Store, stores_open_to_one};
use app_writer::write_app;
use disk_model::Disk;
use link_prop::App;
use sed_engine::Engine;
use sed_value::{Memory, zeros};
use std::alloc::Global;
use std::marker::Model;

/// A store, and room for what is saved in it. Contracts see it as the size of a slot, in bytes.
#[derive(Drop)]
pub struct Saver {
    store: Store,
    buffer: Vec<u8>,
}

impl Model for Saver {
    ghost use Rattle.std.specs.Prelude.{ℕ, ◌≡◌, length};

    ghost Value = { ℕ };

    ghost view = { λ s. s.store };

    ghost invariant = { λ s. length s.buffer.items ≡ s.store };
}

impl Saver {
    /// A store with room for what is saved in it, which is taken here: as many bytes as a slot.
    pub fn new(alloc: Global, store: Store) -> Result<Saver, Memory>
        ensures { IfOk result (λ saver. saver ≡ store) }
    {
        let buffer = zeros(alloc, store.slot() as usize)?;
        Ok(Saver { store, buffer })
    }

    /// Saves what is kept of an application on the disk that holds the store. Where the application's text is longer
    /// than a slot the answer is `Full`, and nothing is asked of the disk; it is `Device` only where the disk's count
    /// of faults has risen. It takes no memory.
    pub fn save<E: Engine, D: Disk>(
        &mut self,
        app: &App<E>,
        disk: &mut D,
    ) -> Result<(), SaveRefusal>
        requires stores { IsTrue (D.meaning disk.old).tells → AllStores self.old (D.meaning disk.old) }
        ensures same { self.new ≡ self.old }
        ensures full { IsErrOf result SaveRefusal.Full
            ↔ (self.old < length (app_text (E.meaning app.now.tree.engine) (application_of E.Engine app.now))) }
        ensures disk { IsWhole (E.meaning app.now.tree.engine)
            → Whole (E.meaning app.now.tree.engine) (application_of E.Engine app.now)
            → OnDisk D.meaning (E.meaning app.now.tree.engine) self.old
            (begun (E.meaning app.now.tree.engine) (application_of E.Engine app.now) result) disk.old disk.new }
        ensures stores { IsTrue (D.meaning disk.old).tells → AllStores self.old (D.meaning disk.new) }
        ensures cause { HasCause (D.meaning disk.old).faults (D.meaning disk.new).faults
            (IsErrOf result SaveRefusal.Device) }
        ensures answers { IsErr result → IsErrOf result SaveRefusal.Full ⊎ IsErrOf result SaveRefusal.Device }
        ensures time { Elapses (D.meaning disk.old) (D.meaning disk.new) }
    {
        texts_are_files_of_what_is_kept();
        stores_open_to_one();
        save_text(&mut self.store, app, disk, &mut self.buffer)
    }
}

// Saves the text of an application, which is put into a buffer as long as a slot.
fn save_text<E: Engine, D: Disk>(
    store: &mut Store,
    app: &App<E>,
    disk: &mut D,
    buffer: &mut [u8],
) -> Result<(), SaveRefusal>
    requires room { length buffer.old ≡ store.old }
    requires stores { IsTrue (D.meaning disk.old).tells → AllStores store.old (D.meaning disk.old) }
    ensures same { store.new ≡ store.old }
    ensures room { length buffer.new ≡ store.old }
    ensures full { IsErrOf result SaveRefusal.Full
        ↔ (store.old < length (app_text (E.meaning app.now.tree.engine) (application_of E.Engine app.now))) }
    ensures saves { let text = app_text (E.meaning app.now.tree.engine) (application_of E.Engine app.now) in
        SavesText D.meaning store.old text result disk.old disk.new }
    ensures answers { IsErr result → IsErrOf result SaveRefusal.Full ⊎ IsErrOf result SaveRefusal.Device }
    ensures stores { IsTrue (D.meaning disk.old).tells → AllStores store.old (D.meaning disk.new) }
    ensures cause { HasCause (D.meaning disk.old).faults (D.meaning disk.new).faults
        (IsErrOf result SaveRefusal.Device) }
    ensures time { Elapses (D.meaning disk.old) (D.meaning disk.new) }
{
    match write_app(app, buffer) {
        Ok(count) => store.save(disk, &buffer[..count]),
        Err(_) => Err(SaveRefusal::Full),
    }
}
