//! Entries of a record.
ghost use Rattle.std.specs.Prelude.{◌≡◌, ◌≤◌, ◌++◌, ℕ, List, IsTrue, []};
ghost use Rattle.disk_model.specs.Disk.{Elapses};
ghost use Rattle.app_save.specs.Run.{IsRun, Saves};
ghost use Rattle.app_save.specs.Saving.{AllStores};
ghost use Rattle.sed_engine.specs.Code.{Meaning};
ghost use Rattle.replay_log.specs.View.{entry_of};
ghost use Rattle.node_events.specs.Node.{Node as State};
ghost use Rattle.node_events.specs.Saving.{Save};
ghost use Rattle.sed_node.specs.Handling.{AreSaved, Handles, texts_of};
ghost use Rattle.sed_node.specs.Standing.{SameSetup, StandsFor, code_of, is_fixed, setup_of};

use crate::kept::Kept;
use app_file::texts_are_files_of_what_is_kept;
use dasp_session::Outbox;
use disk_model::Disk;
use node_events::saves_are_of_what_was_reached;
use replay_log::Event;
use sed_engine::Engine;

impl<E: Engine> Kept<E> {
    // Handles an entry of a record, a datagram or a tick, and puts what is sent into an outbox, which is empty: at most
    // 496 messages. What it makes of the node and the disk, and what is sent, is that of the event that the entry comes
    // to. It gives how many root calls of the cycle trapped, which is 0 for a datagram.
    pub(crate) fn handle<D: Disk>(
        &mut self,
        disk: &mut D,
        event: Event<'_>,
        out: &mut Outbox,
    ) -> u32
        requires stands { (n : State) × StandsFor E.Engine self.old n }
        requires empty { out.old ≡ [] }
        requires stores { IsTrue (D.meaning disk.old).tells → AllStores (setup_of self.old).slot (D.meaning disk.old) }
        ensures handles { (n : State) → StandsFor E.Engine self.old n
            → Handles E.Engine D.meaning (is_fixed E.Engine self.old) (code_of E.Engine self.old) (setup_of self.old)
            self.new n (entry_of event.entry) result out.new disk.old disk.new }
        ensures same { SameSetup E.Engine self.old self.new }
        ensures stores { IsTrue (D.meaning disk.old).tells → AllStores (setup_of self.old).slot (D.meaning disk.new) }
        ensures attached { (D.meaning disk.new).attached ≡ (D.meaning disk.old).attached }
        ensures faults { (D.meaning disk.old).faults ≤ (D.meaning disk.new).faults }
        ensures time { Elapses (D.meaning disk.old) (D.meaning disk.new) }
    {
        saves_are_of_what_was_reached();
        texts_are_files_of_what_is_kept();
        match event {
            Event::Datagram { from, bytes } => {
                self.datagram(disk, from, bytes, out);
                0
            }
            Event::Tick { ticks } => {
                let end = self.tick(ticks, out);
                end.traps
            }
        }
    }
}

/// A run of saves on a disk goes on by the saves of what was handled: at each moment a crash leaves an image that opens
/// to an entry of it, none before the last one acknowledged by then.
pub fn saves_go_on<D: Disk>()
    ensures { (m : Meaning) (slot : ℕ) (start : D) (opened : List ℕ) (earlier : Saves) (saves : List Save)
        (old new : D)
        → AreSaved D.meaning m slot saves old new → IsTrue (D.meaning old).tells → IsTrue (D.meaning old).tells_marks
        → IsRun slot opened earlier (D.meaning start) (D.meaning old)
        → IsRun slot opened (earlier ++ texts_of m saves) (D.meaning start) (D.meaning new) }
{}
