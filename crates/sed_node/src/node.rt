//! The node.
ghost use Rattle.std.specs.Prelude.{◌≡◌, [], IfOk, IsTrue, Option};
ghost use Rattle.disk_model.specs.Disk.{Elapses};
ghost use Rattle.app_save.specs.Saving.{AllStores};
ghost use Rattle.comp_tree.specs.Whole.{Whole};
ghost use Rattle.link_prop.specs.Linked.{application_of};
ghost use Rattle.node_events.specs.Heard.{Heard, IsHeard};
ghost use Rattle.node_events.specs.Node.{Node as State, Setup, live_sessions, opened};
ghost use Rattle.sed_node.specs.Doing.{Delivers, Ticks};
ghost use Rattle.sed_node.specs.Standing.{StandsFor, code_of, is_fixed, setup_of};

use crate::kept::Kept;
use crate::saving::Saver;
use app_file::a_cycle_keeps_whole;
use app_save::Store;
use comp_tree::Turns;
use dasp_session::{Outbox, Sessions, Users};
use disk_model::Disk;
use link_prop::{App, CycleEnd, begin};
use node_events::{few_messages_are_sent, only_open_sessions_have_subscribed};
use sed_engine::Engine;
use sed_outside::Addr;
use sed_value::Memory;
use sox_events::Subs;
use sox_events::laws::subscribing_keeps_agreement;
use std::alloc::Global;
use std::marker::Model;

/// A node, with room for what one event sends. Contracts see what it keeps, which always stands for a node of the
/// definitions (`StandsFor`): for one to each list of sessions that its windows stand for.
#[derive(Drop)]
pub struct Node<E: Engine> {
    pub(crate) kept: Kept<E>,
    // What an event of a run sends.
    pub(crate) outbox: Outbox,
}

impl<E: Engine> Model for Node<E> {
    ghost use Rattle.node_events.specs.Node.{Node as State};
    ghost use Rattle.sed_node.specs.Standing.{StandsFor};
    ghost use Rattle.sed_node.specs.declared.kept.Kept.{Kept as Fields};
    ghost use Rattle.node_table.specs.contracts.node.Node as node;
    ghost use Rattle.link_prop.specs.Linked.{linked_code};
    ghost use Rattle.std.specs.Coded.{codes};

    ghost Value = { Fields E };

    ghost coded = { Prim.hlevel (codes, linked_code E.code node.the_row.coded) };

    ghost view = { λ a. a.kept };

    ghost invariant = { λ a. (n : State) × StandsFor E.Engine a.kept n };
}

impl<E: Engine> Node<E> {
    /// The node of a whole application as it was opened, at a moment in nanoseconds: `start` of each component is
    /// called, with so many turns for each root call, 1 to 1,000,000. No session lives, and nothing is subscribed.
    /// The store's size of a slot, in bytes, is that of each save.
    ///
    /// All memory that events and runs need is taken here, that of adds apart. Where it is wanted the answer is
    /// `Memory`, and application and store are gone; nothing was asked of a disk.
    pub fn open(
        alloc: Global,
        app: App<E>,
        store: Store,
        users: Users,
        secret: [u8; 20],
        turns: Turns,
        moment: i64,
    ) -> Result<Node<E>, Memory>
        requires { Whole (E.meaning app.tree.engine) (application_of E.Engine app) }
        ensures opened { IfOk result (λ node. StandsFor E.Engine node
            (opened (E.meaning app.tree.engine) (let s : Setup = record { turns = turns; slot = store } in s)
            (application_of E.Engine app) users secret moment)) }
        ensures code { IfOk result (λ node. code_of E.Engine node ≡ E.meaning app.tree.engine) }
        ensures setup { IfOk result (λ node. setup_of node
            ≡ (let s : Setup = record { turns = turns; slot = store } in s)) }
        ensures fixed { IfOk result (λ node. is_fixed E.Engine node ≡ E.fixed app.tree.engine) }
    {
        a_cycle_keeps_whole();
        subscribing_keeps_agreement::<E>();
        only_open_sessions_have_subscribed();
        few_messages_are_sent();
        let schema = app.tree().schema();
        let sessions = Sessions::new(alloc, users, secret, moment)?;
        let subs = Subs::new(alloc, schema)?;
        let saver = Saver::new(alloc, store)?;
        let outbox = Outbox::new(alloc)?;
        let mut app = app;
        begin(&mut app, turns, moment);
        let kept = Kept {
            app,
            sessions,
            subs,
            saver,
            turns,
        };
        Ok(Node { kept, outbox })
    }

    /// Handles a datagram that came from an address, and puts what is sent into an outbox, which is empty: at most one
    /// message. What it makes of the node, and what is sent, is what is defined of the event (`delivered`). Two things
    /// may go wrong that its bytes do not tell: an add may want memory, over an engine that is not fixed, and the disk
    /// may fail a save, where its count of faults has risen. The reply says so, and what is refused leaves the
    /// application and the subscriptions.
    ///
    /// Where the App's `save` is asked for, and neither refused nor too long for a slot, what is kept of the
    /// application is saved on the disk, which holds the store: every image that a crash now may leave is a whole
    /// one, before and after. Where it is acknowledged the reply is `I` and one mark was made, the last thing that is
    /// asked of the disk; else no mark was made, and the disk's count of faults has risen. The file that is attached
    /// stays. A crash at any moment leaves an image that opens as one did before, or to what is kept; once it is
    /// acknowledged, to what is kept. In any other event the disk stays as it is.
    pub fn datagram<D: Disk>(&mut self, disk: &mut D, from: Addr, bytes: &[u8], out: &mut Outbox)
        requires empty { out.old ≡ [] }
        requires stores { IsTrue (D.meaning disk.old).tells → AllStores (setup_of self.old).slot (D.meaning disk.old) }
        ensures delivers { (n : State) (heard : Option Heard) → StandsFor E.Engine self.old n → IsHeard bytes.now heard
            → Delivers E.Engine D.meaning self.old self.new n from heard out.new disk.old disk.new }
        ensures stores { IsTrue (D.meaning disk.old).tells → AllStores (setup_of self.old).slot (D.meaning disk.new) }
        ensures time { Elapses (D.meaning disk.old) (D.meaning disk.new) }
    {
        self.kept.datagram(disk, from, bytes, out);
    }

    /// Lets a moment come, in nanoseconds; an earlier one than the node's lets it stay. The cycle runs, and then what
    /// is due is put into an outbox, which is empty, at most 496 messages: place by place the timeouts of its
    /// session, what is sent again, events, and a keepAlive. What it makes of the node, and what is sent, is what is
    /// defined of the event (`ticked`), and so is the count of root calls that trapped. It takes no memory, refuses
    /// nothing and has no disk.
    pub fn tick(&mut self, ticks: i64, out: &mut Outbox) -> CycleEnd
        requires empty { out.old ≡ [] }
        ensures ticks { (n : State) → StandsFor E.Engine self.old n
            → Ticks E.Engine self.old self.new n ticks result.traps out.new }
    {
        self.kept.tick(ticks, out)
    }

    /// The application, which is whole, over the node's engine.
    pub fn app(&self) -> &App<E>
        ensures application { (n : State) → StandsFor E.Engine self.now n
            → application_of E.Engine result.now ≡ n.application }
        ensures whole { Whole (E.meaning result.now.tree.engine) (application_of E.Engine result.now) }
        ensures code { E.meaning result.now.tree.engine ≡ code_of E.Engine self.now }
        ensures fixed { E.fixed result.now.tree.engine ≡ is_fixed E.Engine self.now }
    {
        &self.kept.app
    }

    /// How many sessions live, at most 16.
    pub fn sessions(&self) -> u8
        ensures { (n : State) → StandsFor E.Engine self.now n → result ≡ live_sessions n }
    {
        self.kept.sessions.live()
    }
}
