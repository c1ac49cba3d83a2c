//! The node that a store opens to.
ghost use Rattle.std.specs.Prelude.{◌≡◌, ◌≤◌, false, Err, IfErr, IfOk, IsTrue, Ok, Some};
ghost use Rattle.app_save.specs.Saving.{AllStores};
ghost use Rattle.comp_tree.specs.Whole.{Whole};
ghost use Rattle.link_prop.specs.Linked.{application_of};
ghost use Rattle.scode_code.specs.Image.{meaning_of};
ghost use Rattle.sed_node.specs.Standing.{setup_of};
ghost use Rattle.sedona_words.specs.Asked.{IsMeantNode};
ghost use Rattle.sedona_cli.specs.Nodes.{IsReady, Opened};
ghost use Rattle.sedona_cli.specs.Outside.{AsksDisk};
ghost use Rattle.sedona_cli.specs.Program.{OrWants};
ghost use Rattle.sedona_cli.specs.Refusals.{is_want};
ghost use Rattle.sedona_cli.specs.Store.{IsRead};

use crate::refusal::{Refusal, of_app};
use crate::store::{attach_store, open_with_slot};
use app_reader::read_app;
use app_save::Store;
use comp_tree::Turns;
use dasp_session::Users;
use disk_model::Disk;
use link_prop::App;
use scode_engine::Machine;
use scode_verify::Verified;
use sed_engine::Engine;
use sed_node::Node;
use sed_value::{Items, Memory};
use sedona_words::NodeWords;
use std::alloc::Global;

/// What a node is made of: a store that is open, the application that it opened to, the users of the node, and its
/// secret.
#[derive(Drop)]
pub struct NodeParts {
    pub store: Store,
    pub app: App<Machine>,
    pub users: Users,
    pub secret: [u8; 20],
}

// The application in a payload, over the image of a code.
fn app_of(
    alloc: Global,
    code: Verified,
    limit: u32,
    payload: &[u8],
) -> Result<App<Machine>, Refusal>
    requires some { 1 ≤ limit }
    requires most { limit ≤ 4194304 }
    ensures read { IfOk result
        (λ app. IsRead (meaning_of code) limit payload.now (Ok (application_of ⟦<Machine as Engine>⟧ app))) }
    ensures meaning { IfOk result (λ app. ⟦<Machine as Engine>⟧.meaning app.tree.engine ≡ meaning_of code) }
    ensures refused { IfErr result (λ refusal. is_want refusal ≡ false
        → IsRead (meaning_of code) limit payload.now (Err refusal)) }
{
    let engine = match Machine::new(alloc, code, limit) {
        Ok(engine) => engine,
        Err(Memory) => return Err(Refusal::Memory),
    };
    let _told = engine.schema();
    match read_app(alloc, payload, engine) {
        Ok(app) => Ok(app),
        Err(refusal) => Err(of_app(refusal)),
    }
}

// The application in the payload of a store that is open, with that store.
fn app_in(
    alloc: Global,
    code: Verified,
    limit: u32,
    found: (Store, Items<u8>),
) -> Result<(Store, App<Machine>), Refusal>
    requires some { 1 ≤ limit }
    requires most { limit ≤ 4194304 }
    ensures read { IfOk result
        (λ held. IsRead (meaning_of code) limit found.1 (Ok (application_of ⟦<Machine as Engine>⟧ held.1))) }
    ensures meaning { IfOk result
        (λ held. ⟦<Machine as Engine>⟧.meaning held.1.tree.engine ≡ meaning_of code) }
    ensures whole { IfOk result (λ held. Whole (⟦<Machine as Engine>⟧.meaning held.1.tree.engine)
        (application_of ⟦<Machine as Engine>⟧ held.1)) }
    ensures slot { IfOk result (λ held. held.0 ≡ found.0) }
    ensures refused { IfErr result (λ refusal. is_want refusal ≡ false
        → IsRead (meaning_of code) limit found.1 (Err refusal)) }
{
    let (store, payload) = found;
    match app_of(alloc, code, limit, payload.as_slice()) {
        Ok(app) => Ok((store, app)),
        Err(refusal) => Err(refusal),
    }
}

/// Attaches the store of a node, opens it, and reads its application over the image of its code.
pub fn open_app<D: Disk>(
    alloc: Global,
    words: NodeWords<'_>,
    code: Verified,
    disk: &mut D,
) -> Result<(Store, App<Machine>), Refusal>
    requires { IsMeantNode words }
    ensures opened { IfOk result (λ held. AsksDisk D.Disk disk.old disk.new (λ asks.
        Opened words.entry.store.now words.entry.limit (meaning_of code) asks
        (Ok (application_of ⟦<Machine as Engine>⟧ held.1)))) }
    ensures meaning { IfOk result
        (λ held. ⟦<Machine as Engine>⟧.meaning held.1.tree.engine ≡ meaning_of code) }
    ensures whole { IfOk result (λ held. Whole (⟦<Machine as Engine>⟧.meaning held.1.tree.engine)
        (application_of ⟦<Machine as Engine>⟧ held.1)) }
    ensures stores { IsTrue (D.meaning disk.new).tells
        → IfOk result (λ held. AllStores held.0 (D.meaning disk.new)) }
    ensures refused { IfErr result (λ refusal. AsksDisk D.Disk disk.old disk.new (λ asks. OrWants
        (Some words.entry.store.now) (Opened words.entry.store.now words.entry.limit (meaning_of code)) asks
        (Err refusal))) }
{
    match attach_store(disk, words.store) {
        Ok(()) => {}
        Err(refusal) => {
            drop(code);
            return Err(refusal);
        }
    }
    match open_with_slot(alloc, disk) {
        Ok(found) => app_in(alloc, code, words.limit, found),
        Err(refusal) => {
            drop(code);
            Err(refusal)
        }
    }
}

/// The node of these parts that begins at a moment, with all memory that its events need.
pub fn node_of(
    alloc: Global,
    words: NodeWords<'_>,
    parts: NodeParts,
    moment: i64,
) -> Result<Node<Machine>, Refusal>
    requires meant { IsMeantNode words }
    requires whole { Whole (⟦<Machine as Engine>⟧.meaning parts.app.tree.engine)
        (application_of ⟦<Machine as Engine>⟧ parts.app) }
    ensures ready { IfOk result (λ node. IsReady ⟦<Machine as Engine>⟧ moment words.entry.turns
        (⟦<Machine as Engine>⟧.meaning parts.app.tree.engine) parts.users parts.secret
        (application_of ⟦<Machine as Engine>⟧ parts.app) node) }
    ensures slot { IfOk result (λ node. (setup_of node).slot ≡ parts.store) }
    ensures refused { IfErr result (λ refusal. refusal ≡ Refusal.Memory) }
{
    let Some(turns) = Turns::new(words.turns) else {
        unreachable!()
    };
    let NodeParts {
        store,
        app,
        users,
        secret,
    } = parts;
    match Node::open(alloc, app, store, users, secret, turns, moment) {
        Ok(node) => Ok(node),
        Err(Memory) => Err(Refusal::Memory),
    }
}
