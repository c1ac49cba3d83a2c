//! `replay`: the events of a record, on the node that a store opens to.
ghost use Rattle.std.specs.Prelude.{◌≡◌, ◌++◌, ℕ, pos, Err, IfErr, IfOk, IsTrue, List, Ok, Some};
ghost use Rattle.app_save.specs.Saving.{AllStores};
ghost use Rattle.comp_tree.specs.Application.{Application};
ghost use Rattle.sed_outside.specs.Steps.{Read};
ghost use Rattle.input_files.specs.Inputs.{HasEntries};
ghost use Rattle.scode_code.specs.Image.{meaning_of};
ghost use Rattle.sed_node.specs.Standing.{setup_of};
ghost use Rattle.sedona_words.specs.Asked.{asked_node, IsMeantNode};
ghost use Rattle.sedona_words.specs.Command as words_of;
ghost use Rattle.sedona_cli.specs.Given.{GivenRecord, given_record};
ghost use Rattle.sedona_cli.specs.Nodes.{IsReady, Opened};
ghost use Rattle.sedona_cli.specs.Outside.{AsksDisk, HasAsks, of_reads};
ghost use Rattle.sedona_cli.specs.Program.{IsAnswer, OrWants};
ghost use Rattle.sedona_cli.specs.Replay.{InputsRead, Plays};
ghost use Rattle.sedona_cli.specs.Status.{number_of};

use crate::inputs::{Inputs, read_inputs};
use crate::nodes::{NodeParts, node_of, open_app};
use crate::putting::refuse;
use crate::refusal::Refusal;
use crate::status::Status;
use dasp_session::Users;
use disk_model::Disk;
use replay_log::Records;
use scode_engine::Machine;
use scode_verify::Verified;
use sed_engine::Engine;
use sed_node::{Node, replay};
use sed_outside::{Files, Sink};
use sedona_words::NodeWords;
use std::alloc::Global;

// Attaches the store, opens it, and makes ready what runs. All memory is taken here, before the first event.
fn ready<D: Disk>(
    alloc: Global,
    words: NodeWords<'_>,
    code: Verified,
    users: Users,
    secret: [u8; 20],
    disk: &mut D,
) -> Result<Node<Machine>, Refusal>
    requires { IsMeantNode words }
    ensures opened { IfOk result (λ node. AsksDisk D.Disk disk.old disk.new (λ asks. (a : Application)
        × Opened words.entry.store.now words.entry.limit (meaning_of code) asks (Ok a)
        × IsReady ⟦<Machine as Engine>⟧ (pos 0) words.entry.turns (meaning_of code) users secret a node)) }
    ensures stores { IsTrue (D.meaning disk.new).tells
        → IfOk result (λ node. AllStores (setup_of node).slot (D.meaning disk.new)) }
    ensures refused { IfErr result (λ refusal. AsksDisk D.Disk disk.old disk.new (λ asks. OrWants
        (Some words.entry.store.now) (Opened words.entry.store.now words.entry.limit (meaning_of code)) asks
        (Err refusal))) }
{
    match open_app(alloc, words, code, disk) {
        Ok((store, app)) => {
            let parts = NodeParts {
                store,
                app,
                users,
                secret,
            };
            node_of(alloc, words, parts, 0)
        }
        Err(refusal) => Err(refusal),
    }
}

// Runs a node over the entries of a record, and puts what is told of it. It takes no memory.
fn play<E: Engine, D: Disk, O: Sink>(
    node: Node<E>,
    text: &[u8],
    disk: &mut D,
    out: &mut O,
) -> Status
    requires stores { IsTrue (D.meaning disk.old).tells → AllStores (setup_of node).slot (D.meaning disk.old) }
    requires entries { HasEntries text.now }
    ensures { (asked : words_of.NodeAsked) (given : GivenRecord) (a : Application) → given.text ≡ text.now
        → IsReady E.Engine (pos 0) asked.turns given.code given.users given.secret a node
        → AsksDisk D.Disk disk.old disk.new (λ asks. Plays asked given a asks (O.text out.old) (O.text out.new)
        (O.faults out.old) (O.faults out.new) (number_of result)) }
{
    let mut node = node;
    match Records::open(text) {
        Ok(records) => match replay(&mut node, records, disk, out) {
            Ok(()) => {
                drop(node);
                Status::Done
            }
            Err(_) => {
                drop(node);
                Status::SinkFault
            }
        },
        Err(_) => unreachable!(),
    }
}

// With what is read.
fn replayed_from<D: Disk, O: Sink>(
    alloc: Global,
    words: NodeWords<'_>,
    inputs: Inputs,
    disk: &mut D,
    out: &mut O,
) -> Status
    requires entries { HasEntries inputs.text }
    requires meant { IsMeantNode words }
    ensures { (file : List ℕ) (reads : List Read)
        → InputsRead (asked_node words.entry) file (of_reads reads) (Ok (given_record inputs))
        → AsksDisk D.Disk disk.old disk.new (λ asks. IsAnswer (words_of.Replay (asked_node words.entry) file)
        (of_reads reads ++ asks) (O.text out.old) (O.text out.new) (O.faults out.old) (O.faults out.new)
        (number_of result)) }
{
    let Inputs {
        code,
        users,
        secret,
        text,
    } = inputs;
    match ready(alloc, words, code, users, secret, disk) {
        Ok(node) => play(node, text.as_slice(), disk, out),
        Err(refusal) => refuse(alloc, &refusal, out),
    }
}

/// Replays a record on the node that a store opens to, by the words of the node and the name of the record, from
/// moment 0, and puts what is sent, the application that is reached and a summary. Where the sink fails a line it stops
/// after the event whose line that was.
pub fn replayed<F: Files, D: Disk, O: Sink>(
    alloc: Global,
    words: NodeWords<'_>,
    file: &str,
    files: &mut F,
    disk: &mut D,
    out: &mut O,
) -> Status
    requires { IsMeantNode words }
    ensures { HasAsks F.Files D.Disk files.old files.new disk.old disk.new (λ asks.
        IsAnswer (words_of.Replay (asked_node words.entry) file.now) asks (O.text out.old) (O.text out.new)
        (O.faults out.old) (O.faults out.new) (number_of result)) }
{
    match read_inputs(alloc, words, file, files) {
        Ok(inputs) => replayed_from(alloc, words, inputs, disk, out),
        Err(refusal) => refuse(alloc, &refusal, out),
    }
}
