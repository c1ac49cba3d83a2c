//! `run` and `boot`: the node that a store opens to, on a link and a clock.
ghost use Rattle.std.specs.Prelude.{◌≡◌, ◌++◌, ℕ, ℤ, IsTrue, List, Ok};
ghost use Rattle.app_save.specs.Saving.{AllStores};
ghost use Rattle.comp_tree.specs.Application.{Application};
ghost use Rattle.comp_tree.specs.Whole.{Whole};
ghost use Rattle.dasp_session.specs.declared.user.User.{User};
ghost use Rattle.sed_outside.specs.Steps.{Read};
ghost use Rattle.link_prop.specs.Linked.{application_of};
ghost use Rattle.sed_engine.specs.Code.{Meaning as Code};
ghost use Rattle.sed_node.specs.Living.{IsLeft, Sleeps};
ghost use Rattle.sed_node.specs.Standing.{setup_of};
ghost use Rattle.sedona_words.specs.Asked.{asked_node, asked_run, IsMeantNode, IsMeantRun};
ghost use Rattle.sedona_words.specs.Command as words_of;
ghost use Rattle.sedona_cli.specs.Given.{Given, given_of};
ghost use Rattle.sedona_cli.specs.Nodes.{IsReady};
ghost use Rattle.sedona_cli.specs.Outside.{AsksDisk, HasAsks, of_reads};
ghost use Rattle.sedona_cli.specs.Program.{IsAnswer};
ghost use Rattle.sedona_cli.specs.Run.{AnswersLive, AsksLive, RanBy, RunInputsRead, RunsKept, RunsOn, RunsReady};
ghost use Rattle.sedona_cli.specs.Status.{number_of};

use crate::inputs::{NodeInputs, node_inputs};
use crate::nodes::{NodeParts, node_of, open_app};
use crate::putting::refuse;
use crate::refusal::Refusal;
use crate::status::Status;
use app_save::stores_open_to_one;
use disk_model::Disk;
use scode_engine::Machine;
use sed_engine::Engine;
use sed_node::{Node, live};
use sed_outside::{Clock, Files, Link, Sink};
use sedona_words::RunWords;
use std::alloc::Global;

// Runs a node so many cycles, with a period in milliseconds, and puts what stands at the end of its run. It takes no
// memory.
fn run_ready<E: Engine, L: Link, C: Clock, D: Disk, O: Sink>(
    node: Node<E>,
    cycles: u32,
    period: u32,
    link: &mut L,
    clock: &mut C,
    disk: &mut D,
    out: &mut O,
) -> Status
    requires stores { IsTrue (D.meaning disk.old).tells → AllStores (setup_of node).slot (D.meaning disk.old) }
    ensures ran { (moment : ℤ) (turns : ℕ) (code : Code) (users : List User) (secret : List ℕ) (a : Application)
        → IsReady E.Engine moment turns code users secret a node
        → RunsReady D.Disk L.Link C.Clock moment turns code users secret a cycles (O.text out.old) (O.text out.new)
        (O.faults out.old) (O.faults out.new) (number_of result) link.old link.new clock.old disk.old disk.new }
    ensures sleeps { Sleeps (C.moments clock.old) (C.given clock.old) cycles period (C.asked clock.old)
        (C.asked clock.new) }
    ensures left { IsLeft cycles (L.polls link.old) (L.polls link.new) (C.moments clock.old) (C.moments clock.new) }
    ensures bound { L.bound link.new ≡ L.bound link.old }
{
    let mut node = node;
    match live(&mut node, disk, link, clock, cycles, period, out) {
        Ok(()) => {
            drop(node);
            Status::Done
        }
        Err(_) => {
            drop(node);
            Status::SinkFault
        }
    }
}

// Takes the port, and runs the node of these parts, from the moment that it is then. All memory is taken before the
// first event.
fn run_app<L: Link, C: Clock, D: Disk, O: Sink>(
    alloc: Global,
    words: RunWords<'_>,
    parts: NodeParts,
    link: &mut L,
    clock: &mut C,
    disk: &mut D,
    out: &mut O,
) -> Status
    requires meant { IsMeantNode words.node }
    requires whole { Whole (⟦<Machine as Engine>⟧.meaning parts.app.tree.engine)
        (application_of ⟦<Machine as Engine>⟧ parts.app) }
    requires stores { IsTrue (D.meaning disk.old).tells → AllStores parts.store (D.meaning disk.old) }
    ensures answered { (given : Given) → ⟦<Machine as Engine>⟧.meaning parts.app.tree.engine ≡ given.code
        → parts.users ≡ given.users → parts.secret ≡ given.secret
        → AsksDisk D.Disk disk.old disk.new (λ asks. AnswersLive (asked_run words.entry) given
        (application_of ⟦<Machine as Engine>⟧ parts.app) asks (O.text out.old) (O.text out.new) (O.faults out.old)
        (O.faults out.new) (number_of result)) }
    ensures live { AsksLive L.Link C.Clock words.entry.port (number_of result) link.old link.new clock.old clock.new
        (RunsOn D.Disk L.Link C.Clock (asked_run words.entry) (⟦<Machine as Engine>⟧.meaning parts.app.tree.engine)
        parts.users parts.secret (application_of ⟦<Machine as Engine>⟧ parts.app) (O.text out.old) (O.text out.new)
        (number_of result) link.old link.new clock.old clock.new disk.old disk.new) }
{
    match link.bind(words.port) {
        Ok(()) => {}
        Err(_) => {
            drop(parts);
            return refuse(alloc, &Refusal::LinkFault, out);
        }
    }
    let moment = clock.now();
    match node_of(alloc, words.node, parts, moment) {
        Ok(node) => run_ready(node, words.cycles, words.period, link, clock, disk, out),
        Err(refusal) => refuse(alloc, &refusal, out),
    }
}

// With what is read.
fn run_from<L: Link, C: Clock, D: Disk, O: Sink>(
    alloc: Global,
    words: RunWords<'_>,
    inputs: NodeInputs,
    link: &mut L,
    clock: &mut C,
    disk: &mut D,
    out: &mut O,
) -> Status
    requires { IsMeantNode words.node }
    ensures answered { (reads : List Read)
        → RunInputsRead (asked_node words.entry.node) (of_reads reads) (Ok (given_of inputs))
        → AsksDisk D.Disk disk.old disk.new (λ asks. IsAnswer (words_of.Run (asked_run words.entry))
        (of_reads reads ++ asks) (O.text out.old) (O.text out.new) (O.faults out.old) (O.faults out.new)
        (number_of result)) }
    ensures live { AsksLive L.Link C.Clock words.entry.port (number_of result) link.old link.new clock.old clock.new
        (RunsKept D.Disk L.Link C.Clock (asked_run words.entry) (given_of inputs) (O.text out.old)
        (O.text out.new) (number_of result) link.old link.new clock.old clock.new disk.old disk.new) }
{
    stores_open_to_one();
    let NodeInputs {
        code,
        users,
        secret,
    } = inputs;
    match open_app(alloc, words.node, code, disk) {
        Ok((store, app)) => {
            let parts = NodeParts {
                store,
                app,
                users,
                secret,
            };
            run_app(alloc, words, parts, link, clock, disk, out)
        }
        Err(refusal) => refuse(alloc, &refusal, out),
    }
}

/// Runs the node that a store opens to over a link and a clock, by the words of `run` or of `boot`, and puts the
/// application that is reached and a summary. The port is asked for once all is read and the store is open; the node
/// begins at the moment that it is then.
pub fn lived<F: Files, L: Link, C: Clock, D: Disk, O: Sink>(
    alloc: Global,
    words: RunWords<'_>,
    files: &mut F,
    link: &mut L,
    clock: &mut C,
    disk: &mut D,
    out: &mut O,
) -> Status
    requires { IsMeantRun words }
    ensures answered { HasAsks F.Files D.Disk files.old files.new disk.old disk.new (λ asks.
        IsAnswer (words_of.Run (asked_run words.entry)) asks (O.text out.old) (O.text out.new)
        (O.faults out.old) (O.faults out.new) (number_of result)) }
    ensures live { AsksLive L.Link C.Clock words.entry.port (number_of result) link.old link.new clock.old clock.new
        (RanBy F.Files D.Disk L.Link C.Clock (asked_run words.entry) files.old files.new link.old link.new clock.old
        clock.new disk.old disk.new (O.text out.old) (O.text out.new) (number_of result)) }
{
    match node_inputs(alloc, words.node, files) {
        Ok(inputs) => run_from(alloc, words, inputs, link, clock, disk, out),
        Err(refusal) => refuse(alloc, &refusal, out),
    }
}
