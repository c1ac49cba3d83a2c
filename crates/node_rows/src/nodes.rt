//! A node of `sys` alone, over the walker and over the machine of an image that was written, read and verified: what it
//! answers, and what it prints at its end.
ghost use Rattle.std.specs.Prelude.{◌≡◌, IsTrue};
ghost use Rattle.std.specs.FinMap as map;
ghost use Rattle.app_save.specs.Saving.{AllStores};
ghost use Rattle.comp_tree.specs.Whole.{Whole};
ghost use Rattle.link_prop.specs.Linked.{application_of};
ghost use Rattle.sed_node.specs.Standing.{setup_of};

use crate::files::parts;
use crate::kits::{Kits, came, read_machine, walker, within};
use crate::scripts::budget;
use app_reader::read_app;
use app_save::{Store, make};
use dasp_session::Users;
use disk_model::{Disk, MemDisk};
use link_prop::App;
use printed_app::Collected;
use rows::{Case, CaseFault};
use sed_engine::Engine;
use sed_node::{Node, live};
use sed_outside::{Addr, Clock, Link, MemClock, MemLink, Polling, Sink};
use sed_value::{Items, Memory};
use std::rt::Files;

// The only user is ann, with the password secret.
const USERS: &[u8] = b"ann:ed125f01e22fae5e33763eac4b67d7ad01c3bc73\n";

const SECRET: [u8; 20] = [1; 20];

const LIMIT: u32 = 4_194_304;

// The bytes of a slot of the store, and those that all writes of its disk have room for, with so many calls.
const SLOT: u32 = 128;

const BYTES: usize = 4_096;

const CALLS: usize = 128;

// How many datagrams and sleeps are told.
const TOLD: usize = 64;

// The turns of each root call, and the milliseconds of a period.
const TURNS: u32 = 10_000;

const PERIOD: u32 = 100;

// What a row gives: the file that the store keeps, the moments of the clock, of which the node is opened at the first,
// how many cycles, and the polls of the link.
#[derive(Drop)]
struct Plan {
    file: Vec<u8>,
    moments: String,
    cycles: u32,
    polls: String,
}

/// A file, moments, cycles and polls: what is printed, and what is offered to the link.
pub fn nodes<R: Files + AllocGlobal>(case: &mut Case, rt: &R) {
    let file = case.text();
    let plan = Plan {
        file: parts(case, file.as_str()),
        moments: case.text(),
        cycles: case.number(),
        polls: case.text(),
    };
    let kits = Kits {
        names: String::new(case.alloc()),
        limit: LIMIT,
    };
    let walked = over_walker(case, rt, &kits, &plan);
    let run = over_machine(case, rt, &kits, &plan);
    case.put(walked.as_slice());
    if run != walked {
        case.put(b"; over the machine: ");
        case.put(run.as_slice());
    }
}

// What comes of a node over the walker.
fn over_walker<R: Files + AllocGlobal>(case: &mut Case, rt: &R, kits: &Kits, plan: &Plan) -> Vec<u8>
    requires { kits.now.limit ≡ 4194304 }
{
    let mut inner = within(case);
    if let Some(walker) = walker(rt, &mut inner, kits) {
        act(&mut inner, walker, plan);
    }
    came(case, inner)
}

// What comes of a node over the machine of an image that was read.
fn over_machine<R: Files + AllocGlobal>(
    case: &mut Case,
    rt: &R,
    kits: &Kits,
    plan: &Plan,
) -> Vec<u8>
    requires { kits.now.limit ≡ 4194304 }
{
    let mut inner = within(case);
    if let Some(machine) = read_machine(rt, &mut inner, kits) {
        act(&mut inner, machine, plan);
    }
    came(case, inner)
}

// Reads the application over an engine.
fn act<E: Engine>(case: &mut Case, engine: E, plan: &Plan)
    requires bare { E.live engine ≡ map.empty }
    requires statics { E.statics engine ≡ (E.meaning engine).initial_statics }
    requires limit { E.limit engine ≡ 4194304 }
{
    match read_app(case.alloc(), plan.file.as_slice(), engine) {
        Ok(app) => store(case, app, plan),
        Err(_) => case.fail(CaseFault::BadInput),
    }
}

// Makes the store that keeps it.
fn store<E: Engine>(case: &mut Case, app: App<E>, plan: &Plan)
    requires { Whole (E.meaning app.tree.engine) (application_of E.Engine app) }
{
    let alloc = case.alloc();
    let Ok(mut disk) = MemDisk::new(alloc, Vec::new(alloc), BYTES, CALLS, Vec::new(alloc)) else {
        drop(app);
        return case.fail(CaseFault::Memory);
    };
    match make(&mut disk, SLOT, plan.file.as_slice()) {
        Ok(store) => open(case, app, store, &mut disk, plan),
        Err(_) => {
            drop(app);
            case.fail(CaseFault::BadInput);
        }
    }
    drop(disk);
}

// Opens the node at the first moment of the clock.
fn open<E: Engine, D: Disk>(case: &mut Case, app: App<E>, store: Store, disk: &mut D, plan: &Plan)
    requires whole { Whole (E.meaning app.tree.engine) (application_of E.Engine app) }
    requires stores { IsTrue (D.meaning disk.old).tells → AllStores store (D.meaning disk.old) }
{
    let Ok(users) = Users::read(case.alloc(), USERS) else {
        drop(app);
        return case.fail(CaseFault::BadInput);
    };
    let Ok(mut clock) = clock_of(case, plan) else {
        drop(users);
        drop(app);
        return case.fail(CaseFault::Memory);
    };
    let moment = clock.now();
    let turns = budget(TURNS);
    match Node::open(case.alloc(), app, store, users, SECRET, turns, moment) {
        Ok(node) => run(case, node, disk, &mut clock, plan),
        Err(_) => case.fail(CaseFault::Memory),
    }
}

// Runs the node, and tells what is printed and offered.
fn run<E: Engine, D: Disk>(
    case: &mut Case,
    node: Node<E>,
    disk: &mut D,
    clock: &mut MemClock,
    plan: &Plan,
)
    requires stores { IsTrue (D.meaning disk.old).tells → AllStores (setup_of node).slot (D.meaning disk.old) }
{
    let Ok(mut link) = link_of(case, plan) else {
        drop(node);
        return case.fail(CaseFault::Memory);
    };
    let mut text = Collected::new(case.alloc());
    if !lives(node, disk, &mut link, clock, plan.cycles, &mut text) {
        return case.fail(CaseFault::Memory);
    }
    case.put(text.into_bytes().as_slice());
    tell_offered(case, &link);
}

// Whether a node ran to its end, and all was put.
fn lives<E: Engine, D: Disk, L: Link, C: Clock, O: Sink>(
    node: Node<E>,
    disk: &mut D,
    link: &mut L,
    clock: &mut C,
    cycles: u32,
    out: &mut O,
) -> bool
    requires stores { IsTrue (D.meaning disk.old).tells → AllStores (setup_of node).slot (D.meaning disk.old) }
{
    let mut node = node;
    live(&mut node, disk, link, clock, cycles, PERIOD, out).is_ok()
}

// The clock of a row.
fn clock_of(case: &mut Case, plan: &Plan) -> Result<MemClock, Memory> {
    let mut moments = Vec::new(case.alloc());
    for word in plan.moments.split_whitespace() {
        moments.push(case.parsed(word))?;
    }
    MemClock::new(case.alloc(), moments, TOLD)
}

// The link of a row: each poll is `-`, which gives none, or a datagram: its port of 127.0.0.1, and words that are its
// bytes. None fails.
fn link_of(case: &mut Case, plan: &Plan) -> Result<MemLink, Memory> {
    let mut polls = Vec::new(case.alloc());
    for text in plan.polls.split("; ") {
        polls.push(poll_of(case, text))?;
    }
    MemLink::new(case.alloc(), polls, TOLD, Vec::new(case.alloc()))
}

fn poll_of(case: &mut Case, text: &str) -> Polling {
    if text == "-" {
        return Polling::Nothing;
    }
    let (port, words) = text.split_once(" ").unwrap_or(("", ""));
    let (ip, port) = ([127, 0, 0, 1], case.parsed(port));
    Polling::Got {
        from: Addr { ip, port },
        bytes: Items::new(case.bytes_in(words, 0)),
    }
}

// The datagrams that were offered, each behind its port and before how many polls had been made by then.
fn tell_offered(case: &mut Case, link: &MemLink) {
    case.put(b"; offered");
    for offer in link.offered() {
        case.put(b" ");
        case.say(&offer.datagram.peer.port);
        case.put(b"=");
        case.hex(offer.datagram.bytes.as_bytes());
        case.put(b"@");
        case.say(&offer.polled);
    }
}
