//! Scripts: steps (docs/ROWS.md) that are done on an application, which is the App alone at first; and printed lines.
ghost use Rattle.std.specs.Prelude.{◌≡◌, ◌<◌};
ghost use Rattle.std.specs.FinMap as map;

use crate::files::written;
use crate::kits::{Kits, came, kits_of, machine, walker, within};
use comp_tree::{Tree, Turns};
use link_prop::{App, begin, cycle};
use printed_app::{Collected, Summary, datagram_line, put_application, put_summary};
use rows::{Case, CaseFault};
use sed_engine::{AddRefusal, Engine};
use sed_outside::Addr;
use sed_typed::Schema;
use sed_value::Id;
use sed_value::limits::MOST_TURNS;
use sox_events::Subs;
use sox_msg::read_request;
use sox_serve::{ReplyBuf, Served, serve};
use std::alloc::Global;
use std::io;
use std::rt::Files;
use tiny_engine::tiny::Tiny;

// An application, what is subscribed of it, where its script subscribes, and turns and moment of the root calls.
#[derive(Drop)]
struct Stage<E: Engine> {
    app: App<E>,
    subs: Option<Subs>,
    turns: u32,
    moment: i64,
}

/// Kits, the most bytes of data, and steps with `; ` between them, over the walker and over the machine. The kits
/// `tiny` are an engine that keeps one component and then wants memory.
pub fn scripts<R: Files + AllocGlobal>(case: &mut Case, rt: &R) {
    let kits = kits_of(case);
    let script = case.text();
    let script = script.as_str();
    if kits.names.as_str() == "tiny" {
        return match Tiny::new(case.alloc(), kits.limit) {
            Ok(engine) => act(case, engine, script),
            Err(_) => case.fail(CaseFault::Memory),
        };
    }
    let walked = over_walker(case, rt, &kits, script);
    let run = over_machine(case, rt, &kits, script);
    case.put(walked.as_slice());
    if run != walked {
        case.put(b"; over the machine: ");
        case.put(run.as_slice());
    }
}

// What comes of a script over the walker.
fn over_walker<R: Files + AllocGlobal>(
    case: &mut Case,
    rt: &R,
    kits: &Kits,
    script: &str,
) -> Vec<u8> {
    let mut inner = within(case);
    if let Some(walker) = walker(rt, &mut inner, kits) {
        act(&mut inner, walker, script);
    }
    came(case, inner)
}

// What comes of a script over the machine.
fn over_machine<R: Files + AllocGlobal>(
    case: &mut Case,
    rt: &R,
    kits: &Kits,
    script: &str,
) -> Vec<u8> {
    let mut inner = within(case);
    if let Some(machine) = machine(rt, &mut inner, kits) {
        act(&mut inner, machine, script);
    }
    came(case, inner)
}

fn act<E: Engine>(case: &mut Case, engine: E, script: &str)
    requires { E.live engine ≡ map.empty }
{
    let tree = match Tree::new(case.alloc(), engine) {
        Ok(tree) => tree,
        Err(AddRefusal::DataFull) => return case.put(b"no room for the App"),
        Err(AddRefusal::Memory) => return case.fail(CaseFault::Memory),
    };
    let subs = subs_of(case, tree.schema(), script);
    let Ok(app) = App::new(case.alloc(), tree) else {
        return case.fail(CaseFault::Memory);
    };
    let (turns, moment) = (10_000, 0);
    let mut stage = Stage {
        app,
        subs,
        turns,
        moment,
    };
    for (n, step) in script.split("; ").enumerate() {
        if n > 0 {
            case.put(b"; ");
        }
        do_step(case, &mut stage, step);
    }
    drop(stage);
}

fn subs_of(case: &mut Case, schema: &Schema, script: &str) -> Option<Subs> {
    if !script.contains("subscribe") {
        return None;
    }
    let made = Subs::new(case.alloc(), schema);
    if made.is_err() {
        case.fail(CaseFault::Memory);
    }
    made.ok()
}

// Does a step: one that its first word names, or else requests.
fn do_step<E: Engine>(case: &mut Case, stage: &mut Stage<E>, text: &str) {
    let Ok(words) = words_of(case.alloc(), text) else {
        return case.fail(CaseFault::Memory);
    };
    let mut step = Case::new(case.alloc(), words);
    let word = step.text();
    let word = word.as_str();
    if did_call(&mut step, stage, word) || did_subscribe(&mut step, stage, word) {
        let answer = came(case, step);
        case.put(answer.as_slice());
    } else {
        make_requests(case, stage, text);
    }
}

fn words_of(alloc: Global, text: &str) -> io::Result<Vec<Vec<u8>>> {
    let mut words = Vec::new(alloc);
    for word in text.split_whitespace() {
        words.push(Vec::from_slice(alloc, word.as_bytes())?)?;
    }
    Ok(words)
}

// Does a step on the application, if the word names one.
fn did_call<E: Engine>(step: &mut Case, stage: &mut Stage<E>, word: &str) -> bool {
    match word {
        "turns" => stage.turns = step.number(),
        "moment" => stage.moment = step.number(),
        "cycles" => return run_cycles(step, stage),
        "begin" => return run_begin(step, stage),
        "settle" | "marks" => return marks(step, &mut stage.app, word),
        "order" => return reorder(step, &mut stage.app),
        _ => return did_answer(step, &stage.app, word),
    }
    step.put(b"ok");
    true
}

// Does a step on what is subscribed, if the word names one.
fn did_subscribe<E: Engine>(step: &mut Case, stage: &mut Stage<E>, word: &str) -> bool {
    let Some(subs) = &mut stage.subs else {
        return false;
    };
    match word {
        "subscribe" => subs.subscribe(small(step), component(step), small(step)),
        "unsubscribe" => subs.unsubscribe(small(step), component(step), small(step)),
        "close" => subs.drop_session(small(step)),
        "forget" => subs.drop_dead(&stage.app),
        _ => return did_give(step, subs, &mut stage.app, word),
    }
    step.put(b"ok");
    true
}

// Answers a question, if the word names one.
fn did_answer<E: Engine>(step: &mut Case, app: &App<E>, word: &str) -> bool {
    match word {
        "ids" => step.show(&app.tree().depth_first().as_slice()),
        "links" => step.say(&app.links()),
        "file" => write_file(step, app),
        "print" => print(step, app),
        "below" | "name" | "up" | "at" => tell_of(step, app, word),
        _ => return false,
    }
    true
}

// Tells of a component: the ids at and below it, its name, its parent, or how many links are at it.
fn tell_of<E: Engine>(step: &mut Case, app: &App<E>, word: &str) {
    let id = component(step);
    let Some(entry) = app.tree().find(id) else {
        return step.put(b"none");
    };
    match word {
        "below" => step.show(&app.tree().subtree(id).as_slice()),
        "name" => step.show(&entry.name),
        "up" => step.show(&entry.parent),
        _ => {
            let mut count = 0;
            // No component has more than 60.
            for number in 0..61 {
                if app.link_of(id, number).is_some() {
                    count = number.saturating_add(1);
                }
            }
            step.say(&count);
        }
    }
}

// Tells the marks of a component for a session place, or settles some.
fn marks<E: Engine>(step: &mut Case, app: &mut App<E>, word: &str) -> bool {
    let (id, at) = (component(step), small(step));
    let mask = if word == "settle" { step.number() } else { 0 };
    let Some(_entry) = app.tree().find(id) else {
        step.put(b"none");
        return true;
    };
    if word == "marks" {
        step.say(&app.touched(id, at));
    } else {
        app.settle(id, at, mask);
        step.put(b"ok");
    }
    true
}

fn reorder<E: Engine>(step: &mut Case, app: &mut App<E>) -> bool {
    let id = component(step);
    let order = step.bytes();
    step.show(&app.reorder(id, order.as_slice()));
    true
}

fn write_file<E: Engine>(step: &mut Case, app: &App<E>) {
    let room = step.number();
    match written(step, app, room) {
        Ok(bytes) => step.hex(bytes.as_slice()),
        Err(full) => step.show(&full),
    }
}

fn print<E: Engine>(step: &mut Case, app: &App<E>) {
    let mut text = Collected::new(step.alloc());
    match put_application(app, &mut text) {
        Ok(()) => step.put(text.into_bytes().as_slice()),
        Err(_) => step.fail(CaseFault::Memory),
    }
}

fn run_begin<E: Engine>(step: &mut Case, stage: &mut Stage<E>) -> bool {
    let ended = begin(&mut stage.app, budget(stage.turns), stage.moment);
    step.say(&ended.traps);
    true
}

// Runs so many cycles, and says how many calls trapped.
fn run_cycles<E: Engine>(step: &mut Case, stage: &mut Stage<E>) -> bool {
    let count: u32 = step.number();
    let mut traps = 0u64;
    for _ in 0..count {
        let ended = cycle(&mut stage.app, budget(stage.turns), stage.moment);
        traps = traps.saturating_add(u64::from(ended.traps));
    }
    step.say(&traps);
    true
}

// Puts the next event at a session place, if one is due.
fn gave<E: Engine>(case: &mut Case, subs: &mut Subs, app: &mut App<E>, at: u8) -> bool
    requires { at < 16 }
{
    if !subs.has_room(app.tree().schema()) {
        case.fail(CaseFault::BadInput);
        return false;
    }
    let mut text = [0; 498];
    let Some(count) = subs.next_event(at, app, &mut text) else {
        return false;
    };
    case.hex(text.get(..count).unwrap_or(&[]));
    true
}

// Gives the next event at a session place, or all, and says how many these are: four parts of 4,096 components at most.
fn did_give<E: Engine>(step: &mut Case, subs: &mut Subs, app: &mut App<E>, word: &str) -> bool {
    if word == "compared" {
        step.say(&subs.compared());
        return true;
    }
    if word != "event" && word != "events" {
        return false;
    }
    let at = small(step);
    let mut events = within(step);
    let mut given = 0u32;
    let most = if word == "event" { 1 } else { 16_384 };
    for _ in 0..most {
        if !gave(&mut events, subs, app, at) {
            break;
        }
        given = given.saturating_add(1);
    }
    let bytes = came(step, events);
    if word == "events" {
        step.say(&given);
    } else if given == 0 {
        step.put(b"none");
    } else {
        step.put(bytes.as_slice());
    }
    true
}

// Makes the request that a payload is, or as many as stand before ` * `, and then says how many were done.
fn make_requests<E: Engine>(case: &mut Case, stage: &mut Stage<E>, step: &str) {
    let (count, words) = step.split_once(" * ").unwrap_or(("1", step));
    let count: u32 = case.parsed(count);
    let mut done = 0u32;
    let mut last = Vec::new(case.alloc());
    for before in 0..count {
        let payload = case.bytes_in(words, before);
        let mut answer = within(case);
        if did_request(&mut answer, stage, payload.as_slice()) {
            done = done.saturating_add(1);
        }
        last = came(case, answer);
    }
    if words.len() < step.len() {
        case.say(&done);
        case.put(b" ");
    }
    case.put(last.as_slice());
}

// Makes the request that a payload is, and puts the reply and what is asked of the node; or why it is none.
fn did_request<E: Engine>(case: &mut Case, stage: &mut Stage<E>, payload: &[u8]) -> bool {
    let request = match read_request(payload) {
        Ok(request) => request,
        Err(refusal) => {
            case.put(refusal.text().as_bytes());
            return false;
        }
    };
    let mut reply = ReplyBuf::new();
    let turns = budget(stage.turns);
    let served = serve(&mut stage.app, turns, stage.moment, &request, &mut reply);
    case.hex(reply.bytes());
    if served != Served::Replied {
        case.put(b" ");
        case.show(&served);
    }
    !reply.bytes().starts_with(b"!")
}

/// So many turns, or as many as a root call may have.
pub fn budget(turns: u32) -> Turns {
    match Turns::new(turns.max(1).min(MOST_TURNS)) {
        Some(turns) => turns,
        None => unreachable!(),
    }
}

// The next word as an id.
fn component(step: &mut Case) -> Id
    ensures { result.0 < 4096 }
{
    let id: u16 = step.number();
    if id < 4096 {
        return Id(id);
    }
    step.fail(CaseFault::BadInput);
    Id(0)
}

// The next word as a session place, or a mask of parts.
fn small(step: &mut Case) -> u8
    ensures { result < 16 }
{
    let number = step.number();
    if number < 16 {
        return number;
    }
    step.fail(CaseFault::BadInput);
    0
}

/// The four bytes of an address, a port, and a datagram.
pub fn datagrams(case: &mut Case) {
    let ip = [case.number(), case.number(), case.number(), case.number()];
    let port = case.number();
    let bytes = case.bytes();
    if bytes.len() > 512 {
        return case.fail(CaseFault::BadInput);
    }
    case.put(datagram_line(Addr { ip, port }, bytes.as_slice()).as_slice());
}

/// The five numbers of a summary.
pub fn summaries(case: &mut Case) {
    let summary = Summary {
        cycles: case.number(),
        taken: case.number(),
        offered: case.number(),
        traps: case.number(),
        sessions: case.number(),
    };
    let mut text = Collected::new(case.alloc());
    match put_summary(&summary, &mut text) {
        Ok(()) => case.put(text.into_bytes().as_slice()),
        Err(_) => case.fail(CaseFault::Memory),
    }
}
