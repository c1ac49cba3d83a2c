//! Programs of one source: what a component of their first class comes to, over the walker and over the machine.
ghost use Rattle.std.specs.Prelude.{◌≡◌, IfSome};
ghost use Rattle.std.specs.FinMap as map;
ghost use Rattle.sed_typed.specs.Typed.{Typed};

use crate::kits::{came, machine_of, walker_of, within};
use crate::scripts::budget;
use comp_tree::{NewComponent, Tree, Turns};
use rows::{Case, CaseFault};
use sed_check::{KitsRefusal, load_text};
use sed_engine::Engine;
use sed_outside::MemFiles;
use sed_typed::{Program, SlotNo};
use sed_value::{Id, SlotBuf};
use std::io;

// The most bytes of data: the App and any one component have room in them.
const LIMIT: u32 = 70_000;

// The nanoseconds between two cycles.
const PERIOD: i64 = 1_000;

// The component of a row: its name, its source, how often it is executed, and the turns of each root call.
#[derive(Drop)]
struct Plan {
    name: String,
    source: Vec<u8>,
    cycles: u16,
    turns: u32,
}

/// A component of the first class of a source, by its name, which is executed so many times with so many turns.
pub fn programs(case: &mut Case) {
    let plan = Plan {
        name: case.text(),
        source: case.input(),
        cycles: case.number(),
        turns: case.number(),
    };
    let walked = over_walker(case, &plan);
    let run = over_machine(case, &plan);
    case.put(walked.as_slice());
    if run != walked {
        case.put(b"; over the machine: ");
        case.put(run.as_slice());
    }
}

// What comes of a program over the walker.
fn over_walker(case: &mut Case, plan: &Plan) -> Vec<u8> {
    let mut inner = within(case);
    if let Some(program) = program(&mut inner, plan)
        && let Some(walker) = walker_of(&mut inner, program, LIMIT)
    {
        act(&mut inner, walker, plan);
    }
    came(case, inner)
}

// What comes of a program over the machine.
fn over_machine(case: &mut Case, plan: &Plan) -> Vec<u8> {
    let mut inner = within(case);
    if let Some(program) = program(&mut inner, plan)
        && let Some(machine) = machine_of(&mut inner, program, LIMIT)
    {
        act(&mut inner, machine, plan);
    }
    came(case, inner)
}

// The program of a source. Where it breaks a rule, tells which and where.
fn program(case: &mut Case, plan: &Plan) -> Option<Program>
    ensures { IfSome result Typed }
{
    let Ok(mut files) = files_of(case, plan) else {
        case.fail(CaseFault::Memory);
        return None;
    };
    match load_text(case.alloc(), "source", &mut files) {
        Ok(program) => Some(program),
        Err(KitsRefusal::Rule { file: _, at, rule }) => {
            case.say(&rule);
            case.put(b" at ");
            case.say(&at);
            None
        }
        Err(_) => {
            case.fail(CaseFault::BadInput);
            None
        }
    }
}

// The file of a source.
fn files_of(case: &Case, plan: &Plan) -> io::Result<MemFiles> {
    let alloc = case.alloc();
    let name = String::from_str(alloc, "source")?;
    let source = Vec::from_slice(alloc, plan.source.as_slice())?;
    let mut files = Vec::new(alloc);
    files.push((name, source))?;
    Ok(MemFiles::new(files, Vec::new(alloc)))
}

// Adds the component, executes it, and tells how each call ended, and its properties in the end.
fn act<E: Engine>(case: &mut Case, engine: E, plan: &Plan)
    requires { E.live engine ≡ map.empty }
{
    let Ok(mut tree) = Tree::new(case.alloc(), engine) else {
        return case.fail(CaseFault::Memory);
    };
    let turns = budget(plan.turns);
    let asked = NewComponent {
        parent: Id(0),
        kit: 1,
        number: 0,
        name: plan.name.as_bytes(),
        config: &[0; 4],
    };
    let id = match tree.add(asked, turns, 0) {
        Ok(id) => id,
        Err(refusal) => {
            drop(tree);
            return case.show(&refusal);
        }
    };
    let mut moment = 0i64;
    for cycle in 0..plan.cycles {
        if cycle > 0 {
            case.put(b"; ");
        }
        moment = moment.saturating_add(PERIOD);
        execute(case, &mut tree, id, turns, moment);
    }
    tell_properties(case, &tree, id);
    drop(tree);
}

fn execute<E: Engine>(case: &mut Case, tree: &mut Tree<E>, id: Id, turns: Turns, moment: i64) {
    let Some(entry) = tree.find(id) else {
        return case.put(b"none");
    };
    if entry.fault != 0 {
        return case.put(b"faulted");
    }
    case.show(&tree.execute(id, turns, moment));
}

// Tells the properties of a component behind `meta`, which is the first.
fn tell_properties<E: Engine>(case: &mut Case, tree: &Tree<E>, id: Id) {
    let Some(entry) = tree.find(id) else {
        return;
    };
    for number in 1..64 {
        let mut held = SlotBuf::new();
        if let Some(slot) = tree.schema().slot(entry.kind, SlotNo(number))
            && tree.get(id, number, &mut held).is_ok()
        {
            case.put(b" ");
            case.put(slot.name.as_bytes());
            case.put(b" ");
            case.show(held.value());
        }
    }
}
