//! Components over the machine of an image: what their code does, and how they come and go.
ghost use Rattle.std.specs.Prelude.{◌≡◌};
ghost use Rattle.comp_tree.specs.Edit.{is_save as is_save_of};

use crate::images::read_written;
use crate::told::outcome_of;
use comp_tree::{NewComponent, Tree, Turns};
use rows::{Case, CaseFault, is_row, text_of};
use scode_engine::Machine;
use scode_verify::verify;
use sed_engine::Engine;
use sed_typed::SlotNo;
use sed_value::limits::MOST_TURNS;
use sed_value::{Id, SlotBuf, Value};
use std::rt::Files;

// The file of the image of all tables but `bare`.
const MACHINE: &str = "machine.image";

// The kinds of the locals of a row's code: Probe, int, long, bool, Str, Part, Deep, the statics, null, Probe.
const LOCALS: &str = "06000a 02 03 01 04 060006 060007 06ffff 05 06000a";

// No class of the image has more slots.
const SLOTS: u8 = 16;

// Components, and the turns and the moment of their root calls.
#[derive(Drop)]
struct Stage<E: Engine> {
    tree: Tree<E>,
    turns: u32,
    moment: i64,
}

/// What comes of executing a component of the code.
pub fn running<R: Files + AllocGlobal>(case: &mut Case, rt: &R) {
    if let Some(mut stage) = stage_of(case, rt, MACHINE, 4_096) {
        let mut adding = Case::new(case.alloc(), Vec::new(case.alloc()));
        do_step(&mut adding, &mut stage, "add 0 5 a 00000000");
        do_step(case, &mut stage, "execute 1");
    }
}

/// What comes of steps with `; ` between them, where objects may have so many bytes.
pub fn objects<R: Files + AllocGlobal>(case: &mut Case, rt: &R, table: &str) {
    let limit = case.number();
    let stage = stage_of(case, rt, image_file(table), limit);
    let script = case.text();
    if let Some(mut stage) = stage {
        do_steps(case, &mut stage, script.as_str());
    }
}

fn image_file(table: &str) -> &'static str {
    if table == "bare" {
        "bare.image"
    } else {
        MACHINE
    }
}

fn do_steps<E: Engine>(case: &mut Case, stage: &mut Stage<E>, script: &str) {
    for (n, step) in script.split("; ").enumerate() {
        if n > 0 {
            case.put(b"; ");
        }
        do_step(case, stage, step);
    }
}

// The App over the machine of the image that a file begins, whose code the next inputs give, with the turns and the
// moment behind them.
fn stage_of<R: Files + AllocGlobal>(
    case: &mut Case,
    rt: &R,
    file: &str,
    limit: u32,
) -> Option<Stage<Machine>> {
    let bytes = image_of(case, rt, file);
    let (turns, moment) = (case.number(), case.number());
    let image = read_written(case, bytes.as_slice())?;
    let code = match verify(case.alloc(), image) {
        Ok(code) => code,
        Err(refusal) => {
            case.show(&refusal);
            return None;
        }
    };
    let Ok(machine) = Machine::new(case.alloc(), code, limit) else {
        case.fail(CaseFault::Memory);
        return None;
    };
    match Tree::new(case.alloc(), machine) {
        Ok(tree) => Some(Stage {
            tree,
            turns,
            moment,
        }),
        Err(refusal) => {
            case.show(&refusal);
            None
        }
    }
}

// The image that a file begins, whose last method has the code, the most cells and the entries that the next inputs
// write.
fn image_of<R: Files + AllocGlobal>(case: &mut Case, rt: &R, file: &str) -> Vec<u8> {
    let code = case.bytes();
    let cells: u16 = case.number();
    let entries = case.text();
    let entries = entries.as_str();
    let mut all = Case::new(case.alloc(), Vec::new(case.alloc()));
    put_file(&mut all, rt, file);
    all.put(&cells.to_be_bytes());
    put_count(&mut all, code.len());
    all.put(code.as_slice());
    put_count(&mut all, entries.split_whitespace().count());
    for entry in entries.split_whitespace() {
        let (place, stack) = entry.split_once(':').unwrap_or(("", entry));
        put_words(&mut all, place);
        put_words(&mut all, LOCALS);
        put_words(&mut all, stack);
    }
    all.put(b".");
    outcome_of(case, all)
}

// The words of a file.
fn put_file<R: Files + AllocGlobal>(all: &mut Case, rt: &R, name: &str) {
    let Ok(text) = text_of(rt, name) else {
        return all.fail(CaseFault::BadInput);
    };
    for line in text.as_str().lines() {
        if is_row(line.as_bytes()) {
            put_words(all, line);
        }
    }
}

fn put_words(all: &mut Case, words: &str) {
    let bytes = all.bytes_in(words, 0);
    all.put(bytes.as_slice());
}

fn put_count(all: &mut Case, count: usize) {
    let count = u16::try_from(count).unwrap_or(0);
    all.put(&count.to_be_bytes());
}

// Does a step, and tells which properties of its component then have other values.
fn do_step<E: Engine>(case: &mut Case, stage: &mut Stage<E>, step: &str) {
    let (word, words) = step.split_once(' ').unwrap_or((step, ""));
    let (id, words) = words.split_once(' ').unwrap_or((words, "0"));
    let id = Id(case.parsed(id));
    let mut before = Vec::new(case.alloc());
    for slot in 0..SLOTS {
        if before.push(value_of(&stage.tree, id, slot)).is_err() {
            case.fail(CaseFault::Memory);
        }
    }
    do_at(case, stage, word, id, words);
    tell_changes(case, &stage.tree, id, before.as_slice());
}

// A component of a type of kit 1 is added, deleted or executed, or has its fault cleared; a slot is read, written or
// invoked, but for the App's `save`.
fn do_at<E: Engine>(case: &mut Case, stage: &mut Stage<E>, word: &str, id: Id, words: &str) {
    let (turns, moment) = (budget(stage.turns), stage.moment);
    let tree = &mut stage.tree;
    let (number, words) = words.split_once(' ').unwrap_or((words, ""));
    let (name, words) = words.split_once(' ').unwrap_or(("", words));
    let (number, name) = (case.parsed(number), name.as_bytes());
    let bytes = case.bytes_in(words, 0);
    let bytes = bytes.as_slice();
    match word {
        "add" => {
            let asked = NewComponent {
                parent: id,
                kit: 1,
                number,
                name,
                config: bytes,
            };
            case.show(&tree.add(asked, turns, moment));
        }
        "delete" => case.show(&tree.delete(id, turns, moment)),
        "execute" => execute(case, tree, id, turns, moment),
        "clear" => case.show(&tree.clear(id)),
        "get" => case.show(&value_of(tree, id, number)),
        "write" => case.show(&tree.write(id, number, bytes, turns, moment)),
        "invoke" if !is_save(id, number) => {
            case.show(&tree.invoke(id, number, bytes, turns, moment));
        }
        _ => case.fail(CaseFault::BadInput),
    }
}

// So many turns, or as many as a root call may have.
fn budget(turns: u32) -> Turns {
    match Turns::new(turns.max(1).min(MOST_TURNS)) {
        Some(turns) => turns,
        None => unreachable!(),
    }
}

fn execute<E: Engine>(case: &mut Case, tree: &mut Tree<E>, id: Id, turns: Turns, moment: i64) {
    let Some(entry) = tree.find(id) else {
        return case.put(b"none");
    };
    if entry.fault != 0 {
        return case.put(b"faulted");
    }
    case.show(&tree.execute(id, turns, moment));
}

fn is_save(id: Id, slot: u8) -> bool
    ensures { result ≡ is_save_of id.0 slot }
{
    id.0 == 0 && slot == 1
}

// The value of a property, or nothing where there is none.
fn value_of<E: Engine>(tree: &Tree<E>, id: Id, slot: u8) -> Value {
    let mut held = SlotBuf::new();
    let _read = tree.get(id, slot, &mut held);
    *held.value()
}

fn tell_changes<E: Engine>(case: &mut Case, tree: &Tree<E>, id: Id, before: &[Value]) {
    let Some(entry) = tree.find(id) else {
        return;
    };
    for number in 0..SLOTS {
        let old = before.get(usize::from(number)).copied();
        let new = value_of(tree, id, number);
        if let Some(slot) = tree.schema().slot(entry.kind, SlotNo(number)) {
            if old != Some(new) {
                case.put(b" ");
                case.put(slot.name.as_bytes());
                case.put(b" ");
                case.show(&new);
            }
        }
    }
}
