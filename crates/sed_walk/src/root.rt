//! Root calls.
ghost use Rattle.std.specs.Prelude.{◌≡◌, ◌<◌, ◌≤◌, ℕ, map};
ghost use Rattle.sed_typed.specs.Classes.{slot_name as name_of_slot};
ghost use Rattle.sed_engine.specs.Root.{calls_with, start_root, root_method as method_of_root, method_at};
ghost use Rattle.sed_engine.specs.Root.{callback_method as method_of_callback, argument_of};
ghost use Rattle.sed_engine.specs.Root.{root_frame as frame_of_root, end_of, most_frames, callback_name};
ghost use Rattle.sed_engine.specs.Values as val;
ghost use Rattle.sed_cells.specs.Places.{Plan as Planned, classes_in};
ghost use Rattle.walk_steps.specs.Seen.{seen, ends, as_it_is};
ghost use Rattle.walk_steps.specs.Stored.{shared_of};
ghost use Rattle.sed_walk.specs.Flows.{came_to};

use crate::calls::call;
use crate::site::Site;
use sed_cells::{Plan, find};
use sed_engine::{CallEnd, Callback, Root};
use sed_typed::{Program, SlotNo, TypeNo};
use sed_value::Value;
use walk_steps::locals::{FRAME, frame_of};
use walk_steps::{Base, Stop, Store, Word};

/// How many frames are live at most, the root call's the first.
pub const MOST_FRAMES: u8 = 32;

/// The number of the type `Component` in kit `sys`.
pub const COMPONENT_TYPE: u8 = 2;

/// Runs a root call on a component of a class, on the cells in a store. What was written before a trap
/// stands.
pub fn run(
    plan: &Plan,
    class: u16,
    which: Root,
    argument: &Value,
    store: &mut Store,
) -> Result<Word, Stop>
    requires { class < classes_in plan.now }
    ensures end { came_to plan.now class result store.new
        ≡ start_root (calls_with plan.now.program class most_frames) (method_of_root plan.now.program class which)
        (argument_of argument.now)
        (shared_of plan.now class store.old) }
    ensures turns { store.new.turns ≤ store.old.turns }
{
    let method = root_method(plan.program(), class, which)?;
    let argument = argument_word(argument)?;
    match method {
        Some(method) => {
            let site = Site {
                plan,
                class: usize::from(class),
                frames: MOST_FRAMES,
            };
            let mut frame = root_frame(argument);
            call(&site, method, &mut frame, store)
        }
        None => Ok(Word::Nothing),
    }
}

/// How a root call is told to end, with so many turns left.
pub fn call_end(answer: Result<Word, Stop>, left: u32) -> CallEnd
    ensures { (plan : Planned) (class : ℕ) → result ≡ end_of (ends plan class answer) left }
{
    match answer {
        Ok(_) => CallEnd::Done { left },
        Err(Stop::Trapped(trap)) => CallEnd::Trap {
            number: trap.number(),
        },
        Err(Stop::Untyped) => CallEnd::Trap { number: 0 },
    }
}

// The number of the method that a root runs; none where it runs none.
fn root_method(program: &Program, class: u16, which: Root) -> Result<Option<usize>, Stop>
    ensures { as_it_is result ≡ method_of_root program.now class which }
{
    match which {
        Root::Execute => nearest(program, class, b"execute"),
        Root::Action(slot) => nearest(program, class, slot_name(program, class, slot)),
        Root::Callback(callback) => callback_method(program, class, name_of(callback)),
    }
}

// The nearest method of a name, which a typed program has.
fn nearest(program: &Program, class: u16, name: &[u8]) -> Result<Option<usize>, Stop>
    ensures { as_it_is result ≡ method_at program.now class name.now }
{
    match find(program, class, name) {
        Some(method) => Ok(Some(method)),
        None => Err(Stop::Untyped),
    }
}

// The name of a slot of a class, empty where there is none.
fn slot_name(program: &Program, class: u16, slot: SlotNo) -> &[u8]
    ensures { result.now ≡ name_of_slot program.now.schema.classes class slot.0 }
{
    match program.schema.slot(TypeNo(class), slot) {
        Some(info) => info.name.as_bytes(),
        None => &[],
    }
}

// The method of a callback, where components have one of that name.
fn callback_method(program: &Program, class: u16, name: &[u8]) -> Result<Option<usize>, Stop>
    ensures { as_it_is result ≡ method_of_callback program.now class name.now }
{
    let Some(TypeNo(component)) = program.schema.type_of(0, COMPONENT_TYPE) else {
        return Err(Stop::Untyped);
    };
    if find(program, component, name).is_some() {
        nearest(program, class, name)
    } else {
        Ok(None)
    }
}

fn name_of(callback: Callback) -> &'static [u8]
    ensures { result.now ≡ callback_name callback }
{
    match callback {
        Callback::Start => b"start",
        Callback::Stop => b"stop",
        Callback::Changed => b"changed",
    }
}

// The argument of a root call as a word; where there is none the local is not begun.
fn argument_word(argument: &Value) -> Result<Word, Stop>
    ensures { (plan : Planned) (class : ℕ) → ends plan class result ≡ argument_of argument.now }
{
    match argument {
        Value::Nothing => Ok(Word::Nothing),
        Value::Bool(truth) => Ok(Word::Truth(*truth)),
        Value::Byte(number) => Ok(Word::Int(i32::from(*number))),
        Value::Short(number) => Ok(Word::Int(i32::from(*number))),
        Value::Int(number) => Ok(Word::Int(*number)),
        Value::Long(number) => Ok(Word::Long(*number)),
        Value::Buf(_) => Err(Stop::Untyped),
    }
}

// The frame of a root call: the component, and the argument.
fn root_frame(argument: Word) -> [Word; FRAME]
    ensures { (plan : Planned) (class : ℕ) → map (seen plan class) result ≡ frame_of_root (seen plan class argument) }
{
    let mut frame = frame_of(Word::At(Base::Component, 0));
    frame[1] = argument;
    frame
}
