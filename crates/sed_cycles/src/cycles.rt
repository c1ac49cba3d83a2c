//! The component of a code's first class, and its cycles.
ghost use Rattle.std.specs.Prelude.{◌≡◌, ◌<◌, ◌≤◌, ℕ, IfOk, IfSome, IsTrue, Some, option_map, position};
ghost use Rattle.std.specs.FinMap as map;
ghost use Rattle.sed_engine.specs.Code.{is_creatable};
ghost use Rattle.sed_engine.specs.Runnable.{is_first as is_first_class};
ghost use Rattle.sed_cycles.specs.Cycles as meaning;
ghost use Rattle.sed_cycles.specs.Cycles.{CanRun};

use crate::{add_component, component_text, run_cycles};
use sed_engine::Engine;
use sed_typed::{ClassInfo, TypeNo};
use sed_value::Memory;
use std::alloc::Global;

// The turns that each execution may take.
const TURNS: u32 = 10_000;

fn is_first(class: &ClassInfo) -> bool
    ensures { result ≡ is_first_class class.now }
{
    class.kit == 1 && class.number == 0
}

// The place of the first class of the first kit behind `sys`.
fn first_place(classes: &[ClassInfo]) -> Option<usize>
    ensures { result ≡ position is_first_class classes.now }
{
    classes.iter().position(is_first)
}

// What the component of a class prints after so many cycles.
fn text_of<E: Engine>(
    alloc: Global,
    engine: E,
    class: TypeNo,
    cycles: u32,
) -> Result<Vec<u8>, Memory>
    requires bare { E.live engine ≡ map.empty }
    requires begun { E.statics engine ≡ (E.meaning engine).initial_statics }
    requires creatable { IsTrue (is_creatable (E.meaning engine) class.0) }
    requires most_cycles { cycles ≤ 1000000 }
    ensures { IfOk result (λ text. text.items
        ≡ meaning.printed (E.meaning engine) (meaning.component_after (E.meaning engine) cycles class.0)) }
{
    let mut engine = engine;
    let Ok(mut component) = add_component(&mut engine, class) else {
        return Err(Memory);
    };
    run_cycles(&mut engine, &mut component, cycles, TURNS);
    Ok(component_text(alloc, &engine, &component)?)
}

/// The lines of a component of a code's first class after so many cycles: its properties in the order of their slots,
/// and its fault. Cycle n, counted from 1, is at the moment of n seconds, and has 10,000 turns; a faulted component is
/// not executed.
///
/// At most 1,000,000 cycles, over an engine without live places whose statics are as they begin. The code's first class
/// is a component type that is not abstract. Want of memory is the only refusal; it comes also where the engine has no
/// room for the component.
pub fn cycles_text<E: Engine>(alloc: Global, engine: E, cycles: u32) -> Result<Vec<u8>, Memory>
    requires bare { E.live engine ≡ map.empty }
    requires begun { E.statics engine ≡ (E.meaning engine).initial_statics }
    requires runnable { CanRun (E.meaning engine) }
    requires most_cycles { cycles ≤ 1000000 }
    ensures { IfOk result (λ text. text.items ≡ meaning.text_after (E.meaning engine) cycles) }
{
    match first_place(engine.schema().classes.as_slice()) {
        Some(place) => {
            let Ok(number) = u16::try_from(place) else {
                return Err(Memory);
            };
            text_of(alloc, engine, TypeNo(number), cycles)
        }
        None => Ok(Vec::new(alloc)),
    }
}
