//! Arguments as cells, and how a root call ends.
ghost use Rattle.std.specs.Prelude.{◌≡◌};
ghost use Rattle.sed_engine.specs.Root.{argument_of, end_of};
ghost use Rattle.sed_engine.specs.State.{Shared};
ghost use Rattle.sed_engine.specs.Stops.{there};
ghost use Rattle.scode_engine.specs.AtWork.{Rooted, end_of as ended};
ghost use Rattle.scode_engine.specs.Lookups.{IsFound, argument_seen};

use scode_cells::Cell;
use sed_engine::{CallEnd, Trap};
use sed_value::Value;

/// The cell that an argument is, or none where there is none.
pub fn argument_cell(argument: &Value) -> Option<Cell>
    requires { IsFound (argument_of argument.now) }
    ensures { argument_of argument.now ≡ there (argument_seen result) }
{
    match argument {
        Value::Bool(truth) => Some(Cell::Bool(*truth)),
        Value::Byte(number) => Some(Cell::Int(i32::from(*number))),
        Value::Short(number) => Some(Cell::Int(i32::from(*number))),
        Value::Int(number) => Some(Cell::Int(*number)),
        Value::Long(number) => Some(Cell::Long(*number)),
        Value::Nothing => None,
        Value::Buf(_) => unreachable!(),
    }
}

/// How a root call ends that comes to this, with so many turns left.
pub fn call_end(came: Result<Option<Cell>, Trap>, left: u32) -> CallEnd
    ensures { (q : Rooted) (shared : Shared) → result ≡ end_of (ended q came shared).result left }
{
    match came {
        Ok(_) => CallEnd::Done { left },
        Err(trap) => CallEnd::Trap {
            number: trap.number(),
        },
    }
}
