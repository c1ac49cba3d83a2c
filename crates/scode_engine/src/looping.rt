//! The loop of a root call.
ghost use Rattle.std.specs.Prelude.{◌≡◌};
ghost use Rattle.scode_vm.specs.Calling.{AreZeros};
ghost use Rattle.scode_engine.specs.AtWork.{IsAtWork, RunsTo, running_on};
ghost use Rattle.scode_engine.specs.Root.{rooted};
ghost use Rattle.scode_engine.specs.Rows.{AreRows};

use crate::root_call::RootCall;
use crate::stepping::step;
use scode_cells::{Cell, Cells};
use scode_code::machines_end_once;
use scode_mem::Pool;
use scode_sound::fine_machines_go_on;
use scode_vm::Course;
use sed_engine::Trap;

/// Runs a root call that is at work to its end: a cell or none, or a trap. No counter runs: each step leaves less to
/// do.
#[inline(always)]
pub fn run(
    call: &RootCall,
    pool: &mut Pool,
    cells: &mut Cells,
    left: &mut u32,
) -> Result<Option<Cell>, Trap>
    requires zeros { AreZeros call.now.image.now call.now.zeros.now }
    requires rows { AreRows call.now.image.now.methods call.now.rows.now }
    requires work { IsAtWork (rooted call.now) (running_on cells.old pool.old left.old) }
    ensures { RunsTo (rooted call.now) (running_on cells.old pool.old left.old) result
        (running_on cells.new pool.new left.new) }
{
    machines_end_once();
    fine_machines_go_on();
    'steps: loop {
        match step(call, pool, cells, left) {
            Ok(Course::On) => {}
            Ok(Course::Over(value)) => return Ok(value),
            Err(trap) => return Err(trap),
        }
    }
}
