//! One step of the machine.
ghost use Rattle.std.specs.Prelude.{◌≡◌, ◌+◌, ◌<◌, ◌≤◌, Some, length, slice_get};
ghost use Rattle.scode_ops.specs.Decoding.{size_of};
ghost use Rattle.scode_ops.specs.declared.op.Op.{Op as AnyOp};
ghost use Rattle.scode_code.specs.Steps.{instruction_at};
ghost use Rattle.scode_cells.specs.Frames.{IsRunning, running};
ghost use Rattle.scode_vm.specs.Calling.{AreZeros};
ghost use Rattle.scode_engine.specs.AtWork.{IsAtWork, StepsTo, running_on};
ghost use Rattle.scode_engine.specs.Root.{rooted};
ghost use Rattle.scode_engine.specs.Rows.{AreRows};

use crate::instructions::do_instruction;
use crate::root_call::RootCall;
use scode_cells::Cells;
use scode_image::Image;
use scode_mem::Pool;
use scode_ops::Op;
use scode_sound::fine_machines_go_on;
use scode_vm::{Course, fine_frames_may_go_on, instructions_are_steps};
use sed_engine::Trap;
use sed_value::Items;

/// Does the next instruction of a root call that is at work. It leads to where the definition's next step leads.
#[inline(always)]
pub fn step(
    call: &RootCall,
    pool: &mut Pool,
    cells: &mut Cells,
    left: &mut u32,
) -> Result<Course, Trap>
    requires zeros { AreZeros call.now.image.now call.now.zeros.now }
    requires rows { AreRows call.now.image.now.methods call.now.rows.now }
    requires work { IsAtWork (rooted call.now) (running_on cells.old pool.old left.old) }
    ensures { StepsTo (rooted call.now) (running_on cells.old pool.old left.old) result
        (running_on cells.new pool.new left.new) }
{
    fine_frames_may_go_on();
    fine_machines_go_on();
    instructions_are_steps();
    let op = fetch(call.image, call.rows, cells);
    do_instruction(op, call, pool, cells, left)
}

// The next instruction.
#[inline(always)]
fn fetch<'a>(image: &Image, rows: &'a [Items<Op>], cells: &Cells) -> &'a Op
    requires rows { AreRows image.now.methods rows.now }
    requires runs { IsRunning cells.now }
    requires stands { (i : AnyOp)
        × (instruction_at image.now (running cells.now).method (running cells.now).place ≡ Some i) }
    ensures op { instruction_at image.now (running cells.now).method (running cells.now).place ≡ Some result.now }
    ensures fits { (running cells.now).place + size_of result.now ≤ 65535 }
{
    let _ = image;
    let row = row_at(rows, cells.method());
    op_in(row, cells.place())
}

// The decoded code of a method.
#[inline(always)]
fn row_at(rows: &[Items<Op>], method: u16) -> &[Op]
    requires { method < length rows.now }
    ensures { slice_get rows.now method ≡ Some result.now }
{
    rows[usize::from(method)].as_slice()
}

// What is decoded of a place.
#[inline(always)]
fn op_in(row: &[Op], place: u16) -> &Op
    requires { place < length row.now }
    ensures { slice_get row.now place ≡ Some result.now }
{
    &row[usize::from(place)]
}
