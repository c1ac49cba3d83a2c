//! Instructions by what they are about, each done where it stands: the running frame is put behind it first.
ghost use Rattle.std.specs.Prelude.{◌≡◌};
ghost use Rattle.scode_vm.specs.Calling.{AreZeros};
ghost use Rattle.scode_vm.specs.Groups as group;
ghost use Rattle.scode_engine.specs.AtWork.{DoesNext, MayDoNext, running_on};
ghost use Rattle.scode_engine.specs.Root.{rooted};

use crate::behind::{going_on, skip};
use crate::root_call::RootCall;
use scode_access::{array_instruction, field_instruction, str_instruction};
use scode_cells::Cells;
use scode_mem::Pool;
use scode_ops::Op;
use scode_vm::{
    Course, call_instruction, comparison_instruction, conversion_instruction, int_instruction,
    jump_instruction, local_instruction, long_instruction, turn_instruction,
};
use sed_engine::Trap;

/// Does an instruction on constants, locals or the stack.
#[inline(always)]
pub fn do_local(
    op: Op,
    call: &RootCall,
    pool: &mut Pool,
    cells: &mut Cells,
    left: &mut u32,
) -> Result<Course, Trap>
    requires group { group.group_of op ≡ group.Locals }
    requires next { MayDoNext (rooted call.now) op (running_on cells.old pool.old left.old) }
    ensures { DoesNext (rooted call.now) op (running_on cells.old pool.old left.old) result
        (running_on cells.new pool.new left.new) }
{
    skip(op, cells);
    going_on(local_instruction(op, cells))
}

/// Does an instruction on ints.
#[inline(always)]
pub fn do_int(
    op: Op,
    call: &RootCall,
    pool: &mut Pool,
    cells: &mut Cells,
    left: &mut u32,
) -> Result<Course, Trap>
    requires group { group.group_of op ≡ group.Ints }
    requires next { MayDoNext (rooted call.now) op (running_on cells.old pool.old left.old) }
    ensures { DoesNext (rooted call.now) op (running_on cells.old pool.old left.old) result
        (running_on cells.new pool.new left.new) }
{
    skip(op, cells);
    going_on(int_instruction(op, cells))
}

/// Does an instruction on longs.
#[inline(always)]
pub fn do_long(
    op: Op,
    call: &RootCall,
    pool: &mut Pool,
    cells: &mut Cells,
    left: &mut u32,
) -> Result<Course, Trap>
    requires group { group.group_of op ≡ group.Longs }
    requires next { MayDoNext (rooted call.now) op (running_on cells.old pool.old left.old) }
    ensures { DoesNext (rooted call.now) op (running_on cells.old pool.old left.old) result
        (running_on cells.new pool.new left.new) }
{
    skip(op, cells);
    going_on(long_instruction(op, cells))
}

/// Does a comparison.
#[inline(always)]
pub fn do_comparison(
    op: Op,
    call: &RootCall,
    pool: &mut Pool,
    cells: &mut Cells,
    left: &mut u32,
) -> Result<Course, Trap>
    requires group { group.group_of op ≡ group.Comparisons }
    requires next { MayDoNext (rooted call.now) op (running_on cells.old pool.old left.old) }
    ensures { DoesNext (rooted call.now) op (running_on cells.old pool.old left.old) result
        (running_on cells.new pool.new left.new) }
{
    skip(op, cells);
    going_on(comparison_instruction(op, cells))
}

/// Does a conversion.
#[inline(always)]
pub fn do_conversion(
    op: Op,
    call: &RootCall,
    pool: &mut Pool,
    cells: &mut Cells,
    left: &mut u32,
) -> Result<Course, Trap>
    requires group { group.group_of op ≡ group.Conversions }
    requires next { MayDoNext (rooted call.now) op (running_on cells.old pool.old left.old) }
    ensures { DoesNext (rooted call.now) op (running_on cells.old pool.old left.old) result
        (running_on cells.new pool.new left.new) }
{
    skip(op, cells);
    going_on(conversion_instruction(op, cells))
}

/// Does a jump.
#[inline(always)]
pub fn do_jump(
    op: Op,
    call: &RootCall,
    pool: &mut Pool,
    cells: &mut Cells,
    left: &mut u32,
) -> Result<Course, Trap>
    requires group { group.group_of op ≡ group.Jumps }
    requires next { MayDoNext (rooted call.now) op (running_on cells.old pool.old left.old) }
    ensures { DoesNext (rooted call.now) op (running_on cells.old pool.old left.old) result
        (running_on cells.new pool.new left.new) }
{
    skip(op, cells);
    going_on(jump_instruction(op, cells))
}

/// Does one that takes a turn, or puts the moment on the stack.
#[inline(always)]
pub fn do_turn(
    op: Op,
    call: &RootCall,
    pool: &mut Pool,
    cells: &mut Cells,
    left: &mut u32,
) -> Result<Course, Trap>
    requires group { group.group_of op ≡ group.Turns }
    requires next { MayDoNext (rooted call.now) op (running_on cells.old pool.old left.old) }
    ensures { DoesNext (rooted call.now) op (running_on cells.old pool.old left.old) result
        (running_on cells.new pool.new left.new) }
{
    skip(op, cells);
    going_on(turn_instruction(op, call.moment, cells, left))
}

/// Does an instruction on a field.
#[inline(always)]
pub fn do_field(
    op: Op,
    call: &RootCall,
    pool: &mut Pool,
    cells: &mut Cells,
    left: &mut u32,
) -> Result<Course, Trap>
    requires group { group.group_of op ≡ group.Fields }
    requires next { MayDoNext (rooted call.now) op (running_on cells.old pool.old left.old) }
    ensures { DoesNext (rooted call.now) op (running_on cells.old pool.old left.old) result
        (running_on cells.new pool.new left.new) }
{
    skip(op, cells);
    going_on(field_instruction(op, call.image, cells, pool))
}

/// Does an instruction on an element of an array.
#[inline(always)]
pub fn do_array(
    op: Op,
    call: &RootCall,
    pool: &mut Pool,
    cells: &mut Cells,
    left: &mut u32,
) -> Result<Course, Trap>
    requires group { group.group_of op ≡ group.Arrays }
    requires next { MayDoNext (rooted call.now) op (running_on cells.old pool.old left.old) }
    ensures { DoesNext (rooted call.now) op (running_on cells.old pool.old left.old) result
        (running_on cells.new pool.new left.new) }
{
    skip(op, cells);
    going_on(array_instruction(op, call.image, cells, pool))
}

/// Does a call or a return.
#[inline(always)]
pub fn do_call(
    op: Op,
    call: &RootCall,
    pool: &mut Pool,
    cells: &mut Cells,
    left: &mut u32,
) -> Result<Course, Trap>
    requires group { group.group_of op ≡ group.Calls }
    requires zeros { AreZeros call.now.image.now call.now.zeros.now }
    requires next { MayDoNext (rooted call.now) op (running_on cells.old pool.old left.old) }
    ensures { DoesNext (rooted call.now) op (running_on cells.old pool.old left.old) result
        (running_on cells.new pool.new left.new) }
{
    skip(op, cells);
    call_instruction(op, call.image, call.zeros, cells, left)
}

/// Does a call of a Str.
#[inline(always)]
pub fn do_str(
    op: Op,
    call: &RootCall,
    pool: &mut Pool,
    cells: &mut Cells,
    left: &mut u32,
) -> Result<Course, Trap>
    requires group { group.group_of op ≡ group.Strs }
    requires next { MayDoNext (rooted call.now) op (running_on cells.old pool.old left.old) }
    ensures { DoesNext (rooted call.now) op (running_on cells.old pool.old left.old) result
        (running_on cells.new pool.new left.new) }
{
    skip(op, cells);
    going_on(str_instruction(op, call.image, cells, pool))
}
