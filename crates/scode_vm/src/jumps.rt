//! Jumps.
ghost use Rattle.std.specs.Prelude.{◌≡◌, Ok};
ghost use Rattle.scode_ops.specs.declared.op.Op.TheVariants as op;
ghost use Rattle.scode_code.specs.Steps.{effect};
ghost use Rattle.scode_vm.specs.Doings.{Does, MayDo};
ghost use Rattle.scode_vm.specs.Groups.{Jumps, group_of};

use crate::tops::pop_bool;
use scode_cells::Cells;
use scode_ops::Op;
use sed_engine::Trap;

/// To a place of the method.
#[inline(always)]
pub fn jump(to: u16, cells: &mut Cells)
    requires { MayDo (λ w. effect w (op.Jump to)) cells.old }
    ensures { Does (λ w. effect w (op.Jump to)) cells.old (Ok tt) cells.new }
{
    cells.set_place(to);
}

/// To a place where the top is false.
#[inline(always)]
pub fn jump_if_false(to: u16, cells: &mut Cells)
    requires { MayDo (λ w. effect w (op.JumpFalse to)) cells.old }
    ensures { Does (λ w. effect w (op.JumpFalse to)) cells.old (Ok tt) cells.new }
{
    if pop_bool(cells) == 0 {
        cells.set_place(to);
    }
}

/// To a place where the top is not false.
#[inline(always)]
pub fn jump_if_true(to: u16, cells: &mut Cells)
    requires { MayDo (λ w. effect w (op.JumpTrue to)) cells.old }
    ensures { Does (λ w. effect w (op.JumpTrue to)) cells.old (Ok tt) cells.new }
{
    if pop_bool(cells) != 0 {
        cells.set_place(to);
    }
}

/// Does a jump.
#[inline(always)]
pub fn jump_instruction(op: Op, cells: &mut Cells) -> Result<(), Trap>
    requires group { group_of op ≡ Jumps }
    requires may { MayDo (λ w. effect w op) cells.old }
    ensures { Does (λ w. effect w op) cells.old result cells.new }
{
    match op {
        Op::Jump(to) => {
            jump(to, cells);
            Ok(())
        }
        Op::JumpFalse(to) => {
            jump_if_false(to, cells);
            Ok(())
        }
        Op::JumpTrue(to) => {
            jump_if_true(to, cells);
            Ok(())
        }
        _ => unreachable!(),
    }
}
