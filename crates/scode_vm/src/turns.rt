//! Turns, and the moment.
ghost use Rattle.std.specs.Prelude.{◌≡◌, ◌-◌, ℕ, ℤ, Ok};
ghost use Rattle.sed_engine.specs.Steps.{turn_of};
ghost use Rattle.scode_ops.specs.declared.op.Op.TheVariants as op;
ghost use Rattle.scode_code.specs.Steps.{effect};
ghost use Rattle.scode_vm.specs.Doings.{DoesWith, MayDo, as_stop};
ghost use Rattle.scode_vm.specs.Groups.{Turns, group_of};

use scode_cells::{Cell, Cells};
use scode_ops::Op;
use sed_engine::Trap;

/// Takes a turn of those that are left. Where there is none it traps.
#[inline(always)]
pub fn take_turn(left: &mut u32) -> Result<(), Trap>
    ensures turn { as_stop result ≡ turn_of left.old }
    ensures left { left.new ≡ left.old - 1 }
{
    if *left == 0 {
        return Err(Trap::TurnsSpent);
    }
    *left -= 1;
    Ok(())
}

/// Takes a turn, and nothing else.
#[inline(always)]
pub fn turn(cells: &Cells, left: &mut u32) -> Result<(), Trap>
    requires { MayDo (λ w. effect w op.Turn) cells.now }
    ensures { (moment : ℤ) →
        DoesWith (λ w. effect w op.Turn) cells.now left.old moment result cells.now left.new }
{
    let _ = cells;
    take_turn(left)
}

/// The moment on the stack.
#[inline(always)]
pub fn ticks(moment: i64, cells: &mut Cells)
    requires { MayDo (λ w. effect w op.Ticks) cells.old }
    ensures { (turns : ℕ) → DoesWith (λ w. effect w op.Ticks) cells.old turns moment (Ok tt) cells.new turns }
{
    cells.push(Cell::Long(moment));
}

/// Takes a turn, or puts the moment on the stack.
#[inline(always)]
pub fn turn_instruction(op: Op, moment: i64, cells: &mut Cells, left: &mut u32) -> Result<(), Trap>
    requires group { group_of op ≡ Turns }
    requires may { MayDo (λ w. effect w op) cells.old }
    ensures { DoesWith (λ w. effect w op) cells.old left.old moment result cells.new left.new }
{
    match op {
        Op::Turn => turn(cells, left),
        Op::Ticks => {
            ticks(moment, cells);
            Ok(())
        }
        _ => unreachable!(),
    }
}
