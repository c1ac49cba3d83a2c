//! Instructions on longs.
ghost use Rattle.std.specs.Prelude.{◌≡◌, Ok};
ghost use Rattle.std.specs.Int.{w64};
ghost use Rattle.sed_typed.specs.declared.operators.Arithmetic.TheVariants.{ShiftLeft, ShiftRight};
ghost use Rattle.sed_typed.specs.declared.operators.Unary.TheVariants.{Flip, Negate};
ghost use Rattle.sed_typed.specs.declared.operators.Width.TheVariants.{Long as LongWidth};
ghost use Rattle.sed_engine.specs.Operators.{computed};
ghost use Rattle.scode_code.specs.Effect.{computes, of_one};
ghost use Rattle.scode_code.specs.Steps.{effect};
ghost use Rattle.scode_vm.specs.Doings.{Does, IsStraight, MayDo, as_stop};
ghost use Rattle.scode_vm.specs.Groups.{Longs, group_of};

use crate::tops::{pop_long, pop_long_and_int, pop_longs};
use scode_cells::{Cell, Cells};
use scode_ops::Op;
use sed_engine::Trap;
use sed_typed::Arithmetic;
use sed_value as number;

/// Of two longs off the stack: a long on it. A division by zero traps. Not for the shifts, of which the count is an
/// int.
#[inline(always)]
pub fn long_arithmetic(op: Arithmetic, cells: &mut Cells) -> Result<(), Trap>
    requires straight { IsStraight op }
    requires may { MayDo (λ w. computes op LongWidth) cells.old }
    ensures { Does (λ w. computes op LongWidth) cells.old result cells.new }
{
    let (a, b) = pop_longs(cells);
    match long_of(op, a, b) {
        Ok(number) => {
            cells.push(Cell::Long(number));
            Ok(())
        }
        Err(trap) => Err(trap),
    }
}

// Of two longs.
#[inline(always)]
fn long_of(op: Arithmetic, a: i64, b: i64) -> Result<i64, Trap>
    requires { IsStraight op }
    ensures { as_stop result ≡ computed op w64 a b }
{
    match op {
        Arithmetic::Add => Ok(number::add_long(a, b)),
        Arithmetic::Subtract => Ok(number::sub_long(a, b)),
        Arithmetic::Multiply => Ok(number::mul_long(a, b)),
        Arithmetic::Divide => match number::div_long(a, b) {
            Some(quotient) => Ok(quotient),
            None => Err(Trap::ZeroDivisor),
        },
        Arithmetic::Remainder => match number::rem_long(a, b) {
            Some(remainder) => Ok(remainder),
            None => Err(Trap::ZeroDivisor),
        },
        Arithmetic::BitAnd => Ok(a & b),
        Arithmetic::BitOr => Ok(a | b),
        Arithmetic::BitXor => Ok(a ^ b),
        Arithmetic::ShiftLeft | Arithmetic::ShiftRight => unreachable!(),
    }
}

/// Shifts a long to the left by an int.
#[inline(always)]
pub fn shift_long_left(cells: &mut Cells)
    requires { MayDo (λ w. computes ShiftLeft LongWidth) cells.old }
    ensures { Does (λ w. computes ShiftLeft LongWidth) cells.old (Ok tt) cells.new }
{
    let (a, b) = pop_long_and_int(cells);
    cells.push(Cell::Long(number::shl_long(a, b)));
}

/// Shifts a long to the right by an int, and keeps its sign.
#[inline(always)]
pub fn shift_long_right(cells: &mut Cells)
    requires { MayDo (λ w. computes ShiftRight LongWidth) cells.old }
    ensures { Does (λ w. computes ShiftRight LongWidth) cells.old (Ok tt) cells.new }
{
    let (a, b) = pop_long_and_int(cells);
    cells.push(Cell::Long(number::shr_long(a, b)));
}

/// The negative of a long.
#[inline(always)]
pub fn negate_long(cells: &mut Cells)
    requires { MayDo (λ w. of_one (Negate LongWidth)) cells.old }
    ensures { Does (λ w. of_one (Negate LongWidth)) cells.old (Ok tt) cells.new }
{
    let a = pop_long(cells);
    cells.push(Cell::Long(number::sub_long(0, a)));
}

/// A long with each bit changed.
#[inline(always)]
pub fn flip_long(cells: &mut Cells)
    requires { MayDo (λ w. of_one (Flip LongWidth)) cells.old }
    ensures { Does (λ w. of_one (Flip LongWidth)) cells.old (Ok tt) cells.new }
{
    let a = pop_long(cells);
    cells.push(Cell::Long(!a));
}

/// Does an instruction on longs.
pub fn long_instruction(op: Op, cells: &mut Cells) -> Result<(), Trap>
    requires group { group_of op ≡ Longs }
    requires may { MayDo (λ w. effect w op) cells.old }
    ensures { Does (λ w. effect w op) cells.old result cells.new }
{
    match op {
        Op::LongAdd => long_arithmetic(Arithmetic::Add, cells),
        Op::LongSub => long_arithmetic(Arithmetic::Subtract, cells),
        Op::LongMul => long_arithmetic(Arithmetic::Multiply, cells),
        Op::LongDiv => long_arithmetic(Arithmetic::Divide, cells),
        Op::LongRem => long_arithmetic(Arithmetic::Remainder, cells),
        Op::LongAnd => long_arithmetic(Arithmetic::BitAnd, cells),
        Op::LongOr => long_arithmetic(Arithmetic::BitOr, cells),
        Op::LongXor => long_arithmetic(Arithmetic::BitXor, cells),
        Op::LongShl => {
            shift_long_left(cells);
            Ok(())
        }
        Op::LongShr => {
            shift_long_right(cells);
            Ok(())
        }
        Op::LongNeg => {
            negate_long(cells);
            Ok(())
        }
        Op::LongNot => {
            flip_long(cells);
            Ok(())
        }
        _ => unreachable!(),
    }
}
