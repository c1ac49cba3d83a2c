//! Instructions on ints.
ghost use Rattle.std.specs.Prelude.{◌≡◌, Ok};
ghost use Rattle.std.specs.Int.{w32};
ghost use Rattle.sed_typed.specs.declared.operators.Unary.TheVariants.{Flip, Negate};
ghost use Rattle.sed_typed.specs.declared.operators.Width.TheVariants.{Int as IntWidth};
ghost use Rattle.sed_engine.specs.Operators.{computed};
ghost use Rattle.scode_code.specs.Effect.{computes, of_one};
ghost use Rattle.scode_code.specs.Steps.{effect};
ghost use Rattle.scode_vm.specs.Doings.{Does, MayDo, as_stop};
ghost use Rattle.scode_vm.specs.Groups.{Ints, group_of};

use crate::tops::{pop_int, pop_ints};
use scode_cells::{Cell, Cells};
use scode_ops::Op;
use sed_engine::Trap;
use sed_typed::Arithmetic;
use sed_value as number;

/// Of two ints off the stack: an int on it. A division by zero traps.
#[inline(always)]
pub fn int_arithmetic(op: Arithmetic, cells: &mut Cells) -> Result<(), Trap>
    requires { MayDo (λ w. computes op IntWidth) cells.old }
    ensures { Does (λ w. computes op IntWidth) cells.old result cells.new }
{
    let (a, b) = pop_ints(cells);
    match int_of(op, a, b) {
        Ok(number) => {
            cells.push(Cell::Int(number));
            Ok(())
        }
        Err(trap) => Err(trap),
    }
}

// Of two ints.
#[inline(always)]
fn int_of(op: Arithmetic, a: i32, b: i32) -> Result<i32, Trap>
    ensures { as_stop result ≡ computed op w32 a b }
{
    match op {
        Arithmetic::Add => Ok(number::add_int(a, b)),
        Arithmetic::Subtract => Ok(number::sub_int(a, b)),
        Arithmetic::Multiply => Ok(number::mul_int(a, b)),
        Arithmetic::Divide => match number::div_int(a, b) {
            Some(quotient) => Ok(quotient),
            None => Err(Trap::ZeroDivisor),
        },
        Arithmetic::Remainder => match number::rem_int(a, b) {
            Some(remainder) => Ok(remainder),
            None => Err(Trap::ZeroDivisor),
        },
        Arithmetic::BitAnd => Ok(a & b),
        Arithmetic::BitOr => Ok(a | b),
        Arithmetic::BitXor => Ok(a ^ b),
        Arithmetic::ShiftLeft => Ok(number::shl_int(a, b)),
        Arithmetic::ShiftRight => Ok(number::shr_int(a, b)),
    }
}

/// The negative of an int.
#[inline(always)]
pub fn negate_int(cells: &mut Cells)
    requires { MayDo (λ w. of_one (Negate IntWidth)) cells.old }
    ensures { Does (λ w. of_one (Negate IntWidth)) cells.old (Ok tt) cells.new }
{
    let a = pop_int(cells);
    cells.push(Cell::Int(number::sub_int(0, a)));
}

/// An int with each bit changed.
#[inline(always)]
pub fn flip_int(cells: &mut Cells)
    requires { MayDo (λ w. of_one (Flip IntWidth)) cells.old }
    ensures { Does (λ w. of_one (Flip IntWidth)) cells.old (Ok tt) cells.new }
{
    let a = pop_int(cells);
    cells.push(Cell::Int(!a));
}

/// Does an instruction on ints.
#[inline(always)]
pub fn int_instruction(op: Op, cells: &mut Cells) -> Result<(), Trap>
    requires group { group_of op ≡ Ints }
    requires may { MayDo (λ w. effect w op) cells.old }
    ensures { Does (λ w. effect w op) cells.old result cells.new }
{
    match op {
        Op::IntAdd => int_arithmetic(Arithmetic::Add, cells),
        Op::IntSub => int_arithmetic(Arithmetic::Subtract, cells),
        Op::IntMul => int_arithmetic(Arithmetic::Multiply, cells),
        Op::IntDiv => int_arithmetic(Arithmetic::Divide, cells),
        Op::IntRem => int_arithmetic(Arithmetic::Remainder, cells),
        Op::IntAnd => int_arithmetic(Arithmetic::BitAnd, cells),
        Op::IntOr => int_arithmetic(Arithmetic::BitOr, cells),
        Op::IntXor => int_arithmetic(Arithmetic::BitXor, cells),
        Op::IntShl => int_arithmetic(Arithmetic::ShiftLeft, cells),
        Op::IntShr => int_arithmetic(Arithmetic::ShiftRight, cells),
        Op::IntNeg => {
            negate_int(cells);
            Ok(())
        }
        Op::IntNot => {
            flip_int(cells);
            Ok(())
        }
        _ => unreachable!(),
    }
}
