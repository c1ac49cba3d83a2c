//! Conversions.
ghost use Rattle.std.specs.Prelude.{◌≡◌, Ok};
ghost use Rattle.sed_typed.specs.declared.operators.Unary.TheVariants.{LowByte, LowShort, Not, ToInt, ToLong};
ghost use Rattle.sed_typed.specs.declared.operators.Width.TheVariants.{Int as IntWidth};
ghost use Rattle.scode_code.specs.Effect.{of_one};
ghost use Rattle.scode_code.specs.Steps.{effect};
ghost use Rattle.scode_vm.specs.Doings.{Does, MayDo};
ghost use Rattle.scode_vm.specs.Groups.{Conversions, group_of};

use crate::tops::{bool_cell, pop_bool, pop_int, pop_long};
use scode_cells::{Cell, Cells};
use scode_ops::Op;
use sed_engine::Trap;
use sed_value as number;

/// An int as a long.
#[inline(always)]
pub fn int_to_long(cells: &mut Cells)
    requires { MayDo (λ w. of_one ToLong) cells.old }
    ensures { Does (λ w. of_one ToLong) cells.old (Ok tt) cells.new }
{
    let a = pop_int(cells);
    cells.push(Cell::Long(i64::from(a)));
}

/// The low 32 bits of a long, as an int.
#[inline(always)]
pub fn long_to_int(cells: &mut Cells)
    requires { MayDo (λ w. of_one ToInt) cells.old }
    ensures { Does (λ w. of_one ToInt) cells.old (Ok tt) cells.new }
{
    let a = pop_long(cells);
    cells.push(Cell::Int(number::long_to_int(a)));
}

/// True where a truth value is false, and else false.
#[inline(always)]
pub fn not(cells: &mut Cells)
    requires { MayDo (λ w. of_one Not) cells.old }
    ensures { Does (λ w. of_one Not) cells.old (Ok tt) cells.new }
{
    let a = pop_bool(cells);
    cells.push(bool_cell(a == 0));
}

/// The low 8 bits of an int.
#[inline(always)]
pub fn int_to_byte(cells: &mut Cells)
    requires { MayDo (λ w. of_one (LowByte IntWidth)) cells.old }
    ensures { Does (λ w. of_one (LowByte IntWidth)) cells.old (Ok tt) cells.new }
{
    let a = pop_int(cells);
    cells.push(Cell::Int(number::int_to_byte(a)));
}

/// The low 16 bits of an int.
#[inline(always)]
pub fn int_to_short(cells: &mut Cells)
    requires { MayDo (λ w. of_one (LowShort IntWidth)) cells.old }
    ensures { Does (λ w. of_one (LowShort IntWidth)) cells.old (Ok tt) cells.new }
{
    let a = pop_int(cells);
    cells.push(Cell::Int(number::int_to_short(a)));
}

/// Does a conversion.
pub fn conversion_instruction(op: Op, cells: &mut Cells) -> Result<(), Trap>
    requires group { group_of op ≡ Conversions }
    requires may { MayDo (λ w. effect w op) cells.old }
    ensures { Does (λ w. effect w op) cells.old result cells.new }
{
    match op {
        Op::IntToLong => {
            int_to_long(cells);
            Ok(())
        }
        Op::LongToInt => {
            long_to_int(cells);
            Ok(())
        }
        Op::Not => {
            not(cells);
            Ok(())
        }
        Op::IntToByte => {
            int_to_byte(cells);
            Ok(())
        }
        Op::IntToShort => {
            int_to_short(cells);
            Ok(())
        }
        _ => unreachable!(),
    }
}
