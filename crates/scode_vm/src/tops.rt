//! Cells off the stack, of which the form is known.
ghost use Rattle.std.specs.Prelude.{◌≡◌, ◌∷◌};
ghost use Rattle.scode_cells.specs.declared.cell.Cell.TheVariants as cell;
ghost use Rattle.scode_cells.specs.Frames.{popped, running};
ghost use Rattle.scode_vm.specs.Tops.{IsBool, IsInt, IsLong, Top, TopTwo, truth_cell};

use scode_cells::{Cell, Cells};

/// Takes an int off the stack.
#[inline(always)]
pub fn pop_int(cells: &mut Cells) -> i32
    requires { Top IsInt (running cells.old).stack }
    ensures top { (running cells.old).stack ≡ cell.Int result ∷ (running cells.new).stack }
    ensures rest { cells.new ≡ popped cells.old }
{
    match cells.pop() {
        Cell::Int(number) => number,
        _ => unreachable!(),
    }
}

/// Takes a long off the stack.
#[inline(always)]
pub fn pop_long(cells: &mut Cells) -> i64
    requires { Top IsLong (running cells.old).stack }
    ensures top { (running cells.old).stack ≡ cell.Long result ∷ (running cells.new).stack }
    ensures rest { cells.new ≡ popped cells.old }
{
    match cells.pop() {
        Cell::Long(number) => number,
        _ => unreachable!(),
    }
}

/// Takes a truth value off the stack: 0 false, 1 true, 2 null.
#[inline(always)]
pub fn pop_bool(cells: &mut Cells) -> u8
    requires { Top IsBool (running cells.old).stack }
    ensures top { (running cells.old).stack ≡ cell.Bool result ∷ (running cells.new).stack }
    ensures rest { cells.new ≡ popped cells.old }
{
    match cells.pop() {
        Cell::Bool(truth) => truth,
        _ => unreachable!(),
    }
}

/// Takes two ints off the stack, the lower one first.
#[inline(always)]
pub fn pop_ints(cells: &mut Cells) -> (i32, i32)
    requires { TopTwo IsInt IsInt (running cells.old).stack }
    ensures top { (running cells.old).stack ≡ cell.Int result.1 ∷ cell.Int result.0 ∷ (running cells.new).stack }
    ensures rest { cells.new ≡ popped (popped cells.old) }
{
    let b = pop_int(cells);
    let a = pop_int(cells);
    (a, b)
}

/// Takes two longs off the stack, the lower one first.
#[inline(always)]
pub fn pop_longs(cells: &mut Cells) -> (i64, i64)
    requires { TopTwo IsLong IsLong (running cells.old).stack }
    ensures top { (running cells.old).stack ≡ cell.Long result.1 ∷ cell.Long result.0 ∷ (running cells.new).stack }
    ensures rest { cells.new ≡ popped (popped cells.old) }
{
    let b = pop_long(cells);
    let a = pop_long(cells);
    (a, b)
}

/// Takes an int off the stack and a long below it, which comes first.
#[inline(always)]
pub fn pop_long_and_int(cells: &mut Cells) -> (i64, i32)
    requires { TopTwo IsInt IsLong (running cells.old).stack }
    ensures top { (running cells.old).stack ≡ cell.Int result.1 ∷ cell.Long result.0 ∷ (running cells.new).stack }
    ensures rest { cells.new ≡ popped (popped cells.old) }
{
    let b = pop_int(cells);
    let a = pop_long(cells);
    (a, b)
}

/// Takes two truth values off the stack, the lower one first.
#[inline(always)]
pub fn pop_bools(cells: &mut Cells) -> (u8, u8)
    requires { TopTwo IsBool IsBool (running cells.old).stack }
    ensures top { (running cells.old).stack ≡ cell.Bool result.1 ∷ cell.Bool result.0 ∷ (running cells.new).stack }
    ensures rest { cells.new ≡ popped (popped cells.old) }
{
    let b = pop_bool(cells);
    let a = pop_bool(cells);
    (a, b)
}

/// A truth value.
#[inline(always)]
pub fn bool_cell(truth: bool) -> Cell
    ensures { result ≡ truth_cell truth }
{
    if truth { Cell::Bool(1) } else { Cell::Bool(0) }
}
