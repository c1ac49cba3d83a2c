//! Operands off the stack.
ghost use Rattle.std.specs.Prelude.{◌≡◌, ◌<◌, ◌∷◌, ℕ, pos, IfOk, MatchOption};
ghost use Rattle.sed_engine.specs.Texts.{index_within};
ghost use Rattle.scode_cells.specs.declared.cell.Cell.TheVariants as cell;
ghost use Rattle.scode_cells.specs.Frames.{popped, running};
ghost use Rattle.scode_vm.specs.Doings.{as_stop};
ghost use Rattle.scode_vm.specs.Tops.{IsInt, Top};
ghost use Rattle.scode_access.specs.Tops.{IsObject};

use scode_cells::{Cell, Cells};
use scode_mem::Block;
use sed_engine::Trap;

/// Where an object begins.
#[derive(Clone, Copy)]
pub struct Start {
    pub block: Block,
    pub offset: u16,
}

/// Takes a reference to an object off the stack: where it begins, or none for null.
#[inline(always)]
pub fn pop_object(cells: &mut Cells) -> Option<Start>
    requires { Top IsObject (running cells.old).stack }
    ensures top { MatchOption result ((running cells.old).stack ≡ cell.Null ∷ (running cells.new).stack)
        (λ o. (class : ℕ) × ((running cells.old).stack ≡
        cell.Object o.block o.offset class ∷ (running cells.new).stack)) }
    ensures rest { cells.new ≡ popped cells.old }
{
    match cells.pop() {
        Cell::Object { block, offset, .. } => Some(Start { block, offset }),
        Cell::Null => None,
        _ => unreachable!(),
    }
}

/// Takes an int off the stack.
#[inline(always)]
pub fn pop_int(cells: &mut Cells) -> i32
    requires { Top IsInt (running cells.old).stack }
    ensures top { (running cells.old).stack ≡ cell.Int result ∷ (running cells.new).stack }
    ensures rest { cells.new ≡ popped cells.old }
{
    match cells.pop() {
        Cell::Int(number) => number,
        _ => unreachable!(),
    }
}

/// An index of a row of so many: at least 0, and below their number.
#[inline(always)]
pub fn index_below(count: u16, index: i32) -> Result<u16, Trap>
    ensures index { as_stop result ≡ index_within count index }
    ensures below { IfOk result (λ i. i < count) }
{
    if index < 0 {
        return Err(Trap::OutOfRange);
    }
    let i = index as u32;
    if i < u32::from(count) {
        Ok(i as u16)
    } else {
        Err(Trap::OutOfRange)
    }
}

/// A number as an int.
#[inline(always)]
pub fn number_cell(number: u16) -> Cell
    ensures { result ≡ cell.Int (pos number) }
{
    Cell::Int(i32::from(number))
}
