//! Constants, locals and the stack.
ghost use Rattle.std.specs.Prelude.{◌≡◌, Ok};
ghost use Rattle.scode_ops.specs.declared.op.Op.TheVariants as op;
ghost use Rattle.scode_code.specs.Steps.{effect};
ghost use Rattle.scode_vm.specs.Doings.{Does, MayDo};
ghost use Rattle.scode_vm.specs.Groups.{Locals, group_of};

use scode_cells::{Cell, Cells};
use scode_mem::Block;
use scode_ops::Op;
use sed_engine::Trap;

/// An int on the stack.
#[inline(always)]
pub fn push_int(number: i32, cells: &mut Cells)
    requires { MayDo (λ w. effect w (op.Int number)) cells.old }
    ensures { Does (λ w. effect w (op.Int number)) cells.old (Ok tt) cells.new }
{
    cells.push(Cell::Int(number));
}

/// A long on the stack.
#[inline(always)]
pub fn push_long(number: i64, cells: &mut Cells)
    requires { MayDo (λ w. effect w (op.Long number)) cells.old }
    ensures { Does (λ w. effect w (op.Long number)) cells.old (Ok tt) cells.new }
{
    cells.push(Cell::Long(number));
}

/// A truth value on the stack: 0 false, 1 true, 2 null.
#[inline(always)]
pub fn push_bool(truth: u8, cells: &mut Cells)
    requires { MayDo (λ w. effect w (op.Bool truth)) cells.old }
    ensures { Does (λ w. effect w (op.Bool truth)) cells.old (Ok tt) cells.new }
{
    cells.push(Cell::Bool(truth));
}

/// Null on the stack.
#[inline(always)]
pub fn push_null(cells: &mut Cells)
    requires { MayDo (λ w. effect w op.Null) cells.old }
    ensures { Does (λ w. effect w op.Null) cells.old (Ok tt) cells.new }
{
    cells.push(Cell::Null);
}

/// The text of a number on the stack.
#[inline(always)]
pub fn push_text(number: u16, cells: &mut Cells)
    requires { MayDo (λ w. effect w (op.Text number)) cells.old }
    ensures { Does (λ w. effect w (op.Text number)) cells.old (Ok tt) cells.new }
{
    cells.push(Cell::Text(number));
}

/// The static block on the stack.
#[tactic(auto, unfolding(crate::specs::Seen::spot_in))]
#[inline(always)]
pub fn push_statics(cells: &mut Cells)
    requires { MayDo (λ w. effect w op.Statics) cells.old }
    ensures { Does (λ w. effect w op.Statics) cells.old (Ok tt) cells.new }
{
    cells.push(Cell::Object {
        block: Block::Statics,
        offset: 0,
        class: 0xffff,
    });
}

/// A local on the stack.
#[inline(always)]
pub fn load(i: u8, cells: &mut Cells)
    requires { MayDo (λ w. effect w (op.Load i)) cells.old }
    ensures { Does (λ w. effect w (op.Load i)) cells.old (Ok tt) cells.new }
{
    cells.push(cells.load(usize::from(i)));
}

/// The top into a local.
#[inline(always)]
pub fn store(i: u8, cells: &mut Cells)
    requires { MayDo (λ w. effect w (op.Store i)) cells.old }
    ensures { Does (λ w. effect w (op.Store i)) cells.old (Ok tt) cells.new }
{
    let v = cells.pop();
    cells.store(usize::from(i), v);
}

/// The top twice.
#[inline(always)]
pub fn dup(cells: &mut Cells)
    requires { MayDo (λ w. effect w op.Dup) cells.old }
    ensures { Does (λ w. effect w op.Dup) cells.old (Ok tt) cells.new }
{
    cells.push(cells.top(0));
}

/// The top off the stack.
#[inline(always)]
pub fn pop(cells: &mut Cells)
    requires { MayDo (λ w. effect w op.Pop) cells.old }
    ensures { Does (λ w. effect w op.Pop) cells.old (Ok tt) cells.new }
{
    let _ = cells.pop();
}

/// Does an instruction on constants, locals or the stack.
#[inline(always)]
pub fn local_instruction(op: Op, cells: &mut Cells) -> Result<(), Trap>
    requires group { group_of op ≡ Locals }
    requires may { MayDo (λ w. effect w op) cells.old }
    ensures { Does (λ w. effect w op) cells.old result cells.new }
{
    match op {
        Op::Int(number) => {
            push_int(number, cells);
            Ok(())
        }
        Op::Long(number) => {
            push_long(number, cells);
            Ok(())
        }
        Op::Bool(truth) => {
            push_bool(truth, cells);
            Ok(())
        }
        Op::Null => {
            push_null(cells);
            Ok(())
        }
        Op::Text(number) => {
            push_text(number, cells);
            Ok(())
        }
        Op::Statics => {
            push_statics(cells);
            Ok(())
        }
        Op::Load(i) => {
            load(i, cells);
            Ok(())
        }
        Op::Store(i) => {
            store(i, cells);
            Ok(())
        }
        Op::Dup => {
            dup(cells);
            Ok(())
        }
        Op::Pop => {
            pop(cells);
            Ok(())
        }
        _ => unreachable!(),
    }
}
