//! Comparisons.
ghost use Rattle.std.specs.Prelude.{◌≡◌, ◌↔◌, IsTrue, Ok};
ghost use Rattle.sed_typed.specs.declared.operators.Binary.TheVariants.{OtherReference, OtherTruth};
ghost use Rattle.sed_typed.specs.declared.operators.Binary.TheVariants.{SameReference, SameTruth};
ghost use Rattle.sed_typed.specs.declared.operators.Width.TheVariants.{Int as IntWidth, Long as LongWidth};
ghost use Rattle.sed_engine.specs.Operators.{compared};
ghost use Rattle.scode_code.specs.Effect.{compares, of_two};
ghost use Rattle.scode_code.specs.Steps.{effect};
ghost use Rattle.scode_vm.specs.Doings.{Does, MayDo};
ghost use Rattle.scode_vm.specs.Groups.{Comparisons, group_of};

use crate::tops::{bool_cell, pop_bools, pop_ints, pop_longs};
use scode_cells::{Cell, Cells};
use scode_code::references_lead_to_their_places;
use scode_ops::Op;
use sed_engine::Trap;
use sed_typed::Comparison;

/// Whether a comparison of two ints holds.
#[inline(always)]
pub fn compare_ints(op: Comparison, cells: &mut Cells)
    requires { MayDo (λ w. compares op IntWidth) cells.old }
    ensures { Does (λ w. compares op IntWidth) cells.old (Ok tt) cells.new }
{
    let (a, b) = pop_ints(cells);
    cells.push(bool_cell(is_so(op, i64::from(a), i64::from(b))));
}

/// Whether a comparison of two longs holds.
#[inline(always)]
pub fn compare_longs(op: Comparison, cells: &mut Cells)
    requires { MayDo (λ w. compares op LongWidth) cells.old }
    ensures { Does (λ w. compares op LongWidth) cells.old (Ok tt) cells.new }
{
    let (a, b) = pop_longs(cells);
    cells.push(bool_cell(is_so(op, a, b)));
}

// Whether a comparison holds.
#[inline(always)]
fn is_so(op: Comparison, a: i64, b: i64) -> bool
    ensures { result ≡ compared op a b }
{
    match op {
        Comparison::Equal => a == b,
        Comparison::NotEqual => a != b,
        Comparison::Less => a < b,
        Comparison::LessOrEqual => a <= b,
        Comparison::Greater => a > b,
        Comparison::GreaterOrEqual => a >= b,
    }
}

/// Whether two truth values are the same.
#[inline(always)]
pub fn same_bools(cells: &mut Cells)
    requires { MayDo (λ w. of_two SameTruth) cells.old }
    ensures { Does (λ w. of_two SameTruth) cells.old (Ok tt) cells.new }
{
    let (a, b) = pop_bools(cells);
    cells.push(bool_cell(a == b));
}

/// Whether two truth values differ.
#[inline(always)]
pub fn other_bools(cells: &mut Cells)
    requires { MayDo (λ w. of_two OtherTruth) cells.old }
    ensures { Does (λ w. of_two OtherTruth) cells.old (Ok tt) cells.new }
{
    let (a, b) = pop_bools(cells);
    cells.push(bool_cell(a != b));
}

/// Whether two references are the same: both null, one object, one Str, or one text.
#[inline(always)]
pub fn same_references(cells: &mut Cells)
    requires { MayDo (λ w. of_two SameReference) cells.old }
    ensures { Does (λ w. of_two SameReference) cells.old (Ok tt) cells.new }
{
    references_lead_to_their_places();
    let b = cells.pop();
    let a = cells.pop();
    cells.push(bool_cell(is_same(a, b)));
}

/// Whether two references differ.
#[inline(always)]
pub fn other_references(cells: &mut Cells)
    requires { MayDo (λ w. of_two OtherReference) cells.old }
    ensures { Does (λ w. of_two OtherReference) cells.old (Ok tt) cells.new }
{
    references_lead_to_their_places();
    let b = cells.pop();
    let a = cells.pop();
    cells.push(bool_cell(!is_same(a, b)));
}

// Whether two cells are one.
#[inline(always)]
fn is_same(a: Cell, b: Cell) -> bool
    ensures { IsTrue result ↔ (a ≡ b) }
{
    a == b
}

/// Does a comparison.
#[inline(always)]
pub fn comparison_instruction(op: Op, cells: &mut Cells) -> Result<(), Trap>
    requires group { group_of op ≡ Comparisons }
    requires may { MayDo (λ w. effect w op) cells.old }
    ensures { Does (λ w. effect w op) cells.old result cells.new }
{
    match op {
        Op::IntEq => {
            compare_ints(Comparison::Equal, cells);
            Ok(())
        }
        Op::IntNe => {
            compare_ints(Comparison::NotEqual, cells);
            Ok(())
        }
        Op::IntLt => {
            compare_ints(Comparison::Less, cells);
            Ok(())
        }
        Op::IntLe => {
            compare_ints(Comparison::LessOrEqual, cells);
            Ok(())
        }
        Op::IntGt => {
            compare_ints(Comparison::Greater, cells);
            Ok(())
        }
        Op::IntGe => {
            compare_ints(Comparison::GreaterOrEqual, cells);
            Ok(())
        }
        Op::LongEq => {
            compare_longs(Comparison::Equal, cells);
            Ok(())
        }
        Op::LongNe => {
            compare_longs(Comparison::NotEqual, cells);
            Ok(())
        }
        Op::LongLt => {
            compare_longs(Comparison::Less, cells);
            Ok(())
        }
        Op::LongLe => {
            compare_longs(Comparison::LessOrEqual, cells);
            Ok(())
        }
        Op::LongGt => {
            compare_longs(Comparison::Greater, cells);
            Ok(())
        }
        Op::LongGe => {
            compare_longs(Comparison::GreaterOrEqual, cells);
            Ok(())
        }
        Op::BoolEq => {
            same_bools(cells);
            Ok(())
        }
        Op::BoolNe => {
            other_bools(cells);
            Ok(())
        }
        Op::RefEq => {
            same_references(cells);
            Ok(())
        }
        Op::RefNe => {
            other_references(cells);
            Ok(())
        }
        _ => unreachable!(),
    }
}
