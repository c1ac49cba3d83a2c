//! Elements of arrays.
ghost use Rattle.std.specs.Prelude.{◌≡◌, ◌+◌, ◌*◌, ◌<◌, ◌^◌};
ghost use Rattle.sed_value.specs.SlotType.{width_of};
ghost use Rattle.scode_code.specs.Effect.{array_get, array_put};
ghost use Rattle.scode_code.specs.Steps.{effect};
ghost use Rattle.scode_vm.specs.Groups.{Arrays, group_of};
ghost use Rattle.scode_access.specs.Within.{DoesIn, DoesInEach, MayDoIn, MayDoInSome};

use crate::laws::fields_are_found;
use crate::objects::{index_below, pop_int, pop_object};
use scode_cells::Cells;
use scode_image::Image;
use scode_mem::Pool;
use scode_ops::Op;
use scode_state::{read_cell, write_cell};
use sed_engine::Trap;
use sed_value::Prim;

/// An element of an array of so many of a type, which begins so far from where its object does. Null traps, and then an
/// index that is not below their number.
#[inline(always)]
pub fn get_element(p: Prim, at: u16, count: u16, cells: &mut Cells, pool: &Pool) -> Result<(), Trap>
    requires { MayDoInSome (λ w. array_get w p at count) cells.old pool.now }
    ensures { DoesInEach (λ w. array_get w p at count) cells.old pool.now result cells.new pool.now }
{
    fields_are_found();
    let index = pop_int(cells);
    match pop_object(cells) {
        Some(object) => match index_below(count, index) {
            Ok(i) => {
                let place = element_place(object.offset, at, i, p);
                cells.push(read_cell(pool, object.block, place, p));
                Ok(())
            }
            Err(trap) => Err(trap),
        },
        None => Err(Trap::NullReference),
    }
}

// Where an element stands, of an array that begins so far from where its object does.
#[inline(always)]
fn element_place(start: u16, at: u16, i: u16, p: Prim) -> u16
    requires { start + at + i * width_of p < 2 ^ 16 }
    ensures { result ≡ start + at + i * width_of p }
{
    start + at + i * u16::from(p.width())
}

/// Stores into an element of an array. Null traps, and then an index that is not below their number.
#[inline(always)]
pub fn put_element(
    p: Prim,
    at: u16,
    count: u16,
    cells: &mut Cells,
    pool: &mut Pool,
) -> Result<(), Trap>
    requires { MayDoInSome (λ w. array_put w p at count) cells.old pool.old }
    ensures { DoesInEach (λ w. array_put w p at count) cells.old pool.old result cells.new pool.new }
{
    fields_are_found();
    let v = cells.pop();
    let index = pop_int(cells);
    match pop_object(cells) {
        Some(object) => match index_below(count, index) {
            Ok(i) => {
                let place = element_place(object.offset, at, i, p);
                write_cell(pool, object.block, place, p, v);
                Ok(())
            }
            Err(trap) => Err(trap),
        },
        None => Err(Trap::NullReference),
    }
}

/// Does an instruction on an array.
pub fn array_instruction(
    op: Op,
    image: &Image,
    cells: &mut Cells,
    pool: &mut Pool,
) -> Result<(), Trap>
    requires group { group_of op ≡ Arrays }
    requires may { MayDoIn (λ w. effect w op) image.now cells.old pool.old }
    ensures { DoesIn (λ w. effect w op) image.now cells.old pool.old result cells.new pool.new }
{
    let _ = image;
    match op {
        Op::ArrayGetBool { offset, count } => get_element(Prim::Bool, offset, count, cells, pool),
        Op::ArrayGetByte { offset, count } => get_element(Prim::Byte, offset, count, cells, pool),
        Op::ArrayGetShort { offset, count } => get_element(Prim::Short, offset, count, cells, pool),
        Op::ArrayGetInt { offset, count } => get_element(Prim::Int, offset, count, cells, pool),
        Op::ArrayGetLong { offset, count } => get_element(Prim::Long, offset, count, cells, pool),
        Op::ArrayPutBool { offset, count } => put_element(Prim::Bool, offset, count, cells, pool),
        Op::ArrayPutByte { offset, count } => put_element(Prim::Byte, offset, count, cells, pool),
        Op::ArrayPutShort { offset, count } => put_element(Prim::Short, offset, count, cells, pool),
        Op::ArrayPutInt { offset, count } => put_element(Prim::Int, offset, count, cells, pool),
        Op::ArrayPutLong { offset, count } => put_element(Prim::Long, offset, count, cells, pool),
        _ => unreachable!(),
    }
}
