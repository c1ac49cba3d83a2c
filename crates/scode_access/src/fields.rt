//! Fields of objects and of the static block.
ghost use Rattle.std.specs.Prelude.{◌≡◌};
ghost use Rattle.scode_code.specs.Effect.{buf_get, buf_size, get, part, put};
ghost use Rattle.scode_code.specs.Steps.{effect};
ghost use Rattle.scode_vm.specs.Groups.{Fields, group_of};
ghost use Rattle.scode_access.specs.Within.{DoesIn, DoesInEach, MayDoIn, MayDoInSome};

use crate::laws::{fields_are_found, parts_are_led_to};
use crate::objects::{index_below, number_cell, pop_int, pop_object};
use scode_cells::{Cell, Cells};
use scode_image::Image;
use scode_mem::Pool;
use scode_ops::Op;
use scode_state::{buf_byte, buf_length, read_cell, write_cell};
use sed_engine::Trap;
use sed_value::Prim;

/// The value of a field of a type that stands so far from where its object begins. Null traps.
#[inline(always)]
pub fn get_field(p: Prim, at: u16, cells: &mut Cells, pool: &Pool) -> Result<(), Trap>
    requires { MayDoInSome (λ w. get w p at) cells.old pool.now }
    ensures { DoesInEach (λ w. get w p at) cells.old pool.now result cells.new pool.now }
{
    fields_are_found();
    match pop_object(cells) {
        Some(object) => {
            let place = object.offset + at;
            cells.push(read_cell(pool, object.block, place, p));
            Ok(())
        }
        None => Err(Trap::NullReference),
    }
}

/// Stores into a field: a byte keeps the low 8 bits of an int, and a short the low 16. Null traps.
#[inline(always)]
pub fn put_field(p: Prim, at: u16, cells: &mut Cells, pool: &mut Pool) -> Result<(), Trap>
    requires { MayDoInSome (λ w. put w p at) cells.old pool.old }
    ensures { DoesInEach (λ w. put w p at) cells.old pool.old result cells.new pool.new }
{
    fields_are_found();
    let v = cells.pop();
    match pop_object(cells) {
        Some(object) => {
            let place = object.offset + at;
            write_cell(pool, object.block, place, p, v);
            Ok(())
        }
        None => Err(Trap::NullReference),
    }
}

/// A reference to an object of a class that stands inside another. Null traps.
#[inline(always)]
pub fn object_inside(at: u16, class: u16, cells: &mut Cells, pool: &Pool) -> Result<(), Trap>
    requires { MayDoInSome (λ w. part w 8 at class) cells.old pool.now }
    ensures { DoesInEach (λ w. part w 8 at class) cells.old pool.now result cells.new pool.now }
{
    fields_are_found();
    parts_are_led_to();
    let _ = pool;
    match pop_object(cells) {
        Some(object) => {
            let place = object.offset + at;
            cells.push(Cell::Object {
                block: object.block,
                offset: place,
                class,
            });
            Ok(())
        }
        None => Err(Trap::NullReference),
    }
}

/// A reference to a Str of so many bytes that stands inside an object. Null traps.
#[inline(always)]
pub fn str_inside(at: u16, size: u16, cells: &mut Cells, pool: &Pool) -> Result<(), Trap>
    requires { MayDoInSome (λ w. part w 6 at size) cells.old pool.now }
    ensures { DoesInEach (λ w. part w 6 at size) cells.old pool.now result cells.new pool.now }
{
    fields_are_found();
    parts_are_led_to();
    let _ = pool;
    match pop_object(cells) {
        Some(object) => {
            let place = object.offset + at;
            let bytes = size as u8;
            cells.push(Cell::Str {
                block: object.block,
                offset: place,
                size: bytes,
            });
            Ok(())
        }
        None => Err(Trap::NullReference),
    }
}

/// How many bytes a Buf has. Null traps.
#[inline(always)]
pub fn size_of_buf(at: u16, cells: &mut Cells, pool: &Pool) -> Result<(), Trap>
    requires { MayDoInSome (λ w. buf_size w at) cells.old pool.now }
    ensures { DoesInEach (λ w. buf_size w at) cells.old pool.now result cells.new pool.now }
{
    fields_are_found();
    match pop_object(cells) {
        Some(object) => {
            let place = object.offset + at;
            let size = buf_length(pool, object.block, place);
            cells.push(number_cell(size));
            Ok(())
        }
        None => Err(Trap::NullReference),
    }
}

/// A byte of a Buf that has room for so many. Null traps, and then an index that is not below its length.
#[inline(always)]
pub fn byte_of_buf(at: u16, capacity: u16, cells: &mut Cells, pool: &Pool) -> Result<(), Trap>
    requires { MayDoInSome (λ w. buf_get w at capacity) cells.old pool.now }
    ensures { DoesInEach (λ w. buf_get w at capacity) cells.old pool.now result cells.new pool.now }
{
    fields_are_found();
    let _ = capacity;
    let index = pop_int(cells);
    match pop_object(cells) {
        Some(object) => {
            let place = object.offset + at;
            let size = buf_length(pool, object.block, place);
            match index_below(size, index) {
                Ok(i) => {
                    let byte = buf_byte(pool, object.block, place, i);
                    cells.push(number_cell(u16::from(byte)));
                    Ok(())
                }
                Err(trap) => Err(trap),
            }
        }
        None => Err(Trap::NullReference),
    }
}

/// Does an instruction on a field.
pub fn field_instruction(
    op: Op,
    image: &Image,
    cells: &mut Cells,
    pool: &mut Pool,
) -> Result<(), Trap>
    requires group { group_of op ≡ Fields }
    requires may { MayDoIn (λ w. effect w op) image.now cells.old pool.old }
    ensures { DoesIn (λ w. effect w op) image.now cells.old pool.old result cells.new pool.new }
{
    let _ = image;
    match op {
        Op::GetBool(at) => get_field(Prim::Bool, at, cells, pool),
        Op::GetByte(at) => get_field(Prim::Byte, at, cells, pool),
        Op::GetShort(at) => get_field(Prim::Short, at, cells, pool),
        Op::GetInt(at) => get_field(Prim::Int, at, cells, pool),
        Op::GetLong(at) => get_field(Prim::Long, at, cells, pool),
        Op::PutBool(at) => put_field(Prim::Bool, at, cells, pool),
        Op::PutByte(at) => put_field(Prim::Byte, at, cells, pool),
        Op::PutShort(at) => put_field(Prim::Short, at, cells, pool),
        Op::PutInt(at) => put_field(Prim::Int, at, cells, pool),
        Op::PutLong(at) => put_field(Prim::Long, at, cells, pool),
        Op::Inner { offset, class } => object_inside(offset, class, cells, pool),
        Op::Str { offset, size } => str_inside(offset, size, cells, pool),
        Op::BufSize(at) => size_of_buf(at, cells, pool),
        Op::BufGet { offset, capacity } => byte_of_buf(offset, capacity, cells, pool),
        _ => unreachable!(),
    }
}
