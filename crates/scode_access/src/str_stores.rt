//! Stores into Strs, and each instruction on Strs.
ghost use Rattle.std.specs.Prelude.{◌≡◌};
ghost use Rattle.scode_code.specs.Calls.{str_copy, str_set};
ghost use Rattle.scode_code.specs.Steps.{effect};
ghost use Rattle.scode_vm.specs.Groups.{Strs, group_of};
ghost use Rattle.scode_access.specs.StrStores.{StrsHoldBytes};
ghost use Rattle.scode_access.specs.Within.{DoesIn, DoesInEach, MayDoIn, MayDoInSome};

use crate::laws::{parts_are_led_to, strs_are_found};
use crate::objects::{index_below, pop_int};
use crate::strs::{equal_strs, get_character, length_of_str, text_of};
use scode_cells::{Cell, Cells};
use scode_image::Image;
use scode_mem::Pool;
use scode_ops::Op;
use scode_state::{fill_str, parts_are_read, set_character};
use sed_engine::{Trap, characters};

// Where a Str stands, its block has its bytes, and they are what is read there.
fn strs_hold_bytes()
    ensures { StrsHoldBytes }
{
    parts_are_read();
}

/// Stores the low 8 bits of an int into a Str at an index, before its last byte. Null traps; then a text, or an index
/// outside.
pub fn put_character(cells: &mut Cells, pool: &mut Pool) -> Result<(), Trap>
    requires { MayDoInSome (λ w. str_set w) cells.old pool.old }
    ensures { DoesInEach (λ w. str_set w) cells.old pool.old result cells.new pool.new }
{
    strs_are_found();
    parts_are_led_to();
    strs_hold_bytes();
    let character = pop_int(cells);
    let index = pop_int(cells);
    let into = cells.pop();
    match into {
        Cell::Str {
            block,
            offset,
            size,
        } => match index_below(u16::from(size - 1), index) {
            Ok(i) => {
                set_character(pool, block, offset, size, i as u8, character);
                Ok(())
            }
            Err(trap) => Err(trap),
        },
        Cell::Text(_) => Err(Trap::OutOfRange),
        Cell::Null => Err(Trap::NullReference),
        _ => unreachable!(),
    }
}

/// Puts the characters of a Str into another, as many as it has room for beside a 0, and fills it with zeros. They may
/// be one Str: its bytes are read before any is written. Null traps, and then a text that is to change.
pub fn copy_str(image: &Image, cells: &mut Cells, pool: &mut Pool) -> Result<(), Trap>
    requires { MayDoIn (λ w. str_copy w) image.now cells.old pool.old }
    ensures { DoesIn (λ w. str_copy w) image.now cells.old pool.old result cells.new pool.new }
{
    strs_are_found();
    parts_are_led_to();
    strs_hold_bytes();
    let from = cells.pop();
    let into = cells.pop();
    match into {
        Cell::Str {
            block,
            offset,
            size,
        } => match text_of(from, image, pool) {
            Ok(text) => {
                fill_str(pool, block, offset, size, characters(text.as_bytes()));
                Ok(())
            }
            Err(trap) => Err(trap),
        },
        Cell::Text(_) => match text_of(from, image, pool) {
            Ok(_) => Err(Trap::OutOfRange),
            Err(trap) => Err(trap),
        },
        Cell::Null => Err(Trap::NullReference),
        _ => unreachable!(),
    }
}

/// Does an instruction on a Str.
pub fn str_instruction(
    op: Op,
    image: &Image,
    cells: &mut Cells,
    pool: &mut Pool,
) -> Result<(), Trap>
    requires group { group_of op ≡ Strs }
    requires may { MayDoIn (λ w. effect w op) image.now cells.old pool.old }
    ensures { DoesIn (λ w. effect w op) image.now cells.old pool.old result cells.new pool.new }
{
    match op {
        Op::StrLen => length_of_str(image, cells, pool),
        Op::StrGet => get_character(image, cells, pool),
        Op::StrSet => put_character(cells, pool),
        Op::StrEq => equal_strs(image, cells, pool),
        Op::StrCopy => copy_str(image, cells, pool),
        _ => unreachable!(),
    }
}
