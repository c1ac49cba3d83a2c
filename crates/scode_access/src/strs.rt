//! Strs, and texts that are read as Strs.
ghost use Rattle.std.specs.Prelude.{◌≡◌, ◌∷◌, [], List, Some, ℕ, length, pos, slice_get, slice_index};
ghost use Rattle.std.specs.Str.{bytes_eq};
ghost use Rattle.sed_typed.specs.declared.operators.TextCall.TheVariants as calls;
ghost use Rattle.sed_engine.specs.Stops.{map_ok};
ghost use Rattle.sed_engine.specs.Texts.{characters as characters_of, index_within};
ghost use Rattle.scode_cells.specs.declared.cell.Cell.TheVariants as cell;
ghost use Rattle.scode_code.specs.Calls.{str_equal, str_get, str_length};
ghost use Rattle.scode_vm.specs.Doings.{as_stop};
ghost use Rattle.scode_vm.specs.Tops.{truth_cell};
ghost use Rattle.scode_access.specs.Strs.{Calls, MayCall, MayRead, Reads, as_text};
ghost use Rattle.scode_access.specs.Tops.{IsText};
ghost use Rattle.scode_access.specs.Within.{DoesIn, MayDoIn};

use crate::laws::strs_are_found;
use crate::objects::{index_below, number_cell, pop_int};
use scode_cells::{Cell, Cells};
use scode_image::Image;
use scode_mem::Pool;
use scode_state::read_str;
use sed_engine::{Trap, characters};
use sed_typed::Bytes255;

// A text of an image, by its number.
fn text_at(image: &Image, number: u16) -> Bytes255
    requires { (text : List ℕ) × (slice_get image.now.texts number ≡ Some text) }
    ensures { slice_get image.now.texts number ≡ Some result }
{
    image.texts.as_slice()[usize::from(number)]
}

/// The bytes of a Str, or the characters of a text. Null traps.
pub fn text_of(v: Cell, image: &Image, pool: &Pool) -> Result<Bytes255, Trap>
    requires kind { IsText v }
    requires may { MayRead image.now v pool.now }
    ensures { Reads image.now v pool.now result }
{
    strs_are_found();
    match v {
        Cell::Str {
            block,
            offset,
            size,
        } => Ok(read_str(pool, block, offset, size)),
        Cell::Text(number) => Ok(text_at(image, number)),
        Cell::Null => Err(Trap::NullReference),
        _ => unreachable!(),
    }
}

/// How many characters a Str has. Null traps.
pub fn length_of_str(image: &Image, cells: &mut Cells, pool: &Pool) -> Result<(), Trap>
    requires { MayDoIn (λ w. str_length w) image.now cells.old pool.now }
    ensures { DoesIn (λ w. str_length w) image.now cells.old pool.now result cells.new pool.now }
{
    let v = cells.pop();
    match length_in(v, image, pool) {
        Ok(count) => {
            cells.push(count);
            Ok(())
        }
        Err(trap) => Err(trap),
    }
}

// How many characters a Str or a text has.
fn length_in(v: Cell, image: &Image, pool: &Pool) -> Result<Cell, Trap>
    requires { MayCall calls.Length v [] image.now pool.now }
    ensures { Calls calls.Length v [] image.now pool.now result }
{
    strs_are_found();
    match text_of(v, image, pool) {
        Ok(text) => Ok(number_cell(count_of(&text))),
        Err(trap) => Err(trap),
    }
}

// How many characters there are.
fn count_of(text: &Bytes255) -> u16
    ensures { result ≡ length (characters_of text.now) }
{
    characters(text.as_bytes()).len() as u16
}

/// The byte of a Str at an index, or of a text with a 0 behind it. Null traps, and then an index outside it.
pub fn get_character(image: &Image, cells: &mut Cells, pool: &Pool) -> Result<(), Trap>
    requires { MayDoIn (λ w. str_get w) image.now cells.old pool.now }
    ensures { DoesIn (λ w. str_get w) image.now cells.old pool.now result cells.new pool.now }
{
    let index = pop_int(cells);
    let v = cells.pop();
    match character_in(v, index, image, pool) {
        Ok(byte) => {
            cells.push(byte);
            Ok(())
        }
        Err(trap) => Err(trap),
    }
}

// The byte of a Str or a text at an index.
fn character_in(v: Cell, index: i32, image: &Image, pool: &Pool) -> Result<Cell, Trap>
    requires { MayCall calls.Get v (cell.Int index ∷ []) image.now pool.now }
    ensures { Calls calls.Get v (cell.Int index ∷ []) image.now pool.now result }
{
    strs_are_found();
    match text_of(v, image, pool) {
        Ok(text) => byte_of(v, &text, index),
        Err(trap) => Err(trap),
    }
}

// The byte at an index of what was read.
fn byte_of(v: Cell, text: &Bytes255, index: i32) -> Result<Cell, Trap>
    ensures { as_stop result ≡ map_ok (λ i. cell.Int (pos (slice_index (as_text v text.now) i)))
        (index_within (length (as_text v text.now)) index) }
{
    match index_below(length_as(v, text), index) {
        Ok(i) => Ok(number_cell(u16::from(byte_at(text.as_bytes(), i)))),
        Err(trap) => Err(trap),
    }
}

// How many bytes are read; a text ends by a 0.
fn length_as(v: Cell, text: &Bytes255) -> u16
    ensures { result ≡ length (as_text v text.now) }
{
    let count = text.as_bytes().len() as u16;
    match v {
        Cell::Text(_) => count + 1,
        _ => count,
    }
}

// A byte, and 0 past the last one.
fn byte_at(bytes: &[u8], i: u16) -> u8
    ensures { result ≡ slice_index bytes.now i }
{
    match bytes.get(usize::from(i)) {
        Some(byte) => *byte,
        None => 0,
    }
}

/// Whether the characters of two Strs are the same. Null traps.
pub fn equal_strs(image: &Image, cells: &mut Cells, pool: &Pool) -> Result<(), Trap>
    requires { MayDoIn (λ w. str_equal w) image.now cells.old pool.now }
    ensures { DoesIn (λ w. str_equal w) image.now cells.old pool.now result cells.new pool.now }
{
    let other = cells.pop();
    let v = cells.pop();
    match sameness_in(v, other, image, pool) {
        Ok(same) => {
            cells.push(same);
            Ok(())
        }
        Err(trap) => Err(trap),
    }
}

// Whether the characters of two Strs or texts are the same.
fn sameness_in(v: Cell, other: Cell, image: &Image, pool: &Pool) -> Result<Cell, Trap>
    requires { MayCall calls.Equals v (other ∷ []) image.now pool.now }
    ensures { Calls calls.Equals v (other ∷ []) image.now pool.now result }
{
    strs_are_found();
    match text_of(v, image, pool) {
        Ok(a) => match text_of(other, image, pool) {
            Ok(b) => Ok(sameness(a.as_bytes(), b.as_bytes())),
            Err(trap) => Err(trap),
        },
        Err(trap) => Err(trap),
    }
}

// Whether two have the same characters.
fn sameness(a: &[u8], b: &[u8]) -> Cell
    ensures { result ≡ truth_cell (bytes_eq (characters_of a.now) (characters_of b.now)) }
{
    if characters(a) == characters(b) {
        Cell::Bool(1)
    } else {
        Cell::Bool(0)
    }
}
