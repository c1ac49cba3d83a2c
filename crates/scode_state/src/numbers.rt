//! Reads and stores of primitives.
ghost use Rattle.std.specs.Int.{bytes_high_first};
ghost use Rattle.std.specs.Prelude.{◌≡◌, ◌<◌, ◌^◌, ℕ, List, IfOk, IfSome, IsSome, IsTrue, Ok, Some};
ghost use Rattle.sed_value.specs.Value.{is_of_type};
ghost use Rattle.sed_value.specs.declared.slot_type.SlotType.TheVariants as slot;
ghost use Rattle.sed_value.specs.SlotType.{width_of};
ghost use Rattle.sed_typed.specs.declared.program.FieldForm.TheVariants as form;
ghost use Rattle.sed_typed.specs.Contents.{Path, value_at};
ghost use Rattle.sed_wire.specs.Number.{number_of};
ghost use Rattle.sed_engine.specs.Stops.{and_then, there};
ghost use Rattle.sed_engine.specs.Values.{Base, read_as, stored_as};
ghost use Rattle.scode_image.specs.declared.image.Image.{Image as AnyImage};
ghost use Rattle.scode_code.specs.Contents.{primitive_at, primitive_from};
ghost use Rattle.scode_mem.specs.Blocks.{HasBytes, bytes_of, with_number};
ghost use Rattle.scode_state.specs.Cells.{number_for, plain_of, read_at, value_number};
ghost use Rattle.scode_state.specs.Stands.{IsStored, StandsAt, contents_in};

use scode_cells::Cell;
use scode_mem::{Block, Pool};
use sed_value::{Prim, Value, low_byte, low_short};

/// The primitive at an offset of a block as an expression reads it: byte and short are ints.
#[inline(always)]
pub fn read_cell(pool: &Pool, b: Block, at: u16, p: Prim) -> Cell
    requires { HasBytes pool.now b at (width_of p) }
    ensures bytes { IfSome (bytes_of pool.now b) (λ bytes.
        there (plain_of result) ≡ read_as (primitive_at p bytes at)) }
    ensures path { (image : AnyImage) (class : ℕ) (base : Base) (path : Path) →
        StandsAt image class base path pool.now b at (form.Prim p) →
        read_at (contents_in image class base pool.now b) path ≡ there (plain_of result) }
{
    cell_of(p, pool.read(b, at, p.width()))
}

// What a number in the bytes of a primitive is read as.
#[inline(always)]
fn cell_of(p: Prim, number: u64) -> Cell
    requires { number < 256 ^ width_of p }
    ensures { (bytes : List ℕ) → number ≡ number_of bytes → there (plain_of result) ≡ read_as (primitive_from p bytes) }
{
    match p {
        Prim::Bool => Cell::Bool(number as u8),
        Prim::Byte | Prim::Short => Cell::Int(number as i32),
        Prim::Int => Cell::Int((number as u32).cast_signed()),
        Prim::Long => Cell::Long(number.cast_signed()),
    }
}

/// Stores a cell of the kind that a primitive at an offset of a block wants, as an assignment does: a byte keeps the
/// low 8 bits of an int and a short the low 16. Nothing else changes.
#[inline(always)]
pub fn write_cell(pool: &mut Pool, b: Block, at: u16, p: Prim, v: Cell)
    requires there { HasBytes pool.old b at (width_of p) }
    requires kind { IsSome (number_for p v) }
    ensures bytes { IfSome (number_for p v) (λ number. pool.new ≡ with_number pool.old b at (width_of p) number) }
    ensures path { (image : AnyImage) (class : ℕ) (base : Base) (path : Path) →
        StandsAt image class base path pool.old b at (form.Prim p) →
        IfOk (and_then (there (plain_of v)) (stored_as p))
        (IsStored image class base path pool.old pool.new b) }
{
    pool.write(b, at, p.width(), kept_number(p, v));
}

// The number that is kept of a cell.
#[inline(always)]
fn kept_number(p: Prim, v: Cell) -> u64
    requires { IsSome (number_for p v) }
    ensures number { number_for p v ≡ Some result }
    ensures fits { result < 256 ^ width_of p }
    ensures again { and_then (there (plain_of v)) (stored_as p) ≡
        Ok (primitive_from p (bytes_high_first (width_of p) result)) }
{
    match (p, v) {
        (Prim::Bool, Cell::Bool(truth)) => u64::from(truth),
        (Prim::Byte, Cell::Int(n)) => u64::from(low_byte(n)),
        (Prim::Short, Cell::Int(n)) => u64::from(low_short(n)),
        (Prim::Int, Cell::Int(n)) => u64::from(n.cast_unsigned()),
        (Prim::Long, Cell::Long(n)) => n.cast_unsigned(),
        _ => 0,
    }
}

/// The value of a primitive at an offset of a block.
#[inline(always)]
pub fn read_value(pool: &Pool, b: Block, at: u16, p: Prim) -> Value
    requires { HasBytes pool.now b at (width_of p) }
    ensures bytes { IfSome (bytes_of pool.now b) (λ bytes. result ≡ primitive_at p bytes at) }
    ensures path { (image : AnyImage) (class : ℕ) (base : Base) (path : Path) →
        StandsAt image class base path pool.now b at (form.Prim p) →
        value_at (contents_in image class base pool.now b) path ≡ Some result }
{
    value_of(p, pool.read(b, at, p.width()))
}

// What a number in the bytes of a primitive stands for.
#[inline(always)]
fn value_of(p: Prim, number: u64) -> Value
    requires { number < 256 ^ width_of p }
    ensures { (bytes : List ℕ) → number ≡ number_of bytes → result ≡ primitive_from p bytes }
{
    match p {
        Prim::Bool => Value::Bool(number as u8),
        Prim::Byte => Value::Byte(number as u8),
        Prim::Short => Value::Short(number as u16),
        Prim::Int => Value::Int((number as u32).cast_signed()),
        Prim::Long => Value::Long(number.cast_signed()),
    }
}

/// Stores a value of the type of a primitive at an offset of a block. Nothing else changes.
#[inline(always)]
pub fn write_value(pool: &mut Pool, b: Block, at: u16, p: Prim, v: &Value)
    requires there { HasBytes pool.old b at (width_of p) }
    requires kind { IsTrue (is_of_type (slot.Prim p) v.now) }
    ensures bytes { pool.new ≡ with_number pool.old b at (width_of p) (value_number v.now) }
    ensures path { (image : AnyImage) (class : ℕ) (base : Base) (path : Path) →
        StandsAt image class base path pool.old b at (form.Prim p) →
        IsStored image class base path pool.old pool.new b v.now }
{
    pool.write(b, at, p.width(), number_of_value(v));
}

// The number that a value is kept as.
#[inline(always)]
fn number_of_value(v: &Value) -> u64
    ensures { result ≡ value_number v.now }
{
    match v {
        Value::Bool(truth) => u64::from(*truth),
        Value::Byte(n) => u64::from(*n),
        Value::Short(n) => u64::from(*n),
        Value::Int(n) => u64::from(n.cast_unsigned()),
        Value::Long(n) => n.cast_unsigned(),
        _ => 0,
    }
}
