//! Reads and stores of Bufs: two bytes say how many bytes one has, and these follow.
ghost use Rattle.std.specs.Prelude.{◌≡◌, ◌+◌, ◌<◌, ◌≤◌, ◌^◌, ◌++◌, ℕ, IfSome, Some, List, length, slice_index};
ghost use Rattle.std.specs.Int.{bytes_high_first};
ghost use Rattle.sed_value.specs.declared.value.Value.TheVariants as kept;
ghost use Rattle.sed_typed.specs.declared.program.FieldForm.TheVariants as form;
ghost use Rattle.sed_typed.specs.Contents.{Path, value_at};
ghost use Rattle.sed_wire.specs.Number.{number_of};
ghost use Rattle.sed_engine.specs.Values.{Base};
ghost use Rattle.scode_image.specs.declared.image.Image.{Image as AnyImage};
ghost use Rattle.scode_code.specs.Contents.{buf_at};
ghost use Rattle.scode_mem.specs.Blocks.{HasBytes, bytes_at, bytes_of, with_bytes};
ghost use Rattle.scode_state.specs.Stands.{HasBuf, IsStored, StandsAt, contents_in};

use crate::runs::{read_run, write_run};
use scode_mem::{Block, Pool};
use sed_value::{Bytes, InPlace, LONGEST_BUFFER};

/// How many bytes a Buf at an offset of a block has.
pub fn buf_length(pool: &Pool, b: Block, at: u16) -> u16
    requires { HasBytes pool.now b at 2 }
    ensures bytes { IfSome (bytes_of pool.now b) (λ bytes. result ≡ number_of (bytes_at bytes at 2)) }
    ensures path { (image : AnyImage) (class : ℕ) (base : Base) (path : Path) (n : ℕ) (bytes : List ℕ) →
        StandsAt image class base path pool.now b at (form.Buf n) →
        value_at (contents_in image class base pool.now b) path ≡ Some (kept.Buf bytes) → result ≡ length bytes }
{
    pool.read(b, at, 2) as u16
}

/// A byte of a Buf at an offset of a block.
pub fn buf_byte(pool: &Pool, b: Block, at: u16, i: u16) -> u8
    requires there { HasBytes pool.now b (at + 2 + i) 1 }
    requires reach { at + 2 + i < 2 ^ 16 }
    ensures bytes { IfSome (bytes_of pool.now b) (λ bytes. result ≡ number_of (bytes_at bytes (at + 2 + i) 1)) }
    ensures path { (image : AnyImage) (class : ℕ) (base : Base) (path : Path) (n : ℕ) (bytes : List ℕ) →
        StandsAt image class base path pool.now b at (form.Buf n) →
        value_at (contents_in image class base pool.now b) path ≡ Some (kept.Buf bytes) → i < length bytes →
        result ≡ slice_index bytes i }
{
    pool.read(b, at + 2 + i, 1) as u8
}

/// The bytes of a Buf at an offset of a block, which has at most so many.
pub fn read_buf(pool: &Pool, b: Block, at: u16, most: u8) -> Bytes
    requires few { most ≤ 128 }
    requires there { HasBuf pool.now b at most }
    requires reach { at + 2 + most < 2 ^ 16 }
    ensures bytes { IfSome (bytes_of pool.now b) (λ bytes. kept.Buf result ≡ buf_at bytes at) }
    ensures path { (image : AnyImage) (class : ℕ) (base : Base) (path : Path) (n : ℕ) →
        StandsAt image class base path pool.now b at (form.Buf n) →
        value_at (contents_in image class base pool.now b) path ≡ Some (kept.Buf result) }
{
    let mut all = [0; LONGEST_BUFFER];
    let count = buf_length(pool, b, at);
    let bytes = &mut all[..usize::from(count)];
    read_run(pool, b, at + 2, bytes);
    InPlace::new(bytes)
}

/// Puts bytes into a Buf at an offset of a block. What stood behind them stays, as does all else.
pub fn write_buf(pool: &mut Pool, b: Block, at: u16, bytes: &[u8])
    requires few { length bytes.now ≤ 128 }
    requires there { HasBytes pool.old b at (2 + length bytes.now) }
    requires reach { at + 2 + length bytes.now < 2 ^ 16 }
    ensures bytes { pool.new ≡
        with_bytes pool.old b at (bytes_high_first 2 (length bytes.now) ++ bytes.now) }
    ensures path { (image : AnyImage) (class : ℕ) (base : Base) (path : Path) (n : ℕ) → length bytes.now ≤ n →
        StandsAt image class base path pool.old b at (form.Buf n) →
        IsStored image class base path pool.old pool.new b (kept.Buf bytes.now) }
{
    pool.write(b, at, 2, bytes.len() as u64);
    write_run(pool, b, at + 2, bytes);
}
