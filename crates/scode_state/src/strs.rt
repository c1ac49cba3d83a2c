//! Reads and stores of Strs.
ghost use Rattle.std.specs.Prelude.{◌≡◌, ◌+◌, ◌-◌, ◌<◌, ◌≤◌, ◌^◌, ℕ, IfSome, Some, List, [], ◌∷◌};
ghost use Rattle.std.specs.Int.{w8};
ghost use Rattle.sed_value.specs.Wrap.{low_bits};
ghost use Rattle.sed_value.specs.declared.value.Value.TheVariants as kept;
ghost use Rattle.sed_typed.specs.declared.program.FieldForm.TheVariants as form;
ghost use Rattle.sed_typed.specs.Contents.{Path, value_at};
ghost use Rattle.sed_engine.specs.Texts.{filled as filled_with, with_character};
ghost use Rattle.sed_engine.specs.Values.{Base};
ghost use Rattle.scode_image.specs.declared.image.Image.{Image as AnyImage};
ghost use Rattle.scode_mem.specs.Blocks.{HasBytes, bytes_at, bytes_of, with_bytes};
ghost use Rattle.scode_state.specs.Stands.{IsStored, StandsAt, contents_in};

use crate::runs::{read_run, write_run};
use scode_mem::{Block, Pool};
use sed_engine::filled;
use sed_typed::{Bytes255, LONGEST_TEXT};
use sed_value::low_byte;

/// The bytes of a Str, of which there are so many from an offset of a block on.
pub fn read_str(pool: &Pool, b: Block, at: u16, size: u8) -> Bytes255
    requires there { HasBytes pool.now b at size }
    requires reach { at + size < 2 ^ 16 }
    ensures bytes { IfSome (bytes_of pool.now b) (λ bytes. result ≡ bytes_at bytes at size) }
    ensures path { (image : AnyImage) (class : ℕ) (base : Base) (path : Path) →
        StandsAt image class base path pool.now b at (form.Str size) →
        value_at (contents_in image class base pool.now b) path ≡ Some (kept.Buf result) }
{
    let mut all = [0; LONGEST_TEXT];
    let bytes = &mut all[..usize::from(size)];
    read_run(pool, b, at, bytes);
    Bytes255::new(bytes)
}

/// Puts characters into a Str of so many bytes, at most one less than these, and then zeros. Nothing else changes. So
/// they may be those of the Str itself.
pub fn fill_str(pool: &mut Pool, b: Block, at: u16, size: u8, text: &[u8])
    requires some { 1 ≤ size }
    requires there { HasBytes pool.old b at size }
    requires reach { at + size < 2 ^ 16 }
    ensures bytes { pool.new ≡ with_bytes pool.old b at (filled_with size text.now) }
    ensures path { (image : AnyImage) (class : ℕ) (base : Base) (path : Path) →
        StandsAt image class base path pool.old b at (form.Str size) →
        IsStored image class base path pool.old pool.new b (kept.Buf (filled_with size text.now)) }
{
    write_run(pool, b, at, filled(usize::from(size), text).as_bytes());
}

/// Puts the low 8 bits of a number into a Str of so many bytes, at an index. Nothing else changes.
pub fn set_character(pool: &mut Pool, b: Block, at: u16, size: u8, i: u8, c: i32)
    requires within { i < size }
    requires there { HasBytes pool.old b at size }
    requires reach { at + size < 2 ^ 16 }
    ensures bytes { pool.new ≡ with_bytes pool.old b (at + i) (low_bits w8 c ∷ []) }
    ensures path { (image : AnyImage) (class : ℕ) (base : Base) (path : Path) (bytes : List ℕ) →
        StandsAt image class base path pool.old b at (form.Str size) → bytes_of pool.old b ≡ Some bytes →
        IsStored image class base path pool.old pool.new b
        (kept.Buf (with_character (bytes_at bytes at size) i c)) }
{
    pool.write(b, at + u16::from(i), 1, u64::from(low_byte(c)));
}
