//! Runs of bytes in a block.
ghost use Rattle.std.specs.Prelude.{◌≡◌, ◌+◌, ◌<◌, ◌≤◌, ◌^◌, length, IfSome};
ghost use Rattle.scode_mem.specs.Blocks.{HasBytes, bytes_at, bytes_of, with_bytes};

use scode_mem::{Block, Pool};

/// Puts bytes of a block, from an offset on, into a slice that is as long.
pub fn read_run(pool: &Pool, b: Block, at: u16, into: &mut [u8])
    requires there { HasBytes pool.now b at (length into.old) }
    requires reach { at + length into.old < 2 ^ 16 }
    ensures { IfSome (bytes_of pool.now b) (λ bytes. into.new ≡ bytes_at bytes at (length into.old)) }
{
    for i in 0..into.len() {
        into[i] = pool.read(b, at + i as u16, 1) as u8;
    }
}

/// Puts bytes into a block, from an offset on. Nothing else changes.
pub fn write_run(pool: &mut Pool, b: Block, at: u16, bytes: &[u8])
    requires there { HasBytes pool.old b at (length bytes.now) }
    requires reach { at + length bytes.now < 2 ^ 16 }
    ensures { pool.new ≡ with_bytes pool.old b at bytes.now }
{
    for i in 0..bytes.len() {
        pool.write(b, at + i as u16, 1, u64::from(bytes[i]));
    }
}
