//! Parts of slices, and what stands in them.
ghost use Rattle.std.specs.Prelude.{◌≡◌, ◌==◌, ◌+◌, ◌++◌, ◌≤◌, IfOk, drop, length, replicate, take, vec_len};
ghost use Rattle.std.specs.List.{list_any};

use crate::Memory;
use std::alloc::Global;

/// The first ones of a slice, this many; all where there are fewer.
pub fn front_of<T>(all: &[T], count: usize) -> &[T]
    ensures { result.now ≡ take count all.now }
{
    if count >= all.len() {
        return all;
    }
    &all[..count]
}

/// Whether a place is one of these.
pub fn is_among(places: &[usize], place: usize) -> bool
    ensures { result ≡ list_any (λ p. p == place) places.now }
{
    places.iter().any(|other| *other == place)
}

/// Puts bytes at a place of a slice, over those that stood there.
pub fn put_at(into: &mut [u8], at: usize, bytes: &[u8])
    requires { at + length bytes.now ≤ length into.old }
    ensures { into.new ≡ take at into.old ++ (bytes.now ++ drop (at + length bytes.now) into.old) }
{
    into[at..at + bytes.len()].copy_from_slice(bytes);
}

/// So many bytes of 0, in memory of their own.
pub fn zeros(alloc: Global, len: usize) -> Result<Vec<u8>, Memory>
    ensures bytes { IfOk result (λ bytes. bytes.items ≡ replicate len 0) }
    ensures len { IfOk result (λ bytes. vec_len bytes ≡ len) }
{
    Ok(vec![in alloc; 0; len]?)
}
