//! Blocks among all bytes: how a new one is put, and how all move to the front.
ghost use Rattle.std.specs.Prelude.{◌≡◌, ◌≢◌, ◌+◌, ◌<◌, ◌≤◌, ◌^◌, [], length, slice_index_or, slice_set, sum_by};
ghost use Rattle.std.specs.Prelude.{All, AllPairs};
ghost use Rattle.scode_mem.specs.Blocks.{put_at};
ghost use Rattle.scode_mem.specs.Kept.{IsAdded, LieInOrder, MovesOnly, parts, size_at};

use crate::entry::Entry;
use sed_value::Items;

/// How many bytes a block of a class has.
pub fn size_of(firsts: &[Items<u8>], class: u16) -> usize
    requires { class < length firsts.now }
    ensures { result ≡ length (slice_index_or firsts.now class []) }
{
    firsts[usize::from(class)].len()
}

/// Moves the blocks of these places, which lie in this order, to the front, one behind another. Gives where the last
/// ends.
pub fn close_up(
    firsts: &[Items<u8>],
    bytes: &mut [u8],
    places: &[u16],
    directory: &mut [Entry],
) -> usize
    requires apart { AllPairs (λ a b. a ≢ b) places.now }
    requires within { All (λ place. place < length directory.old) places.now }
    requires lie { LieInOrder (parts firsts.now bytes.old directory.old) places.now (length bytes.old) }
    requires numbered { length bytes.old < 2 ^ 32 }
    ensures lie { LieInOrder (parts firsts.now bytes.new directory.new) places.now result }
    ensures moved { MovesOnly (parts firsts.now bytes.old directory.old) (parts firsts.now bytes.new directory.new)
        places.now }
    ensures end { result ≡ sum_by (size_at (parts firsts.now bytes.old directory.old)) places.now }
{
    let mut end = 0;
    for place in places {
        let entry = directory[usize::from(*place)];
        let size = size_of(firsts, entry.class);
        let start = entry.offset as usize;
        bytes.copy_within(start..start + size, end);
        directory[usize::from(*place)] = Entry {
            offset: end as u32,
            class: entry.class,
        };
        end += size;
    }
    end
}

/// Where a block of so many bytes finds room: behind the used part, or else behind the blocks of these places, which
/// lie in this order and are moved to the front. So it finds room wherever there are as many bytes as they and it have.
pub fn make_room(
    firsts: &[Items<u8>],
    bytes: &mut [u8],
    places: &[u16],
    directory: &mut [Entry],
    used: usize,
    size: usize,
) -> usize
    requires apart { AllPairs (λ a b. a ≢ b) places.now }
    requires within { All (λ place. place < length directory.old) places.now }
    requires lie { LieInOrder (parts firsts.now bytes.old directory.old) places.now used }
    requires filled { sum_by (size_at (parts firsts.now bytes.old directory.old)) places.now ≤ used }
    requires numbered { length bytes.old < 2 ^ 32 }
    ensures lie { LieInOrder (parts firsts.now bytes.new directory.new) places.now result }
    ensures moved { MovesOnly (parts firsts.now bytes.old directory.old) (parts firsts.now bytes.new directory.new)
        places.now }
    ensures filled { sum_by (size_at (parts firsts.now bytes.old directory.old)) places.now ≤ result }
    ensures room { sum_by (size_at (parts firsts.now bytes.old directory.old)) places.now + size ≤ length bytes.old →
        result + size ≤ length bytes.old }
{
    if size <= bytes.len() - used {
        return used;
    }
    close_up(firsts, bytes, places, directory)
}

/// Puts a block with the first bytes of its class. All other bytes and entries stay.
pub fn put_block(
    firsts: &[Items<u8>],
    bytes: &mut [u8],
    directory: &mut [Entry],
    place: u16,
    start: usize,
    class: u16,
)
    requires place { place < length directory.old }
    requires class { class < length firsts.now }
    requires there { start + length (slice_index_or firsts.now class []) ≤ length bytes.old }
    requires numbered { start < 2 ^ 32 }
    ensures bytes { bytes.new ≡ put_at bytes.old start (slice_index_or firsts.now class []) }
    ensures entry { directory.new ≡ slice_set directory.old place (record { offset = start; class = class }) }
{
    let first = firsts[usize::from(class)].as_slice();
    bytes[start..start + first.len()].copy_from_slice(first);
    directory[usize::from(place)] = Entry {
        offset: start as u32,
        class,
    };
}

/// Puts a block with the first bytes of its class behind those of these places, which lie in this order and move where
/// it finds no room else. Gives where it begins.
pub fn add_block(
    firsts: &[Items<u8>],
    bytes: &mut [u8],
    places: &[u16],
    directory: &mut [Entry],
    used: usize,
    place: u16,
    class: u16,
) -> usize
    requires apart { AllPairs (λ a b. a ≢ b) places.now }
    requires within { All (λ place. place < length directory.old) places.now }
    requires lie { LieInOrder (parts firsts.now bytes.old directory.old) places.now used }
    requires filled { sum_by (size_at (parts firsts.now bytes.old directory.old)) places.now ≤ used }
    requires numbered { length bytes.old < 2 ^ 32 }
    requires place { place < length directory.old }
    requires class { class < length firsts.now }
    requires fits { sum_by (size_at (parts firsts.now bytes.old directory.old)) places.now
        + length (slice_index_or firsts.now class []) ≤ length bytes.old }
    ensures { IsAdded (parts firsts.now bytes.old directory.old) (parts firsts.now bytes.new directory.new)
        places.now place class result }
{
    let size = size_of(firsts, class);
    let start = make_room(firsts, bytes, places, directory, used, size);
    put_block(firsts, bytes, directory, place, start, class);
    start
}
