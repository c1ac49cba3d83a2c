//! What a new pool begins with.
ghost use Rattle.std.specs.Prelude.{◌≡◌, ◌≤◌, IfOk, map, length};
ghost use Rattle.std.specs.Vec.{vec_capacity, vec_len};
ghost use Rattle.scode_mem.specs.Kept.{ArePlaces};

use crate::entry::Entry;
use scode_image::Image;
use sed_value::limits::MOST_COMPONENTS;
use sed_value::{Items, Memory};
use std::alloc::Global;

/// The first bytes of each class of an image.
pub fn first_bytes(alloc: Global, image: &Image) -> Result<Vec<Items<u8>>, Memory>
    ensures { IfOk result (λ v. v.items ≡ map (λ c. c.contents) image.now.classes) }
{
    let mut firsts = Vec::with_capacity(alloc, image.classes.len())?;
    for class in image.classes.as_slice() {
        firsts.push(Items::new(Vec::from_slice(alloc, class.contents.as_slice())?))?;
    }
    Ok(firsts)
}

/// So many bytes.
pub fn some_bytes(alloc: Global, count: usize) -> Result<Vec<u8>, Memory>
    ensures { IfOk result (λ v. vec_len v ≡ count) }
{
    let mut bytes = Vec::new(alloc);
    bytes.resize(count, 0)?;
    Ok(bytes)
}

/// All places.
pub fn all_places(alloc: Global) -> Result<Vec<u16>, Memory>
    ensures places { IfOk result (λ v. ArePlaces v.items) }
    ensures room { IfOk result (λ v. 4096 ≤ vec_capacity v) }
{
    let mut places = Vec::with_capacity(alloc, MOST_COMPONENTS)?;
    for place in 0..MOST_COMPONENTS {
        places.push_reserved(place as u16);
    }
    Ok(places)
}

/// An entry for each place.
pub fn empty_directory(alloc: Global) -> Result<Vec<Entry>, Memory>
    ensures { IfOk result (λ v. vec_len v ≡ 4096) }
{
    let mut directory = Vec::new(alloc);
    directory.resize(
        MOST_COMPONENTS,
        Entry {
            offset: 0,
            class: 0,
        },
    )?;
    Ok(directory)
}
