//! The pool.
ghost use Rattle.std.specs.Prelude.{◌≡◌, ◌↔◌, ◌<◌, ◌+◌, ◌≤◌, ◌^◌, None, Contains, length, map, slice_index};
ghost use Rattle.std.specs.Prelude.{IfOk, IfSome, IsSome, OnErr};
ghost use Rattle.std.specs.FinMap as finite;
ghost use Rattle.sed_wire.specs.Number.{number_of};
ghost use Rattle.scode_mem.specs.Blocks.{AreSized, HasBytes, bytes_at, bytes_of, first_bytes, live_bytes};
ghost use Rattle.scode_mem.specs.Blocks.{with_new, with_number, without};

use crate::block::Block;
use crate::entry::Entry;
use crate::moves::{add_block, size_of};
use crate::number::{number_at, put_number};
use crate::start::{all_places, empty_directory, first_bytes as firsts_of, some_bytes};
use scode_image::Image;
use sed_engine::{AddRefusal, Place};
use sed_typed::TypeNo;
use sed_value::{Items, Memory};
use std::alloc::Global;
use std::marker::Model;

/// Live blocks by place, and the static block. Contracts see the first bytes of each class, the live blocks with their
/// classes and bytes, the bytes of the static block, and the limit.
#[derive(Drop)]
pub struct Pool {
    // The first bytes of each class.
    firsts: Vec<Items<u8>>,
    // As many as the limit says; those before `used` are blocks and what lies between them.
    bytes: Vec<u8>,
    used: usize,
    // The sizes of live blocks together.
    filled: usize,
    // All places: the live ones first, in the order of their blocks.
    places: Vec<u16>,
    count: usize,
    directory: Vec<Entry>,
    statics: Vec<u8>,
}

impl Model for Pool {
    ghost use Rattle.std.specs.Vec.{vec_capacity};
    ghost use Rattle.scode_mem.specs.Blocks.{Held};
    ghost use Rattle.scode_mem.specs.Kept.{IsKept, held_code, held_of, parts};

    ghost Value = { Held };

    ghost coded = { held_code };

    ghost view = { λ p. held_of (parts p.firsts.items p.bytes.items p.directory.items) p.places.items p.count
        p.statics.items };

    ghost invariant = { λ p. IsKept (parts p.firsts.items p.bytes.items p.directory.items) p.places.items
        (vec_capacity p.places) p.count p.used p.filled };
}

impl Pool {
    /// A pool without live blocks, its static block as it begins. Its live blocks may have so many bytes together. No
    /// other call takes memory.
    pub fn new(alloc: Global, image: &Image, limit: u32) -> Result<Pool, Memory>
        ensures firsts { IfOk result (λ p. p.firsts ≡ map (λ c. c.contents) image.now.classes) }
        ensures empty { IfOk result (λ p. p.live ≡ finite.empty) }
        ensures statics { IfOk result (λ p. p.statics ≡ image.now.static_bytes) }
        ensures limit { IfOk result (λ p. p.limit ≡ limit) }
    {
        Ok(Pool {
            firsts: firsts_of(alloc, image)?,
            bytes: some_bytes(alloc, limit as usize)?,
            used: 0,
            filled: 0,
            places: all_places(alloc)?,
            count: 0,
            directory: empty_directory(alloc)?,
            statics: Vec::from_slice(alloc, image.static_bytes.as_slice())?,
        })
    }

    /// How many bytes the live blocks may have together.
    pub fn limit(&self) -> usize
        ensures { result ≡ self.now.limit }
    {
        self.bytes.len()
    }

    /// One block more, with the first bytes of its class, at a place below 4,096 that was not live. `DataFull` comes
    /// exactly where the live blocks and it have more bytes than the limit, and changes nothing. No memory is wanted.
    pub fn add(&mut self, t: TypeNo) -> Result<Place, AddRefusal>
        requires class { t.0 < length self.old.firsts }
        requires few { finite.len self.old.live < 4096 }
        ensures place { IfOk result (λ p. p.0 < 4096) }
        ensures fresh { IfOk result (λ p. finite.get self.old.live p.0 ≡ None) }
        ensures added { IfOk result (λ p. self.new ≡ with_new self.old p.0 t.0) }
        ensures refused { OnErr result (self.new ≡ self.old) }
        ensures full { (result ≡ Err AddRefusal.DataFull) ↔
            (self.old.limit < live_bytes self.old.live + length (first_bytes self.old t.0)) }
        ensures memory { result ≡ Err AddRefusal.Memory → ⊥ }
    {
        let size = size_of(&self.firsts, t.0);
        if size > self.bytes.len() - self.filled {
            return Err(AddRefusal::DataFull);
        }
        let place = self.places[self.count];
        let start = add_block(
            &self.firsts,
            &mut self.bytes,
            &self.places[..self.count],
            &mut self.directory,
            self.used,
            place,
            t.0,
        );
        self.count += 1;
        self.used = start + size;
        self.filled += size;
        Ok(Place(u32::from(place)))
    }

    /// Ends a block. All others stay.
    pub fn remove(&mut self, p: Place)
        requires { IsSome (finite.get self.old.live p.0) }
        ensures { self.new ≡ without self.old p.0 }
    {
        let size = size_of(&self.firsts, self.directory[p.0 as usize].class);
        let k = index_of(&self.places[..self.count], p.0);
        let place = self.places.remove(k);
        self.places.push_reserved(place);
        self.count -= 1;
        self.filled -= size;
    }

    /// Each live block is of a class, and has as many bytes as its class begins with. This does nothing.
    pub fn blocks_are_sized(&self)
        ensures { AreSized self.now }
    {
        let _ = &self.count;
    }

    /// The class of a live block.
    pub fn kind(&self, p: Place) -> TypeNo
        requires { IsSome (finite.get self.now.live p.0) }
        ensures { IfSome (finite.get self.now.live p.0) (λ b. result.0 ≡ b.class) }
    {
        TypeNo(self.directory[p.0 as usize].class)
    }

    /// The number in 1 to 8 bytes of a block from an offset on, the highest first.
    #[inline(always)]
    pub fn read(&self, b: Block, at: u16, width: u8) -> u64
        requires some { 1 ≤ width }
        requires most { width ≤ 8 }
        requires there { HasBytes self.now b at width }
        ensures number { IfSome (bytes_of self.now b) (λ bytes. result ≡ number_of (bytes_at bytes at width)) }
        ensures fits { result < 256 ^ width }
    {
        match b {
            Block::Live(p) => {
                let start = self.directory[p.0 as usize].offset as usize;
                number_at(&self.bytes, start + usize::from(at), usize::from(width))
            }
            Block::Statics => number_at(&self.statics, usize::from(at), usize::from(width)),
        }
    }

    /// Puts a number into 1 to 8 bytes of a block from an offset on, the highest first. Nothing else changes.
    #[inline(always)]
    pub fn write(&mut self, b: Block, at: u16, width: u8, v: u64)
        requires some { 1 ≤ width }
        requires most { width ≤ 8 }
        requires there { HasBytes self.old b at width }
        requires fits { v < 256 ^ width }
        ensures { self.new ≡ with_number self.old b at width v }
    {
        match b {
            Block::Live(p) => {
                let start = self.directory[p.0 as usize].offset as usize;
                put_number(
                    &mut self.bytes,
                    start + usize::from(at),
                    usize::from(width),
                    v,
                );
            }
            Block::Statics => {
                put_number(&mut self.statics, usize::from(at), usize::from(width), v);
            }
        }
    }
}

// Where a place stands among some.
fn index_of(places: &[u16], place: u32) -> usize
    requires { Contains places.now place }
    ensures within { result < length places.now }
    ensures found { slice_index places.now result ≡ place }
{
    places.iter().position(|q| u32::from(*q) == place).unwrap()
}
