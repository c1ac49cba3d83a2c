//! The cells of one object, or of the statics.
ghost use Rattle.std.specs.Prelude.{◌≡◌, ◌++◌, ◌∷◌, [], map, IfOk, slice_get, slice_set, slice_index_or, length, false};
ghost use Rattle.std.specs.Prelude.{if◌then◌else◌};
ghost use Rattle.std.specs.Option.{option_copied, option_map, option_map_or};
ghost use Rattle.sed_value.specs.declared.value.Value.{Value};
ghost use Rattle.sed_value.specs.declared.value.Value.TheVariants as kept;
ghost use Rattle.sed_cells.specs.Cells.{cell_value, are_bytes};

use crate::cell::Cell;
use sed_typed::Bytes255;
use sed_value::Memory;
use std::alloc::{AllocError, Global};
use std::marker::Model;

/// Cells by their numbers. Contracts see the values that they keep.
#[derive(Drop)]
pub struct Cells {
    all: Vec<Cell>,
}

impl Model for Cells {
    ghost use Rattle.std.specs.Prelude.{List, map};
    ghost use Rattle.sed_value.specs.declared.value.Value.{Value as Kept};
    ghost use Rattle.sed_cells.specs.Cells.{cell_value};

    ghost Value = { List Kept };

    ghost view = { λ cells. map cell_value cells.all.items };
}

impl Cells {
    /// No cells. Takes no memory.
    pub fn new(alloc: Global) -> Cells
        ensures { result ≡ [] }
    {
        Cells {
            all: Vec::new(alloc),
        }
    }

    /// How many there are.
    pub fn len(&self) -> usize
        ensures { result ≡ length self.now }
    {
        self.all.len()
    }

    /// One more cell.
    pub fn push(&mut self, cell: Cell) -> Result<(), Memory>
        ensures { IfOk result (λ _. self.new ≡ self.old ++ cell_value cell ∷ []) }
    {
        self.all.push(cell)?;
        Ok(())
    }

    /// The cell of a number.
    #[inline(always)]
    pub fn get(&self, number: usize) -> Option<&Cell>
        ensures { option_map cell_value (option_copied result) ≡ slice_get self.now number }
    {
        self.all.get(number)
    }

    /// Puts another cell in the place of one. Where there is none of this number nothing changes.
    #[inline(always)]
    pub fn put(&mut self, number: usize, cell: Cell)
        ensures { self.new ≡ slice_set self.old number (cell_value cell) }
    {
        if number < self.all.len() {
            self.all[number] = cell;
        }
    }

    /// Puts other bytes in the place of those of a Str or a Buf. Takes no memory. Where no bytes are
    /// kept nothing changes, and the answer is false.
    pub fn put_bytes(&mut self, number: usize, bytes: Bytes255) -> bool
        ensures answer { result ≡ option_map_or are_bytes (slice_get self.old number) false }
        ensures put { self.new ≡ (if result then slice_set self.old number (kept.Buf bytes) else self.old) }
    {
        if number < self.all.len() {
            put_in(&mut self.all[number], bytes)
        } else {
            false
        }
    }

    /// Cells that keep the same.
    pub fn copy(&self, alloc: Global) -> Result<Cells, Memory>
        ensures { IfOk result (λ c. c ≡ self.now) }
    {
        let mut all = Vec::new(alloc);
        for cell in &self.all {
            all.push(cell.copy(alloc)?)?;
        }
        Ok(Cells { all })
    }
}

fn put_in(cell: &mut Cell, bytes: Bytes255) -> bool
    ensures answer { result ≡ are_bytes (cell_value cell.old) }
    ensures put { cell_value cell.new ≡ (if result then kept.Buf bytes else cell_value cell.old) }
{
    match cell {
        Cell::Bytes(old) => {
            **old = bytes;
            true
        }
        _ => false,
    }
}
