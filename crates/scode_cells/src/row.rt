//! The row of cells, and what new frames begin with.
ghost use Rattle.std.specs.Prelude.{◌≡◌, ◌+◌, ◌++◌, ◌*◌, ◌≤◌, ◌<◌, ◌^◌, [], length, IfOk};
ghost use Rattle.std.specs.Vec.{vec_capacity, vec_len};
ghost use Rattle.scode_cells.specs.Rows.{put_at};

use crate::cell::Cell;
use crate::extent::Extent;
use sed_value::Memory;
use std::alloc::Global;

/// How many frames there are at most.
pub const FRAMES: usize = 32;

/// Cells for all frames, of which each has so many at most.
pub fn some_cells(alloc: Global, most: usize) -> Result<Vec<Cell>, Memory>
    requires { most < 2 ^ 32 }
    ensures { IfOk result (λ v. vec_len v ≡ 32 * most) }
{
    let mut row = Vec::new(alloc);
    row.resize(FRAMES * most, Cell::Null)?;
    Ok(row)
}

/// Room for all frames but the running one.
pub fn no_extents(alloc: Global) -> Result<Vec<Extent>, Memory>
    ensures none { IfOk result (λ v. v.items ≡ []) }
    ensures room { IfOk result (λ v. 31 ≤ vec_capacity v) }
{
    Ok(Vec::with_capacity(alloc, FRAMES - 1)?)
}

/// Puts cells from a place on. All others stay.
pub fn put_cells(row: &mut [Cell], at: usize, cells: &[Cell])
    requires { at + length cells.now ≤ length row.old }
    ensures { row.new ≡ put_at row.old at cells.now }
{
    row[at..at + cells.len()].copy_from_slice(cells);
}

/// Puts cells at the beginning, and others behind them. All behind these stay.
pub fn put_first(row: &mut [Cell], first: &[Cell], behind: &[Cell])
    requires { length first.now + length behind.now ≤ length row.old }
    ensures { row.new ≡ put_at row.old 0 (first.now ++ behind.now) }
{
    put_cells(row, 0, first);
    put_cells(row, first.len(), behind);
}
