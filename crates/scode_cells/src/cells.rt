//! The frames.
ghost use Rattle.std.specs.Prelude.{◌≡◌, ◌↔◌, ◌+◌, ◌++◌, ◌<◌, ◌≤◌, [], length, slice_get, IfOk, IsTrue, Some};
ghost use Rattle.scode_cells.specs.Frames.{IsRunning, begun, below, cells_in, cleared, entered, first_frame, left};
ghost use Rattle.scode_cells.specs.Frames.{most_frames, no_frames, placed, popped, pushed, running, stored};

use crate::cell::Cell;
use crate::extent::Extent;
use crate::row::{FRAMES, no_extents, put_cells, put_first, some_cells};
use sed_value::Memory;
use std::alloc::Global;
use std::marker::Model;

// A frame without cells at the beginning of the row.
const FIRST: Extent = Extent {
    method: 0,
    place: 0,
    base: 0,
    stack: 0,
    top: 0,
};

/// The frames of a root call; there are none between two of them. Contracts see the frames, the running one first, and
/// how many cells each may have.
#[derive(Drop)]
pub struct Cells {
    row: Vec<Cell>,
    is_running: bool,
    frame: Extent,
    // The frames below the running one, the nearest last.
    others: Vec<Extent>,
    most: usize,
}

impl Model for Cells {
    ghost use Rattle.std.specs.Prelude.{reverse};
    ghost use Rattle.std.specs.Vec.{vec_capacity};
    ghost use Rattle.scode_cells.specs.Frames.{Frames};
    ghost use Rattle.scode_cells.specs.Rows.{AreKept, seen_in};

    ghost Value = { Frames };

    ghost view = { λ c. seen_in c.row.items c.is_running c.frame (reverse c.others.items) c.most };

    ghost invariant = { λ c. AreKept c.row.items c.is_running c.frame (reverse c.others.items) (vec_capacity c.others)
        c.most };
}

impl Cells {
    /// No frames yet. Each may have so many cells, locals and stack together. No other call takes memory.
    pub fn new(alloc: Global, most: u32) -> Result<Cells, Memory>
        ensures { IfOk result (λ c. c ≡ no_frames most) }
    {
        let most = most as usize;
        Ok(Cells {
            row: some_cells(alloc, most)?,
            is_running: false,
            frame: FIRST,
            others: no_extents(alloc)?,
            most,
        })
    }

    /// Whether there are 32 frames, so that none can be entered. There are never more.
    pub fn is_full(&self) -> bool
        ensures full { IsTrue result ↔ (length self.now.frames ≡ most_frames) }
        ensures most { length self.now.frames ≤ most_frames }
    {
        self.others.len() == FRAMES - 1
    }

    /// How many frames there are.
    pub fn depth(&self) -> usize
        ensures { result ≡ length self.now.frames }
    {
        if self.is_running {
            self.others.len() + 1
        } else {
            0
        }
    }

    /// The first frame. Its locals are the arguments of the root call, and behind them `zeros`.
    pub fn begin(&mut self, method: u16, args: &[Cell], zeros: &[Cell])
        requires none { self.old.frames ≡ [] }
        requires room { length args.now + length zeros.now ≤ self.old.most }
        ensures { self.new ≡ begun self.old method (args.now ++ zeros.now) }
    {
        put_first(&mut self.row, args, zeros);
        let stack = args.len() + zeros.len();
        self.is_running = true;
        self.frame = Extent {
            method,
            place: 0,
            base: 0,
            stack,
            top: stack,
        };
    }

    /// One frame more. Its locals are so many cells off the stack of the running frame, the topmost last, and then
    /// these. They stay where they lie: only `zeros` is copied.
    pub fn enter(&mut self, method: u16, args: usize, zeros: &[Cell])
        requires running { IsRunning self.old }
        requires few { length self.old.frames < most_frames }
        requires there { args ≤ length (running self.old).stack }
        requires room { args + length zeros.now ≤ self.old.most }
        ensures { self.new ≡ entered self.old method args zeros.now }
    {
        let base = self.frame.top - args;
        let stack = self.frame.top + zeros.len();
        put_cells(&mut self.row, self.frame.top, zeros);
        self.others.push_reserved(Extent {
            top: base,
            ..self.frame
        });
        self.frame = Extent {
            method,
            place: 0,
            base,
            stack,
            top: stack,
        };
    }

    /// Ends the running frame. The one below it runs, as it was.
    pub fn leave(&mut self)
        requires { IsRunning self.old }
        ensures { self.new ≡ left self.old }
    {
        match self.others.pop() {
            Some(frame) => self.frame = frame,
            None => self.is_running = false,
        }
    }

    /// Ends the running frame, and puts a cell on the stack of the one below it.
    pub fn leave_with(&mut self, v: Cell)
        requires running { IsRunning (left self.old) }
        requires room { cells_in (running (left self.old)) < self.old.most }
        ensures { self.new ≡ pushed (left self.old) v }
    {
        self.leave();
        self.push(v);
    }

    /// Ends all frames.
    pub fn clear(&mut self)
        ensures { self.new ≡ cleared self.old }
    {
        self.is_running = false;
        self.frame = FIRST;
        self.others.clear();
    }

    /// The method of the running frame.
    #[inline(always)]
    pub fn method(&self) -> u16
        requires { IsRunning self.now }
        ensures { result ≡ (running self.now).method }
    {
        self.frame.method
    }

    /// The place of the running frame's next instruction.
    #[inline(always)]
    pub fn place(&self) -> u16
        requires { IsRunning self.now }
        ensures { result ≡ (running self.now).place }
    {
        self.frame.place
    }

    /// Sets the place of the running frame's next instruction.
    #[inline(always)]
    pub fn set_place(&mut self, place: u16)
        requires { IsRunning self.old }
        ensures { self.new ≡ placed self.old place }
    {
        self.frame.place = place;
    }

    /// Puts a cell on the stack of the running frame.
    #[inline(always)]
    pub fn push(&mut self, v: Cell)
        requires running { IsRunning self.old }
        requires room { cells_in (running self.old) < self.old.most }
        ensures { self.new ≡ pushed self.old v }
    {
        self.row[self.frame.top] = v;
        self.frame.top += 1;
    }

    /// Takes the topmost cell off the stack of the running frame.
    #[inline(always)]
    pub fn pop(&mut self) -> Cell
        requires { 0 < length (running self.old).stack }
        ensures top { slice_get (running self.old).stack 0 ≡ Some result }
        ensures rest { self.new ≡ popped self.old }
    {
        self.frame.top -= 1;
        self.row[self.frame.top]
    }

    /// The cell of the running frame's stack that so many others lie on.
    #[inline(always)]
    pub fn top(&self, n: usize) -> Cell
        requires { n < length (running self.now).stack }
        ensures { slice_get (running self.now).stack n ≡ Some result }
    {
        self.row[self.frame.top - 1 - n]
    }

    /// A local of the running frame.
    #[inline(always)]
    pub fn load(&self, i: usize) -> Cell
        requires { i < length (running self.now).locals }
        ensures { slice_get (running self.now).locals i ≡ Some result }
    {
        self.row[self.frame.base + i]
    }

    /// Sets a local of the running frame.
    #[inline(always)]
    pub fn store(&mut self, i: usize, v: Cell)
        requires { i < length (running self.old).locals }
        ensures { self.new ≡ stored self.old i v }
    {
        self.row[self.frame.base + i] = v;
    }
}
