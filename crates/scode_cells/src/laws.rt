//! Laws of frames. Each is the contract of a function that does nothing.
ghost use Rattle.std.specs.Prelude.{◌≡◌, ◌≢◌, ◌<◌, ℕ, List, drop, length, slice_get, Some};
ghost use Rattle.scode_cells.specs.declared.cell.Cell.{Cell as AnyCell};
ghost use Rattle.scode_cells.specs.Frames.{Frame, Frames, IsRunning, entered, left, popped, pushed, running, stored};
ghost use Rattle.scode_cells.specs.Frames.{with_running, with_stack};

/// What is stored is loaded, and other locals stay.
pub fn what_is_stored_is_loaded()
    ensures stored { (s : Frames) (i : ℕ) (v : AnyCell) → i < length (running s).locals →
        slice_get (running (stored s i v)).locals i ≡ Some v }
    ensures others { (s : Frames) (i j : ℕ) (v : AnyCell) → j ≢ i →
        slice_get (running (stored s i v)).locals j ≡ slice_get (running s).locals j }
{}

/// What is pushed is on top, and popping it leaves the frames as they were.
pub fn what_is_pushed_is_popped()
    ensures top { (s : Frames) (v : AnyCell) → slice_get (running (pushed s v)).stack 0 ≡ Some v }
    ensures rest { (s : Frames) (v : AnyCell) → IsRunning s → popped (pushed s v) ≡ s }
{}

/// A frame that was entered and is left, whatever it has come to, leaves its caller without the arguments, and nothing
/// else of any frame below it is changed.
pub fn calls_leave_their_caller()
    ensures { (s : Frames) (method args : ℕ) (zeros : List AnyCell) (f : Frame) →
        left (with_running (entered s method args zeros) f) ≡ with_stack s (drop args (running s).stack) }
{}
