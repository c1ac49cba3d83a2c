//! The locals of a frame.
ghost use Rattle.std.specs.Prelude.{◌≡◌, ℕ, map, replicate, slice_get, slice_set, OnErr};
ghost use Rattle.sed_engine.specs.Stops.{there, map_ok, and_then};
ghost use Rattle.sed_engine.specs.Steps.{with_local, write_local, read_this};
ghost use Rattle.sed_engine.specs.Values as val;
ghost use Rattle.sed_engine.specs.Expressions.{new_frame as empty_frame, frame_of as new_frame_of};
ghost use Rattle.sed_cells.specs.Places.{Plan as Planned};
ghost use Rattle.walk_steps.specs.Seen.{seen, ends, framed};
ghost use Rattle.walk_steps.specs.Stored.{Stored, ended, state_of};

use crate::word::{Stop, Word};
use sed_typed::Kind;

/// How many locals a frame has room for: a receiver and 64 locals.
pub const FRAME: usize = 65;

/// The frame of a static method before its arguments.
pub fn new_frame() -> [Word; FRAME]
    ensures { (plan : Planned) (class : ℕ) → map (seen plan class) result ≡ empty_frame }
{
    [Word::Nothing; FRAME]
}

/// The frame of a method on a receiver.
pub fn frame_of(receiver: Word) -> [Word; FRAME]
    ensures { (plan : Planned) (class : ℕ) → map (seen plan class) result ≡ new_frame_of (seen plan class receiver) }
{
    let mut frame = [Word::Nothing; FRAME];
    frame[0] = receiver;
    frame
}

/// The value of a local, which is 0, false or null where it is not begun.
#[inline(always)]
pub fn read(locals: &[Word], kind: Kind, number: usize) -> Result<Word, Stop>
    ensures { (plan : Planned) (class : ℕ) → ends plan class result
        ≡ map_ok (λ v. val.begun kind v) (there (slice_get (map (seen plan class) locals.now) number)) }
{
    match locals.get(number) {
        Some(word) => Ok(word.begun(kind)),
        None => Err(Stop::Untyped),
    }
}

/// The receiver, which stands in local 0.
#[inline(always)]
pub fn this(locals: &[Word]) -> Result<Word, Stop>
    ensures value { (plan : Planned) (class : ℕ) → ends plan class result
        ≡ and_then (there (slice_get (map (seen plan class) locals.now) 0)) val.receiver }
    ensures end { (plan : Planned) (class : ℕ) (store : Stored)
        → ended plan class (ends plan class result) store locals.now
        ≡ read_this (state_of plan class store locals.now) }
{
    match locals.get(0) {
        Some(word) => word.receiver(),
        None => Err(Stop::Untyped),
    }
}

/// Puts a value into a local.
#[inline(always)]
pub fn write(locals: &mut [Word], number: usize, value: Word) -> Result<(), Stop>
    ensures end { (plan : Planned) (class : ℕ) → framed plan class result locals.new
        ≡ with_local (map (seen plan class) locals.old) number (seen plan class value) }
    ensures kept { OnErr result (locals.new ≡ locals.old) }
{
    if number < locals.len() {
        locals[number] = value;
        Ok(())
    } else {
        Err(Stop::Untyped)
    }
}

/// Puts a value into a local, and gives it.
#[inline(always)]
pub fn put(locals: &mut [Word], number: usize, value: Word) -> Result<Word, Stop>
    ensures { (plan : Planned) (class : ℕ) (store : Stored)
        → ended plan class (ends plan class result) store locals.new
        ≡ write_local number (seen plan class value) (state_of plan class store locals.old) }
{
    match write(locals, number, value) {
        Ok(()) => Ok(value),
        Err(stop) => Err(stop),
    }
}
