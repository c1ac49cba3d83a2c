//! Places of fields and elements.
ghost use Rattle.std.specs.Prelude.{◌≡◌, ◌<◌, ℕ, IfOk};
ghost use Rattle.sed_engine.specs.Stops.{map_ok, and_then};
ghost use Rattle.sed_engine.specs.Steps.{inside as inside_of};
ghost use Rattle.sed_engine.specs.Texts.{index_of as index_in, index_within as within_of};
ghost use Rattle.sed_engine.specs.Values as val;
ghost use Rattle.sed_cells.specs.Places.{Plan as Planned, classes_in};
ghost use Rattle.walk_steps.specs.Seen.{seen, as_it_is, spot_seen, spots_seen, top_of};
ghost use Rattle.walk_steps.specs.Found.{IsFound, NothingAt};

use crate::word::{Base, Stop, Word};
use sed_cells::Plan;
use sed_engine::Trap;

/// The place of an object or a Str that a reference refers to: null traps.
#[inline(always)]
pub fn place_of(word: Word) -> Result<(Base, usize), Stop>
    ensures { (plan : Planned) (class : ℕ) → spots_seen plan class result ≡ val.spot_of (seen plan class word) }
{
    match word {
        Word::At(base, place) => Ok((base, place)),
        Word::Null => Err(Stop::Trapped(Trap::NullReference)),
        _ => Err(Stop::Untyped),
    }
}

/// The layout of a base, in a root call on a component of a class.
#[inline(always)]
pub fn top(plan: &Plan, class: usize, base: Base) -> usize
    ensures { result ≡ top_of plan.now class base }
{
    match base {
        Base::Component => class,
        Base::Statics => plan.statics(),
    }
}

/// An index, where it is at least 0 and below a count.
#[inline(always)]
pub fn index_of(count: usize, index: Word) -> Result<usize, Stop>
    ensures index { (plan : Planned) (class : ℕ) → as_it_is result ≡ index_in count (seen plan class index) }
    ensures within { IfOk result (λ at. at < count) }
{
    match index {
        Word::Int(number) => index_within(count, number),
        _ => Err(Stop::Untyped),
    }
}

#[inline(always)]
fn index_within(count: usize, number: i32) -> Result<usize, Stop>
    ensures index { as_it_is result ≡ within_of count number }
    ensures within { IfOk result (λ at. at < count) }
{
    if number < 0 {
        return Err(Stop::Trapped(Trap::OutOfRange));
    }
    let index = number as usize;
    if index < count {
        Ok(index)
    } else {
        Err(Stop::Trapped(Trap::OutOfRange))
    }
}
