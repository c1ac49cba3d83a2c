//! The values that expressions come to.
ghost use Rattle.std.specs.Prelude.{◌≡◌, ℕ};
ghost use Rattle.sed_engine.specs.Stops.{map_ok};
ghost use Rattle.sed_engine.specs.Values as val;
ghost use Rattle.sed_engine.specs.Values.{whole, truth_of, truth, is_met};
ghost use Rattle.sed_typed.specs.declared.operators.Width.TheVariants.{Int as IntWidth, Long as LongWidth};
ghost use Rattle.sed_typed.specs.declared.kind.Kind.{Kind as AnyKind};
ghost use Rattle.sed_cells.specs.Places.{Plan};
ghost use Rattle.walk_steps.specs.Seen.{seen, ends, as_it_is};

use sed_engine::Trap;
use sed_typed::Kind;

/// Where a place is counted from: the component that a root call was made on, or the statics.
#[derive(Clone, Copy, Debug, PartialEq, Eq)]
pub enum Base {
    Component,
    Statics,
}

/// A value. A reference is null, the place of an object or a Str, or the number of a text literal.
#[derive(Clone, Copy, Debug)]
pub enum Word {
    /// No value: what a void method gives, and a local that is not begun.
    Nothing,
    /// 0 false, 1 true, 2 null.
    Truth(u8),
    Int(i32),
    Long(i64),
    Null,
    At(Base, usize),
    Literal(u16),
}

/// Why an evaluation stops: by a trap, or because it came to what no typed program comes to.
#[derive(Clone, Copy, Debug, PartialEq, Eq)]
pub enum Stop {
    Trapped(Trap),
    Untyped,
}

impl Word {
    /// An int.
    #[inline(always)]
    pub fn int(self) -> Result<i32, Stop>
        ensures { (plan : Plan) (class : ℕ) → as_it_is result ≡ whole IntWidth (seen plan class self) }
    {
        match self {
            Word::Int(number) => Ok(number),
            _ => Err(Stop::Untyped),
        }
    }

    /// A long.
    #[inline(always)]
    pub fn long(self) -> Result<i64, Stop>
        ensures { (plan : Plan) (class : ℕ) → as_it_is result ≡ whole LongWidth (seen plan class self) }
    {
        match self {
            Word::Long(number) => Ok(number),
            _ => Err(Stop::Untyped),
        }
    }

    /// A truth value.
    #[inline(always)]
    pub fn truth(self) -> Result<u8, Stop>
        ensures { (plan : Plan) (class : ℕ) → as_it_is result ≡ truth_of (seen plan class self) }
    {
        match self {
            Word::Truth(truth) => Ok(truth),
            _ => Err(Stop::Untyped),
        }
    }

    /// Whether it meets a condition: it is a truth value other than false.
    #[inline(always)]
    pub fn is_met(self) -> Result<bool, Stop>
        ensures { (plan : Plan) (class : ℕ) → as_it_is result ≡ is_met (seen plan class self) }
    {
        match self {
            Word::Truth(truth) => Ok(truth != 0),
            _ => Err(Stop::Untyped),
        }
    }

    /// Whether it meets a condition, as a truth value.
    #[inline(always)]
    pub fn met(self) -> Result<Word, Stop>
        ensures { (plan : Plan) (class : ℕ) → ends plan class result
            ≡ map_ok val.truth (is_met (seen plan class self)) }
    {
        match self {
            Word::Truth(truth) => Ok(Word::of_bool(truth != 0)),
            _ => Err(Stop::Untyped),
        }
    }

    /// A truth value, true or false.
    #[inline(always)]
    pub fn of_bool(truth: bool) -> Word
        ensures { (plan : Plan) (class : ℕ) → seen plan class result ≡ val.truth truth }
    {
        if truth {
            Word::Truth(1)
        } else {
            Word::Truth(0)
        }
    }

    /// What a local without an initial value has, and a method that does not return: 0, false or null.
    #[inline(always)]
    pub fn zero(kind: Kind) -> Word
        ensures { (plan : Plan) (class : ℕ) → seen plan class result ≡ val.zero_of kind }
    {
        match kind {
            Kind::Void => Word::Nothing,
            Kind::Bool => Word::Truth(0),
            Kind::Int => Word::Int(0),
            Kind::Long => Word::Long(0),
            Kind::Text => Word::Null,
            Kind::Object(_) => Word::Null,
        }
    }

    /// The value of a local, which is 0, false or null where it is not begun.
    #[inline(always)]
    pub fn begun(self, kind: Kind) -> Word
        ensures { (plan : Plan) (class : ℕ) → seen plan class result ≡ val.begun kind (seen plan class self) }
    {
        match self {
            Word::Nothing => Word::zero(kind),
            other => other,
        }
    }

    /// The receiver, which a method that names it has.
    #[inline(always)]
    pub fn receiver(self) -> Result<Word, Stop>
        ensures { (plan : Plan) (class : ℕ) → ends plan class result ≡ val.receiver (seen plan class self) }
    {
        match self {
            Word::Nothing => Err(Stop::Untyped),
            other => Ok(other),
        }
    }
}
