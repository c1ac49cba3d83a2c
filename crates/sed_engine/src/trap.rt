//! Traps: why a root call ends early.
ghost use Rattle.std.specs.Prelude.{◌≡◌};
ghost use Rattle.sed_engine.specs.Traps.{number_of};

/// Why a root call ends early. What was written before it stands.
#[derive(Clone, Copy, Debug, PartialEq, Eq)]
pub enum Trap {
    /// A division, or a remainder, by zero.
    ZeroDivisor,
    /// A null reference was used.
    NullReference,
    /// An index outside its array, Str or Buf, or a change of a text literal.
    OutOfRange,
    /// A turn was wanted and none was left.
    TurnsSpent,
    /// A call was made while 32 frames were live.
    TooDeep,
}

impl Trap {
    /// The trap's number, 1 to 5, by which a component's fault tells it.
    pub fn number(self) -> u8
        ensures { result ≡ number_of self }
    {
        match self {
            Trap::ZeroDivisor => 1,
            Trap::NullReference => 2,
            Trap::OutOfRange => 3,
            Trap::TurnsSpent => 4,
            Trap::TooDeep => 5,
        }
    }
}
