//! Why something is not read or not written.

/// Too few bytes are left.
#[derive(Clone, Copy, Debug, PartialEq, Eq)]
pub struct Short;

/// Why no text is read.
#[derive(Clone, Copy, Debug, PartialEq, Eq)]
pub enum StrFault {
    /// No 0 is left.
    NoEnd,
    /// A byte before the first 0 is above 0x7f.
    NotAscii,
}

/// Why no value is read.
#[derive(Clone, Copy, Debug, PartialEq, Eq)]
pub enum ValueFault {
    /// Too few bytes are left.
    Short,
    /// A truth value's byte is above 2.
    BadBool,
    /// A buffer's bytes are all there, and are more than its type holds.
    TooLong,
}

/// Too little room is left for all of what was to be written.
#[derive(Clone, Copy, Debug, PartialEq, Eq)]
pub struct Full;

impl From<Short> for ValueFault {
    ghost use Rattle.std.specs.Prelude.{◌≡◌};
    ghost use Rattle.sed_wire.specs.declared.fault.ValueFault.{ValueFault};

    ghost from_gives = { λ _ fault. fault ≡ ValueFault.Short };

    fn from(_short: Short) -> ValueFault {
        ValueFault::Short
    }
}
