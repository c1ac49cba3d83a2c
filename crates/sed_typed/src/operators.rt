//! Operators, each with the width of its operands where it has several.

/// The two widths in which whole numbers are computed.
#[derive(Clone, Copy, Debug, PartialEq, Eq)]
pub enum Width {
    /// 32 bits, signed.
    Int,
    /// 64 bits, signed.
    Long,
}

/// The operators of two whole numbers that give one.
#[derive(Clone, Copy, Debug, PartialEq, Eq)]
pub enum Arithmetic {
    Add,
    Subtract,
    Multiply,
    /// Truncates toward zero; zero divisor traps.
    Divide,
    /// Has the sign of the dividend; zero divisor traps.
    Remainder,
    BitAnd,
    BitOr,
    BitXor,
    /// The count is an int, whatever the width.
    ShiftLeft,
    /// Keeps the sign. The count is an int, whatever the width.
    ShiftRight,
}

/// The comparisons of two whole numbers.
#[derive(Clone, Copy, Debug, PartialEq, Eq)]
pub enum Comparison {
    Equal,
    NotEqual,
    Less,
    LessOrEqual,
    Greater,
    GreaterOrEqual,
}

/// The operators that evaluate both operands.
#[derive(Clone, Copy, Debug, PartialEq, Eq)]
pub enum Binary {
    Arithmetic(Arithmetic, Width),
    Compare(Comparison, Width),
    /// `==` and `!=` of two bools, which compare the three values.
    SameTruth,
    OtherTruth,
    /// `==` and `!=` of two references or Strs.
    SameReference,
    OtherReference,
}

/// The operators of one operand, casts among them.
#[derive(Clone, Copy, Debug, PartialEq, Eq)]
pub enum Unary {
    /// `!` of a bool.
    Not,
    Negate(Width),
    /// `~`.
    Flip(Width),
    /// An int as a long, written as a cast or not.
    ToLong,
    /// The low 32 bits of a long.
    ToInt,
    /// The low 8 bits of an int or a long, as an int.
    LowByte(Width),
    /// The low 16 bits of an int or a long, as an int.
    LowShort(Width),
}

/// Which value a compound assignment gives.
#[derive(Clone, Copy, Debug, PartialEq, Eq)]
pub enum Gives {
    /// The value before, as `x++` does.
    Old,
    /// The stored value, as `x += 1` and `++x` do.
    New,
}

/// A compound assignment: what is computed of the old value and the operand, and what is given.
#[derive(Clone, Copy, Debug, PartialEq, Eq)]
pub struct Update {
    pub arithmetic: Arithmetic,
    pub width: Width,
    pub gives: Gives,
}

/// The calls of a Str. They are native and take no turn.
#[derive(Clone, Copy, Debug, PartialEq, Eq)]
pub enum TextCall {
    /// `length()`, an int.
    Length,
    /// `get(i)`, an int.
    Get,
    /// `set(i, c)`, void.
    Set,
    /// `equals(t)`, a bool.
    Equals,
    /// `copyFromStr(t)`, void.
    Copy,
}
