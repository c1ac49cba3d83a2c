//! Arithmetic of longs, which wraps in two's complement.
//!
//! Each operation is its definition on whole numbers: the result is computed without a bound, and
//! `wrap` keeps the number of the long's range that equals it modulo 2 to the 64. The definitions
//! take the width, and serve ints too.
ghost use Rattle.std.specs.Prelude.{◌≡◌, ◌+ℤ◌, ◌-ℤ◌, ◌*ℤ◌};
ghost use Rattle.std.specs.Int.{w64};
ghost use Rattle.sed_value.specs.Arithmetic.{shifted_left, shifted_right, quotient, remainder};
ghost use Rattle.sed_value.specs.Wrap.{wrap};

/// The sum of two longs, wrapped to 64 bits.
#[tactic(auto, using(std::proofs::lemmas::Int::wraps))]
pub fn add_long(a: i64, b: i64) -> i64
    ensures { result ≡ wrap w64 (a +ℤ b) }
{
    a.wrapping_add(b)
}

/// The difference of two longs, wrapped to 64 bits.
#[tactic(auto, using(std::proofs::lemmas::Int::wraps))]
pub fn sub_long(a: i64, b: i64) -> i64
    ensures { result ≡ wrap w64 (a -ℤ b) }
{
    a.wrapping_sub(b)
}

/// The product of two longs, wrapped to 64 bits.
#[tactic(auto, using(std::proofs::lemmas::Int::wraps))]
pub fn mul_long(a: i64, b: i64) -> i64
    ensures { result ≡ wrap w64 (a *ℤ b) }
{
    a.wrapping_mul(b)
}

/// `a << n`, wrapped to 64 bits. The count is taken modulo 64, so -1 shifts by 63.
#[tactic(auto, using(crate::proofs::ArithmeticLemmas::shifts))]
pub fn shl_long(a: i64, n: i32) -> i64
    ensures { result ≡ shifted_left w64 a n }
{
    a.wrapping_shl(n.rem_euclid(64) as u32)
}

/// `a >> n`, which keeps the sign: the quotient by 2 to the count, rounded down. The count is taken modulo 64.
#[tactic(auto, using(crate::proofs::ArithmeticLemmas::shifts))]
pub fn shr_long(a: i64, n: i32) -> i64
    ensures { result ≡ shifted_right w64 a n }
{
    a.wrapping_shr(n.rem_euclid(64) as u32)
}

/// `a / b`, rounded toward zero: none exactly where `b` is 0. The least long divided by -1 is the least long.
#[tactic(auto, using(crate::proofs::ArithmeticLemmas::divisions))]
pub fn div_long(a: i64, b: i64) -> Option<i64>
    ensures { result ≡ quotient w64 a b }
{
    if b != 0 {
        return Some(a.wrapping_div(b));
    }
    None
}

/// `a % b`, with the sign of `a`: none exactly where `b` is 0. The least long leaves 0 by -1.
#[tactic(auto, using(crate::proofs::ArithmeticLemmas::divisions))]
pub fn rem_long(a: i64, b: i64) -> Option<i64>
    ensures { result ≡ remainder a b }
{
    if b != 0 {
        return Some(a.wrapping_rem(b));
    }
    None
}
