//! Arithmetic of ints, which wraps in two's complement.
//!
//! Each operation is its definition on whole numbers: the result is computed without a bound, and
//! `wrap` keeps the number of the int's range that equals it modulo 2 to the 32. The definitions
//! take the width, and serve longs too.
ghost use Rattle.std.specs.Prelude.{◌≡◌, ◌+ℤ◌, ◌-ℤ◌, ◌*ℤ◌};
ghost use Rattle.std.specs.Int.{w32};
ghost use Rattle.sed_value.specs.Arithmetic.{shifted_left, shifted_right, quotient, remainder};
ghost use Rattle.sed_value.specs.Wrap.{wrap};

/// The sum of two ints, wrapped to 32 bits.
#[tactic(auto, using(std::proofs::lemmas::Int::wraps))]
pub fn add_int(a: i32, b: i32) -> i32
    ensures { result ≡ wrap w32 (a +ℤ b) }
{
    a.wrapping_add(b)
}

/// The difference of two ints, wrapped to 32 bits.
#[tactic(auto, using(std::proofs::lemmas::Int::wraps))]
pub fn sub_int(a: i32, b: i32) -> i32
    ensures { result ≡ wrap w32 (a -ℤ b) }
{
    a.wrapping_sub(b)
}

/// The product of two ints, wrapped to 32 bits.
#[tactic(auto, using(std::proofs::lemmas::Int::wraps))]
pub fn mul_int(a: i32, b: i32) -> i32
    ensures { result ≡ wrap w32 (a *ℤ b) }
{
    a.wrapping_mul(b)
}

/// `a << n`, wrapped to 32 bits. The count is taken modulo 32, so -1 shifts by 31.
#[tactic(auto, using(crate::proofs::ArithmeticLemmas::shifts))]
pub fn shl_int(a: i32, n: i32) -> i32
    ensures { result ≡ shifted_left w32 a n }
{
    a.wrapping_shl(n.rem_euclid(32) as u32)
}

/// `a >> n`, which keeps the sign: the quotient by 2 to the count, rounded down. The count is taken modulo 32.
#[tactic(auto, using(crate::proofs::ArithmeticLemmas::shifts))]
pub fn shr_int(a: i32, n: i32) -> i32
    ensures { result ≡ shifted_right w32 a n }
{
    a.wrapping_shr(n.rem_euclid(32) as u32)
}

/// `a / b`, rounded toward zero: none exactly where `b` is 0. The least int divided by -1 is the least int.
#[tactic(auto, using(crate::proofs::ArithmeticLemmas::divisions))]
pub fn div_int(a: i32, b: i32) -> Option<i32>
    ensures { result ≡ quotient w32 a b }
{
    if b != 0 {
        return Some(a.wrapping_div(b));
    }
    None
}

/// `a % b`, with the sign of `a`: none exactly where `b` is 0. The least int leaves 0 by -1.
#[tactic(auto, using(crate::proofs::ArithmeticLemmas::divisions))]
pub fn rem_int(a: i32, b: i32) -> Option<i32>
    ensures { result ≡ remainder a b }
{
    if b != 0 {
        return Some(a.wrapping_rem(b));
    }
    None
}
