//! What `wrap` and `low_bits` mean.
ghost use Rattle.std.specs.Prelude.{◌≡◌, ℕ, ◌^◌, ◌<◌, ℤ, pos, FitsSigned};
ghost use Rattle.std.specs.Int.{Width};
ghost use Rattle.sed_value.specs.Wrap.{wrap, low_bits, IsEqualModulo};
ghost use mir.Val.{bits};

/// A law for provers: at each width, `wrap` of a whole number lies in the signed range, equals the
/// number modulo 2 to the width's bits, and is the only number that does both.
pub fn wrap_is_exact()
    ensures fits { (width : Width) (number : ℤ) → FitsSigned width (wrap width number) }
    ensures equal { (width : Width) (number : ℤ) → IsEqualModulo width (wrap width number) number }
    ensures only { (width : Width) (number : ℤ) (other : ℤ) → FitsSigned width other
        → IsEqualModulo width other number → other ≡ wrap width number }
{}

/// A law for provers: at each width, the low bits of a whole number are below 2 to the width's bits, equal the
/// number modulo that, and are the only number that does both.
pub fn low_bits_are_exact()
    ensures fit { (width : Width) (number : ℤ) → low_bits width number < 2 ^ bits width }
    ensures equal { (width : Width) (number : ℤ) → IsEqualModulo width (pos (low_bits width number)) number }
    ensures only { (width : Width) (number : ℤ) (other : ℕ) → other < 2 ^ bits width
        → IsEqualModulo width (pos other) number → other ≡ low_bits width number }
{}
