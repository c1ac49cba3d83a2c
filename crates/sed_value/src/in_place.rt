//! Bytes in place: the form in which names, words and contents of buffers are kept.
ghost use Rattle.std.specs.Prelude.{◌≡◌, ◌≤◌, length, Some, nat_eq, refl};
ghost use Rattle.std.specs.Ordering.{nat_cmp};
ghost use Rattle.std.specs.Cmp.{partial_equiv_from_equiv};
ghost use Rattle.std.specs.Cmp.Lexicographic.{pointwise, slice_cmp, nat_list_eq_equiv, nat_list_cmp_total, texts_ties};
ghost use Rattle.std.specs.Cmp.Lexicographic.{texts_po};
ghost use Rattle.sed_value.specs.Shown.{shown, quoted};

use crate::shown::show;
use std::cmp::Ordering;
use std::fmt;
use std::marker::Model;

/// At most `N` bytes in the value itself. Contracts see them as a list.
#[derive(Clone, Copy)]
pub struct InPlace<const N: usize> {
    bytes: [u8; N],
    len: usize,
}

impl<const N: usize> Model for InPlace<N> {
    ghost use Rattle.std.specs.Prelude.{ℕ, ◌-◌, ◌++◌, List, take, length, replicate};
    ghost use Rattle.sed_value.specs.InPlace.{IsPadded, padded_again, length_in_use};

    ghost Value = { List ℕ };

    ghost view = { λ s. take s.len s.bytes };

    ghost invariant = { λ s. IsPadded N s.len s.bytes };

    ghost inverse = { λ bytes. record { bytes = bytes ++ replicate (N - length bytes) 0; len = length bytes } };

    ghost inverse_ok = { λ s padded i. record {
      bytes = padded_again N s.len s.bytes padded i;
      len = length_in_use N s.len s.bytes padded i;
    } };
}

impl<const N: usize> InPlace<N> {
    /// These bytes, of which there are at most `N`.
    pub fn new(text: &[u8]) -> Self
        requires { length text.now ≤ N }
        ensures { result ≡ text.now }
    {
        let mut bytes = [0; N];
        bytes[..text.len()].copy_from_slice(text);
        InPlace {
            bytes,
            len: text.len(),
        }
    }

    /// The bytes.
    pub fn as_bytes(&self) -> &[u8]
        ensures same { result.now ≡ self.now }
        ensures fits { length self.now ≤ N }
    {
        &self.bytes[..self.len]
    }
}

impl<const N: usize> PartialEq for InPlace<N> {
    ghost eq = { pointwise nat_eq };

    ghost laws = { partial_equiv_from_equiv nat_list_eq_equiv };

    fn eq(&self, other: &Self) -> bool {
        self.as_bytes() == other.as_bytes()
    }
}

impl<const N: usize> Eq for InPlace<N> {
    ghost laws = { nat_list_eq_equiv };
}

impl<const N: usize> PartialOrd for InPlace<N> {
    ghost partial_cmp = { λ x y. Some (slice_cmp nat_cmp x y) };

    ghost laws = { texts_po };

    fn partial_cmp(&self, other: &Self) -> Option<Ordering> {
        Some(self.cmp(other))
    }
}

impl<const N: usize> Ord for InPlace<N> {
    ghost cmp = { slice_cmp nat_cmp };

    ghost total = { nat_list_cmp_total };

    ghost matches_partial_cmp = { λ x y. refl };

    ghost matches_eq = { texts_ties };

    fn cmp(&self, other: &Self) -> Ordering {
        self.as_bytes().cmp(other.as_bytes())
    }
}

/// Shows the bytes in double quotes, with an escape for each that doesn't print.
impl<const N: usize> fmt::Debug for InPlace<N> {
    ghost debug_output = { λ bytes. Some (quoted (shown bytes)) };

    fn fmt<W: fmt::Write>(&self, f: &mut fmt::Formatter<W>) -> fmt::Result {
        show(self.as_bytes(), f)
    }
}
