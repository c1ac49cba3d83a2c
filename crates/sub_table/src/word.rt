//! The bits of one word.
ghost use Rattle.std.specs.Prelude.{◌≡◌, ◌<◌, ◌≤◌, ℕ, MatchOption};
ghost use Rattle.std.specs.Int.{bit_at};
ghost use Rattle.sub_table.specs.Words.{IsNextBit, HasNoBit};

/// The least bit of a word from this one on that is set.
pub(crate) fn next_bit(word: u64, from: usize) -> Option<usize>
    requires { from < 64 }
    ensures { MatchOption result (HasNoBit word from) (λ bit. IsNextBit word from bit) }
{
    let rest = word & (u64::MAX << from);
    if rest == 0 {
        return None;
    }
    Some(rest.trailing_zeros() as usize)
}
