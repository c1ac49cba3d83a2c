//! A sleep.

/// A sleep that was asked of a clock.
#[derive(Clone, Copy, Debug, PartialEq, Eq)]
pub struct Sleep {
    /// The moment that it waits for.
    pub moment: i64,
    /// How many moments the clock had given by then.
    pub given: u64,
}
