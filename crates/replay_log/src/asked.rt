//! What is asked of a generated record.
ghost use Rattle.std.specs.Prelude.{◌↔◌, IsTrue};
ghost use Rattle.replay_log.specs.Bounds.{IsAllowed};

use crate::bounds::are_within;

/// What is asked of a record.
#[derive(Clone, Copy, Debug, PartialEq, Eq)]
pub struct GenAsked {
    /// What the first number is drawn from, 0 to 2,147,483,647.
    pub seed: u32,
    /// How many components are added, 1 to 4,000.
    pub components: u32,
    /// How many links are added at most, 0 to 8,192.
    pub links: u32,
    /// How many ticks come, 0 to 100,000.
    pub ticks: u32,
}

impl GenAsked {
    /// Whether a record can be generated: the numbers are in their ranges.
    pub fn is_allowed(&self) -> bool
        ensures { IsTrue result ↔ IsAllowed self.now }
    {
        are_within(self.seed, self.components, self.links, self.ticks)
    }
}
