//! The numbers of which a record can be generated.
ghost use Rattle.std.specs.Prelude.{◌≤◌, ◌↔◌, IsTrue};
ghost use Rattle.replay_log.specs.Bounds.{AreWithin};

use sed_value::limits;

/// The greatest number that the first number is drawn from.
pub const GREATEST_SEED: u32 = 2_147_483_647;

/// The most components that are added.
pub const MOST_ADDED_COMPONENTS: u32 = 4_000;

/// The most links that are added.
pub const MOST_ADDED_LINKS: u32 = limits::MOST_LINKS as u32;

/// The most ticks that come.
pub const MOST_TICKS: u32 = 100_000;

/// Whether a record can be generated of these numbers: each is at most what its constant says, and there is a
/// component.
pub fn are_within(seed: u32, components: u32, links: u32, ticks: u32) -> bool
    ensures { IsTrue result ↔ AreWithin seed components links ticks }
{
    seed <= GREATEST_SEED && are_few(components, links, ticks)
}

fn are_few(components: u32, links: u32, ticks: u32) -> bool
    ensures { IsTrue result ↔ ((1 ≤ components) × (components ≤ MOST_ADDED_COMPONENTS) × (links ≤ MOST_ADDED_LINKS)
        × (ticks ≤ MOST_TICKS)) }
{
    1 <= components
        && components <= MOST_ADDED_COMPONENTS
        && links <= MOST_ADDED_LINKS
        && ticks <= MOST_TICKS
}
