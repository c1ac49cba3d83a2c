//! What a generated record is made of.
ghost use Rattle.std.specs.Prelude.{◌≡◌, ◌↔◌, IsTrue};
ghost use Rattle.std.specs.List.{list_all};
ghost use Rattle.replay_log.specs.Generated as generated;
ghost use Rattle.replay_log.specs.Generated.{MayGenerate};

use crate::bounds::are_within;
use dasp_msg::is_user_name;
use sed_value::Items;

/// What a generated record is made of.
#[derive(Drop)]
pub struct GenSpec {
    /// What the first number is drawn from, at most `GREATEST_SEED`.
    pub seed: u32,
    /// How many components are added, 1 to `MOST_ADDED_COMPONENTS`.
    pub components: u32,
    /// How many links are added at most, itself at most `MOST_ADDED_LINKS`.
    pub links: u32,
    /// How many ticks come, at most `MOST_TICKS`.
    pub ticks: u32,
    /// As whom both sessions authenticate: 1 to 16 bytes 0x21 to 0x7e without a colon.
    pub user: Items<u8>,
    /// The digests of the two sessions.
    pub digests: [[u8; 20]; 2],
    /// The types of which components are added, at least one.
    pub types: Items<GenType>,
}

/// A type of components.
#[derive(Drop)]
pub struct GenType {
    /// The number of its kit.
    pub kit: u8,
    /// Its number in the kit.
    pub number: u8,
    /// The initial values of its config properties in bytes, at most 400.
    pub config: Items<u8>,
    /// Its properties of type int but for slot 0, by their slots.
    pub ints: Items<u8>,
}

impl GenSpec {
    /// Whether a record can be generated of it: its numbers, its user and its types are in their ranges.
    pub fn is_allowed(&self) -> bool
        ensures { IsTrue result ↔ MayGenerate self.now }
    {
        if !are_within(self.seed, self.components, self.links, self.ticks) {
            return false;
        }
        if self.types.is_empty() {
            return false;
        }
        if !is_user_name(self.user.as_slice()) {
            return false;
        }
        are_small(self.types.as_slice())
    }
}

// Whether each type has at most 400 bytes of values.
fn are_small(types: &[GenType]) -> bool
    ensures { result ≡ list_all generated.has_few types.now }
{
    types.iter().all(|kind| kind.config.len() <= 400)
}
