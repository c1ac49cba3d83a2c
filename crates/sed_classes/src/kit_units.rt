//! The units of a kit.

use sed_units::Unit;
use sed_value::{Items, KitName};

/// A kit: its name, the names of the kits that it depends on in the order of its manifest, and the units of its texts
/// in their order.
#[derive(Drop)]
pub struct KitUnits {
    pub kit: KitName,
    pub depends: Items<KitName>,
    pub units: Items<Unit>,
}
