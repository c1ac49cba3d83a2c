//! What is read of kits.

use kit_manifest::Text;
use sed_classes::KitUnits;
use sed_value::Items;

/// The kits in their order, each behind those that it depends on, with the units of their sources; and the names of all
/// sources in the same order, so that the name of a number is that of the unit of this number among those of all kits.
#[derive(Drop)]
pub struct Sources {
    pub kits: Items<KitUnits>,
    pub files: Items<Text>,
}
