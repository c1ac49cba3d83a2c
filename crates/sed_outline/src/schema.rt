//! The schema of units.
ghost use Rattle.std.specs.Prelude.{◌≡◌, IfOk};
ghost use Rattle.sed_classes.specs.Schema as schemas;
ghost use Rattle.sed_outline.specs.Fits.{Fits, Unbroken};

use crate::Measured;
use crate::info::class_infos;
use crate::kits::{signed_kits, unsigned_kits};
use crate::order::class_order;
use sed_classes::{Based, Classes, KitUnits, sys_classes};
use sed_typed::Schema;
use sed_value::{Items, Memory};
use std::alloc::Global;

// All classes of kits, measured, as a schema whose checksums are 0.
fn outline(alloc: Global, units: &[KitUnits]) -> Result<Schema, Memory>
    requires { Fits units.now }
    ensures { IfOk result (λ s. s ≡ schemas.outline units.now) }
{
    let sys = sys_classes(alloc)?;
    let all = Classes::new(alloc, sys.as_slice(), units)?;
    let based = Based::new(alloc, all)?;
    let measured = Measured::new(alloc, based)?;
    let order = class_order(alloc, measured.based())?;
    let infos = class_infos(alloc, &measured, order.as_slice())?;
    let kits = unsigned_kits(alloc, units)?;
    Ok(Schema {
        kits: Items::new(kits),
        classes: Items::new(infos),
    })
}

/// The schema of kits whose units break no rule on classes and members: their kits with checksums, `sys` first, and
/// their classes, each base before the classes based on it.
///
/// Want of memory is the only refusal.
pub fn classes(alloc: Global, units: &[KitUnits]) -> Result<Schema, Memory>
    requires { Unbroken units.now }
    ensures { IfOk result (λ s. s ≡ schemas.schema_of units.now) }
{
    let outline = outline(alloc, units)?;
    let kits = signed_kits(alloc, &outline)?;
    Ok(Schema {
        kits: Items::new(kits),
        classes: outline.classes,
    })
}
