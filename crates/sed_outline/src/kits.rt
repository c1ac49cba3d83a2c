//! The kits of a schema.
ghost use Rattle.std.specs.Prelude.{◌≡◌, ◌≤◌, ◌++◌, ◌∷◌, [], codes, length, map, IfOk, OnOk};
ghost use Rattle.std.specs.List.{enumerate_from};
ghost use Rattle.sed_classes.specs.Checksum.{kit_checksum};
ghost use Rattle.sed_classes.specs.Schema as schemas;
ghost use Rattle.sed_outline.specs.Fits.{signed_as, signed_in};

use sed_classes::{KitUnits, checksum};
use sed_typed::Schema;
use sed_value::{KitName, KitRef, Memory};
use std::alloc::Global;

fn push_unsigned(into: &mut Vec<KitRef>, name: KitName) -> Result<(), Memory>
    ensures { OnOk result (into.new.items ≡ into.old.items ++ schemas.unsigned_kit name ∷ []) }
{
    into.push(KitRef { name, checksum: 0 })?;
    Ok(())
}

// Kit `sys`, alone.
fn sys_kit(alloc: Global) -> Result<Vec<KitRef>, Memory>
    ensures { IfOk result (λ v. v.items ≡ schemas.unsigned_kit (codes "sys") ∷ []) }
{
    let mut all = Vec::new(alloc);
    if let Some(name) = KitName::read(b"sys") {
        push_unsigned(&mut all, name)?;
    }
    Ok(all)
}

/// The kits of units, `sys` first, where checksums are 0.
///
/// Want of memory is the only refusal.
pub fn unsigned_kits(alloc: Global, units: &[KitUnits]) -> Result<Vec<KitRef>, Memory>
    ensures { IfOk result (λ v. v.items ≡ map schemas.unsigned_kit (schemas.kit_names units.now)) }
{
    let mut all = sys_kit(alloc)?;
    for kit in units {
        push_unsigned(&mut all, kit.kit)?;
    }
    Ok(all)
}

// Puts a kit with its checksum behind others.
fn push_signed(into: &mut Vec<KitRef>, name: KitName, checksum: i32) -> Result<(), Memory>
    ensures { OnOk result (into.new.items ≡ into.old.items ++ signed_as name checksum ∷ []) }
{
    into.push(KitRef { name, checksum })?;
    Ok(())
}

/// The kits of a schema with their checksums.
///
/// Want of memory is the only refusal.
pub fn signed_kits(alloc: Global, outline: &Schema) -> Result<Vec<KitRef>, Memory>
    requires { length outline.now.kits ≤ 16 }
    ensures { IfOk result (λ v. v.items ≡ map (signed_in outline.now) (enumerate_from 0 outline.now.kits)) }
{
    let mut all = Vec::new(alloc);
    for number in 0..outline.kits.len() {
        let kit = outline.kits.as_slice()[number];
        let checksum = checksum(alloc, outline, number as u8)?;
        push_signed(&mut all, kit.name, checksum)?;
    }
    Ok(all)
}
