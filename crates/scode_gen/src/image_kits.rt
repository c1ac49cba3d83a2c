//! Kits as they stand in an image.
ghost use Rattle.std.specs.Prelude.{◌≡◌, IfOk, map};
ghost use Rattle.scode_gen.specs.Classes as classes;

use crate::copies::copied;
use scode_image::ImageKit;
use sed_value::{Items, KitRef, Memory};
use std::alloc::Global;

fn image_kit(alloc: Global, kit: &KitRef) -> Result<ImageKit, Memory>
    ensures { IfOk result (λ made. made ≡ classes.image_kit kit.now) }
{
    Ok(ImageKit {
        name: copied(alloc, kit.name.as_bytes())?,
        checksum: kit.checksum,
    })
}

/// The kits of a program.
pub(crate) fn image_kits(alloc: Global, kits: &[KitRef]) -> Result<Items<ImageKit>, Memory>
    ensures { IfOk result (λ made. made ≡ map classes.image_kit kits.now) }
{
    let mut made = Vec::new(alloc);
    for kit in kits {
        made.push(image_kit(alloc, kit)?)?;
    }
    Ok(Items::new(made))
}
