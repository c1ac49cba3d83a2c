//! Lists that are copied.
ghost use Rattle.std.specs.Prelude.{◌≡◌, IfOk};

use sed_value::{Items, Memory};
use std::alloc::Global;

/// A list of the same items.
pub(crate) fn copied<T: Copy>(alloc: Global, items: &[T]) -> Result<Items<T>, Memory>
    ensures { IfOk result (λ made. made ≡ items.now) }
{
    Ok(Items::new(Vec::from_slice(alloc, items)?))
}
