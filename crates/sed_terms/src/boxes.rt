//! Boxes, of any type.
ghost use Rattle.std.specs.Prelude.{◌≡◌, IfOk, [], ◌∷◌, ◌++◌};

use sed_value::Memory;
use std::alloc::Global;

/// An item in a box of its own.
pub fn boxed<T: Drop>(alloc: Global, item: T) -> Result<Box<T>, Memory>
    ensures { IfOk result (λ b. b.value ≡ item) }
{
    Ok(Box::new(alloc, item)?)
}

/// What is in a box, put behind the others.
pub fn push_boxed<T: Drop>(items: &mut Vec<T>, item: Box<T>) -> Result<(), Memory>
    ensures { IfOk result (λ _. items.new.items ≡ items.old.items ++ item.value ∷ []) }
{
    items.push(Box::into_inner(item))?;
    Ok(())
}
