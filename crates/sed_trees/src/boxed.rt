// An item of a tree in a place of its own, which contracts see as the item.
ghost use Rattle.std.specs.Prelude.{◌≡◌, IfOk, [], ◌∷◌, ◌++◌};
ghost use Rattle.sed_trees.specs.Makes.{Makes};

use sed_value::{Halt, Items};
use std::alloc::{AllocError, Global};
use std::marker::Model;

/// An item in a place of its own. What is made of trees is passed on in one, since an item by value is dear to check.
#[derive(Drop)]
pub struct Boxed<T: Drop> {
    item: Box<T>,
}

impl<T: Drop> Model for Boxed<T> {
    ghost Value = { T };

    ghost view = { λ b. b.item.value };
}

impl<T: Drop> Boxed<T> {
    /// The item in a place of its own.
    pub fn new(alloc: Global, item: T) -> Result<Boxed<T>, Halt>
        ensures { Makes result item }
    {
        let item = Box::new(alloc, item)?;
        Ok(Boxed { item })
    }

    /// The box of the item. Takes no memory.
    pub fn into_box(self) -> Box<T>
        ensures { result.value ≡ self }
    {
        self.item
    }

    /// The item itself. Takes no memory.
    pub fn into_inner(self) -> T
        ensures { result ≡ self }
    {
        Box::into_inner(self.item)
    }
}

/// The item, where there is one.
pub fn unboxed<T: Drop>(item: Option<Boxed<T>>) -> Option<T>
    ensures { result ≡ item }
{
    match item {
        Some(item) => Some(item.into_inner()),
        None => None,
    }
}

/// Puts an item behind the others.
pub fn push<T: Drop>(items: &mut Vec<T>, item: Boxed<T>) -> Result<(), AllocError>
    ensures items { IfOk result (λ _. items.new.items ≡ items.old.items ++ item ∷ []) }
{
    items.push(item.into_inner())?;
    Ok(())
}

/// The first item, in front of the others.
pub fn with_first<T: Drop>(first: Boxed<T>, others: Items<T>) -> Result<Items<T>, Halt>
    ensures { Makes result (first ∷ others) }
{
    let mut items = others.into_vec();
    items.insert(0, first.into_inner())?;
    Ok(Items::new(items))
}
