//! Locals, and what their types stand for.

use sed_typed::Kind;
use sed_value::Items;

/// A local: its number in the method, and its kind; none where its type has no meaning, or there is no number for it.
#[derive(Clone, Copy)]
pub struct Local {
    pub number: u8,
    pub kind: Option<Kind>,
}

/// A local in scope.
#[derive(Drop)]
pub struct Entry {
    pub name: Items<u8>,
    pub local: Local,
}

/// What the type of a local or a parameter stands for.
#[derive(Clone, Copy)]
pub enum TypeMeaning {
    Is(Kind),
    /// A name at this place, which has no class.
    NoClass(usize),
    /// A type that no local has.
    Outside,
}
