//! The ends of links.

/// A slot of a component.
#[derive(Clone, Copy)]
pub(crate) struct Place {
    pub(crate) id: u16,
    pub(crate) slot: u8,
}
