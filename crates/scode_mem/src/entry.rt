//! Where a block begins.

/// Where the block of a place begins among all bytes, and its class.
#[derive(Clone, Copy)]
pub struct Entry {
    pub offset: u32,
    pub class: u16,
}
