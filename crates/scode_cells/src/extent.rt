//! Where a frame lies.

/// A frame, but for its cells: the locals are those from `base` to `stack`, the stack is those from there to `top`.
#[derive(Clone, Copy)]
pub struct Extent {
    pub method: u16,
    pub place: u16,
    pub base: usize,
    pub stack: usize,
    pub top: usize,
}
