//! That a file doesn't fit.

/// The text of an application has more bytes than there is room for: it needs so many.
#[derive(Clone, Copy, Debug, PartialEq, Eq)]
pub struct AppFull {
    pub needs: usize,
}
