//! Numbers of components.

/// A component's id. The App's is 0, and 0xffff names no component.
#[derive(Clone, Copy, Debug, PartialEq, Eq, PartialOrd, Ord, Hash)]
pub struct Id(pub u16);
