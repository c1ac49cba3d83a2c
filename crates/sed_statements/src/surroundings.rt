//! Where the statements of a method stand.

use crate::Enclosing;

/// Where all statements of a method stand: what names mean, and what they stand in.
#[derive_where(Clone, Copy)]
pub(crate) struct Surroundings<'a, N> {
    pub(crate) names: &'a N,
    pub(crate) method: Enclosing,
}
