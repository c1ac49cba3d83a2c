//! Where an expression stands.

use crate::Body;
use sed_body_rules::Locals;

/// Where an expression stands: what names mean, what its body stands in, and the locals in scope.
#[derive_where(Clone, Copy)]
pub(crate) struct Environment<'a, N> {
    pub(crate) names: &'a N,
    pub(crate) body: Body,
    pub(crate) scope: &'a Locals,
}
