//! What the statements of a method stand in.

use sed_bodies::Body;
use sed_typed::Kind;

/// What the statements of a method stand in: its class, whether it is static, and its result.
#[derive(Clone, Copy)]
pub struct Enclosing {
    pub body: Body,
    /// Void where it has none; no kind where it is declared with a fault.
    pub result: Option<Kind>,
}
