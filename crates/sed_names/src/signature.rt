//! Methods, as a call finds them.

use sed_typed::Kind;
use sed_value::Items;

/// What a call must know of a method. A parameter or a result without a kind is declared with a fault.
#[derive(Drop)]
pub struct Signature {
    /// Its number among the program's methods.
    pub number: u16,
    pub is_static: bool,
    pub is_abstract: bool,
    pub params: Items<Option<Kind>>,
    pub result: Option<Kind>,
}
