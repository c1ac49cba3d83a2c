//! One link.

use sed_value::Id;
use std::marker::Model;

/// A link: the value in slot `from_slot` of component `from` goes to slot `to_slot` of component `to`.
///
/// Contracts see its four numbers.
#[derive(Clone, Copy, Debug, PartialEq, Eq)]
pub struct LinkRec {
    pub from: Id,
    pub from_slot: u8,
    pub to: Id,
    pub to_slot: u8,
}

impl Model for LinkRec {
    ghost use Rattle.sub_table.specs.Link.{Link};

    ghost Value = { Link };

    ghost view = { λ l. record { from = l.from.0; from_slot = l.from_slot; to = l.to.0; to_slot = l.to_slot } };

    ghost inverse = { λ l. record {
      from = record { 0 = l.from };
      from_slot = l.from_slot;
      to = record { 0 = l.to };
      to_slot = l.to_slot;
    } };
}
