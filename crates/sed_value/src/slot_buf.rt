//! A place for one value.
ghost use Rattle.std.specs.Prelude.{◌≡◌};
ghost use Rattle.sed_value.specs.declared.value.Value.TheVariants.{Nothing};

use crate::value::Value;
use std::marker::Model;

/// A holder of one value, as a caller lends it for a call to fill. Contracts see it as the value.
#[derive(Debug, Drop)]
pub struct SlotBuf {
    held: Value,
}

impl Model for SlotBuf {
    ghost use Rattle.sed_value.specs.declared.value.Value.{Value as Contents};

    ghost Value = { Contents };

    ghost view = { λ holder. holder.held };
}

impl SlotBuf {
    /// A holder of `Nothing`.
    pub fn new() -> SlotBuf
        ensures { result ≡ Nothing }
    {
        SlotBuf {
            held: Value::Nothing,
        }
    }

    /// The value that it holds.
    pub fn value(&self) -> &Value
        ensures { result.now ≡ self.now }
    {
        &self.held
    }

    /// Puts a value in the place of the one that it holds.
    pub fn put(&mut self, v: Value)
        ensures { self.new ≡ v }
    {
        self.held = v;
    }
}
