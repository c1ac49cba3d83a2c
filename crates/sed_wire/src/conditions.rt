//! Tests of what calls need of what they are given.
ghost use Rattle.std.specs.Prelude.{◌≡◌};
ghost use Rattle.sed_wire.specs.Spelling as spelling;
ghost use Rattle.sed_wire.specs.Text as text;

use sed_value::{SlotType, Value};

/// Whether the bytes can be written as a text: each is 0x01 to 0x7f.
pub fn is_text(bytes: &[u8]) -> bool
    ensures { result ≡ text.is_text bytes.now }
{
    bytes.iter().all(|byte| 1 <= *byte && *byte <= 127)
}

/// Whether the value can be written: it is not `Nothing`, and a truth value is at most 2.
pub fn has_spelling(value: &Value) -> bool
    ensures { result ≡ spelling.has_spelling value.now }
{
    match value {
        Value::Bool(truth) => *truth <= 2,
        Value::Nothing => false,
        _ => true,
    }
}

/// Whether values of the type can be read: a buffer's are at most 128 bytes.
pub fn can_be_held(slot: SlotType) -> bool
    ensures { result ≡ spelling.can_be_held slot }
{
    match slot {
        SlotType::Prim(_) => true,
        SlotType::Buf(most) => most <= 128,
    }
}
