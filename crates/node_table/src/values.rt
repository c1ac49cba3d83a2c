//! Values that are read from bytes.
ghost use Rattle.std.specs.Prelude.{◌≡◌, ◌∷◌, [], IsTrue, MatchResult};
ghost use Rattle.sed_value.specs.Value.{goes_to, is_of_type};
ghost use Rattle.sed_wire.specs.Spelling.{can_be_held};
ghost use Rattle.node_table.specs.Read.{AreTaken, IsArgument, IsBadArgument, IsRefusedValue};
ghost use Rattle.node_table.specs.Same.{is_same_value};

use sed_typed::ActionArg;
use sed_value::{Prim, Refusal, SlotType, Value};
use sed_wire::{Reader, ValueFault};

/// The one value of a type that the bytes are, or why they are none.
pub fn one_value(slot: SlotType, bytes: &[u8]) -> Result<Value, Refusal>
    requires { IsTrue (can_be_held slot) }
    ensures taken { MatchResult result (λ value. AreTaken (slot ∷ []) bytes.now (value ∷ []))
        (IsRefusedValue (slot ∷ []) bytes.now) }
    ensures of_type { MatchResult result (λ value. IsTrue (is_of_type slot value)) (λ _. Unit) }
    ensures goes { MatchResult result (λ value. IsTrue (goes_to slot value)) (λ _. Unit) }
{
    let mut reader = Reader::new(bytes);
    match reader.value(slot) {
        Ok(value) => {
            if reader.is_empty() {
                Ok(value)
            } else {
                Err(Refusal::BadValue)
            }
        }
        Err(ValueFault::TooLong) => {
            if reader.is_empty() {
                Err(Refusal::BufferTooLong)
            } else {
                Err(Refusal::BadValue)
            }
        }
        Err(_) => Err(Refusal::BadValue),
    }
}

/// The argument of an action that the bytes are, or why they are none.
pub fn one_argument(arg: ActionArg, bytes: &[u8]) -> Result<Value, Refusal>
    ensures { MatchResult result (IsArgument arg bytes.now) (IsBadArgument arg bytes.now) }
{
    match arg {
        ActionArg::Void => no_value(bytes),
        ActionArg::Bool => one_value(SlotType::Prim(Prim::Bool), bytes),
        ActionArg::Int => one_value(SlotType::Prim(Prim::Int), bytes),
        ActionArg::Long => one_value(SlotType::Prim(Prim::Long), bytes),
    }
}

// No argument, where there are no bytes.
fn no_value(bytes: &[u8]) -> Result<Value, Refusal>
    ensures { MatchResult result (IsArgument ActionArg.Void bytes.now) (IsBadArgument ActionArg.Void bytes.now) }
{
    if bytes.is_empty() {
        Ok(Value::Nothing)
    } else {
        Err(Refusal::BadValue)
    }
}

/// Whether two values are the same.
pub fn are_same(a: &Value, b: &Value) -> bool
    ensures { result ≡ is_same_value a.now b.now }
{
    match (a, b) {
        (Value::Bool(a), Value::Bool(b)) => a == b,
        (Value::Byte(a), Value::Byte(b)) => a == b,
        (Value::Short(a), Value::Short(b)) => a == b,
        (Value::Int(a), Value::Int(b)) => a == b,
        (Value::Long(a), Value::Long(b)) => a == b,
        (Value::Buf(a), Value::Buf(b)) => a.as_bytes() == b.as_bytes(),
        (Value::Nothing, Value::Nothing) => true,
        _ => false,
    }
}
