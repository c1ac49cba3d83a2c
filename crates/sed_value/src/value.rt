//! What a slot holds.
ghost use Rattle.std.specs.Prelude.{◌≡◌, ◌&&◌, IsTrue, nat_le, length};
ghost use Rattle.sed_value.specs.Value as values;

use crate::conversion::{int_to_long, low_byte, low_short};
use crate::in_place::InPlace;
use crate::slot_type::{Primitive, SlotType};

/// How many bytes a buffer holds at most.
pub const LONGEST_BUFFER: usize = 128;

/// The contents of a buffer: at most 128 bytes in place. Contracts see them as a list.
pub type Bytes = InPlace<LONGEST_BUFFER>;

/// What a slot holds, or an action is given.
#[derive(Clone, Copy, Debug, PartialEq, Eq)]
pub enum Value {
    /// A truth value: 0 is false, 1 is true, 2 is null.
    Bool(u8),
    /// A number from 0 to 255.
    Byte(u8),
    /// A number from 0 to 65535.
    Short(u16),
    /// A number of 32 bits.
    Int(i32),
    /// A number of 64 bits.
    Long(i64),
    /// The contents of a buffer.
    Buf(Bytes),
    /// No value: what an action without argument is given.
    Nothing,
}

impl Value {
    /// Whether it is a value of the type: a truth value is at most 2, and a buffer is no longer than the type says.
    pub fn is_of_type(&self, slot: SlotType) -> bool
        ensures { result ≡ values.is_of_type slot self.now }
    {
        match (slot, *self) {
            (SlotType::Prim(Primitive::Bool), Value::Bool(truth)) => truth <= 2,
            (SlotType::Prim(Primitive::Byte), Value::Byte(_number)) => true,
            (SlotType::Prim(Primitive::Short), Value::Short(_number)) => true,
            (SlotType::Prim(Primitive::Int), Value::Int(_number)) => true,
            (SlotType::Prim(Primitive::Long), Value::Long(_number)) => true,
            (SlotType::Buf(most), Value::Buf(bytes)) => are_bytes_within(bytes.as_bytes(), most),
            _ => false,
        }
    }

    /// The value as an expression reads it: a byte or short is an int, any other is itself.
    pub fn widened(&self) -> Value
        ensures { result ≡ values.widened self.now }
    {
        match self {
            Value::Byte(number) => Value::Int(i32::from(*number)),
            Value::Short(number) => Value::Int(i32::from(*number)),
            other => *other,
        }
    }

    /// What a slot of the type keeps of the value that is stored in it.
    ///
    /// A byte keeps the low 8 bits of a number and a short the low 16; a long holds every int. Any other
    /// value is kept as it is.
    pub fn stored(&self, slot: SlotType) -> Value
        ensures kept { result ≡ values.stored slot self.now }
        ensures same { IsTrue (values.is_of_type slot self.now) → result ≡ self.now }
        ensures of_type { IsTrue (values.goes_to slot self.now) → IsTrue (values.is_of_type slot result) }
    {
        match (slot, self.widened()) {
            (SlotType::Prim(Primitive::Byte), Value::Int(number)) => Value::Byte(low_byte(number)),
            (SlotType::Prim(Primitive::Short), Value::Int(number)) => Value::Short(low_short(
                number,
            )),
            (SlotType::Prim(Primitive::Long), Value::Int(number)) => Value::Long(int_to_long(
                number,
            )),
            (_, other) => other,
        }
    }
}

// Whether they are bytes, which they always are, and no more than this.
fn are_bytes_within(bytes: &[u8], most: u8) -> bool
    ensures { result ≡ (values.are_bytes bytes.now && nat_le (length bytes.now) most) }
{
    bytes.len() <= usize::from(most)
}
