//! The types that a slot may have.
ghost use Rattle.std.specs.Prelude.{◌≡◌};
ghost use Rattle.sed_value.specs.SlotType.{goes_with as goes_so, is_read_as_int as is_so};
ghost use Rattle.sed_value.specs.SlotType.{primitive_goes_with as primitive_goes_so, width_of};

/// A primitive type of a field or slot.
#[derive(Clone, Copy, Debug, PartialEq, Eq)]
pub enum Primitive {
    /// A truth value: false, true or null.
    Bool,
    /// Unsigned, of 8 bits.
    Byte,
    /// Unsigned, of 16 bits.
    Short,
    /// Signed, of 32 bits.
    Int,
    /// Signed, of 64 bits.
    Long,
}

impl Primitive {
    /// How many bytes of data a field of the type takes: 1, 1, 2, 4 or 8.
    pub fn width(self) -> u8
        ensures { result ≡ width_of self }
    {
        match self {
            Primitive::Bool | Primitive::Byte => 1,
            Primitive::Short => 2,
            Primitive::Int => 4,
            Primitive::Long => 8,
        }
    }

    // Whether a value of the type is read as an int.
    fn is_read_as_int(self) -> bool
        ensures { result ≡ is_so self }
    {
        match self {
            Primitive::Byte | Primitive::Short | Primitive::Int => true,
            Primitive::Bool | Primitive::Long => false,
        }
    }

    // Whether the two are equal, or are both read as an int.
    fn goes_with(self, to: Primitive) -> bool
        ensures { result ≡ primitive_goes_so self to }
    {
        match (self, to) {
            (Primitive::Bool, Primitive::Bool) => true,
            (Primitive::Long, Primitive::Long) => true,
            _ => self.is_read_as_int() && to.is_read_as_int(),
        }
    }
}

/// The type of a property.
#[derive(Clone, Copy, Debug, PartialEq, Eq)]
pub enum SlotType {
    /// A primitive type.
    Prim(Primitive),
    /// Bytes, of which there are at most this many, from 1 to 128.
    Buf(u8),
}

impl SlotType {
    /// Whether a link may lead from a property of this type to one of the other: where both are Bool or both Long, both
    /// among Byte, Short and Int, or Bufs of one size.
    pub fn goes_with(self, to: SlotType) -> bool
        ensures { result ≡ goes_so self to }
    {
        match (self, to) {
            (SlotType::Prim(from), SlotType::Prim(to)) => from.goes_with(to),
            (SlotType::Buf(from), SlotType::Buf(to)) => from == to,
            _ => false,
        }
    }
}
