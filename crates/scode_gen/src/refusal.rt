//! Why no image is made.
ghost use Rattle.std.specs.Prelude.{◌≡◌};
ghost use Rattle.scode_gen.specs.declared.refusal.GenRefusal.TheVariants.{Memory as MemoryRefusal};

use sed_value::Memory;

/// Why no image of a program is made.
#[derive(Clone, Copy, Debug, PartialEq, Eq)]
pub enum GenRefusal {
    /// The code of the method with this number passes 65,535 bytes, and that of none before it.
    MethodTooLong(u16),
    /// Memory was wanted.
    Memory,
}

impl From<Memory> for GenRefusal {
    ghost from_gives = { λ _ refusal. refusal ≡ MemoryRefusal };

    fn from(_refused: Memory) -> GenRefusal {
        GenRefusal::Memory
    }
}
