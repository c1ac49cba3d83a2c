//! Texts within a body.
ghost use Rattle.std.specs.Prelude.{◌≡◌, ◌+◌, ◌*◌};
ghost use Rattle.std.specs.Option.{option_map};
ghost use Rattle.sox_msg.specs.Forms.{id_at, text_at};

use sed_value::Id;
use sed_wire::Reader;

// The component's id that two bytes spell.
pub(crate) fn id_of(high: u8, low: u8) -> Id
    ensures { result.0 ≡ id_at high low }
{
    Id(u16::from(high) * 256 + u16::from(low))
}

// The text that the bytes begin with, and what is behind its 0.
pub(crate) fn read_text<'a>(bytes: &'a [u8]) -> Option<(&'a [u8], &'a [u8])>
    ensures { option_map (λ read. (read.0.now, read.1.now)) result ≡ text_at bytes.now }
{
    let mut reader = Reader::new(bytes);
    match reader.str() {
        Ok(text) => Some((text, reader.rest())),
        Err(_) => None,
    }
}
