//! The five bytes in front of the fields.
ghost use Rattle.dasp_msg.specs.Header.{SpellsHeader};
ghost use Rattle.dasp_msg.specs.Reading.{ReadsOrNone};

use crate::kind::MsgKind;
use crate::malformed::Malformed;
use sed_wire::Reader;

/// A header.
#[derive(Clone, Copy)]
pub(crate) struct Header {
    pub(crate) to: u16,
    pub(crate) sequence: u16,
    pub(crate) kind: MsgKind,
    // How many fields follow, at most 15.
    pub(crate) count: u8,
}

pub(crate) fn read_header(reader: &mut Reader) -> Result<Header, Malformed>
    ensures { ReadsOrNone (λ header. header) SpellsHeader result reader.old reader.new }
{
    let to = reader.u2()?;
    let sequence = reader.u2()?;
    let byte = reader.u1()?;
    match MsgKind::of_number(byte / 16) {
        Some(kind) => Ok(Header {
            to,
            sequence,
            kind,
            count: byte % 16,
        }),
        None => Err(Malformed),
    }
}
