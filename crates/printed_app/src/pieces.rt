//! Pieces of text that are put into a sink.
ghost use Rattle.printed_app.specs.Puts.{Puts};

use itoa::{Buffer, Integer};
use sed_outside::{Sink, SinkFault};
use sed_value::Word;

/// Puts these bytes into a sink. Takes no memory of its own.
pub fn put_bytes<O: Sink>(bytes: &[u8], out: &mut O) -> Result<(), SinkFault>
    ensures { Puts O.Sink out.old out.new bytes.now result }
{
    out.put(bytes)
}

/// Puts a number in decimal into a sink, behind `-` where it is negative. Takes no memory of its own.
pub fn put_number<O: Sink, N: Integer>(number: N, out: &mut O) -> Result<(), SinkFault>
    ensures { Puts O.Sink out.old out.new (N.text number) result }
{
    let mut digits = Buffer::new();
    put_bytes(digits.format(number).as_bytes(), out)
}

/// Puts a word into a sink. Takes no memory of its own.
pub fn put_word<O: Sink>(word: &Word, out: &mut O) -> Result<(), SinkFault>
    ensures { Puts O.Sink out.old out.new word.now result }
{
    put_bytes(word.as_bytes(), out)
}
